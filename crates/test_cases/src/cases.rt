//! Sections of a case: files, sessions over them, changes and questions.

use crate::faults::{Failing, run, table};
use crate::files::Files;
use crate::listing::listing_of;
use crate::numbered::{numbered, repeated};
use ob_obj::{ObjFault, read_obj};
use std::alloc::{AllocError, Global};

/// A case as far as it was told: its files, the words of the next session, how often the numbered lines of the
/// next section stand (0: they have no numbers), and what is printed.
#[derive(Drop)]
pub struct Case {
    alloc: Global,
    files: Files,
    words: Vec<String>,
    times: u32,
    printed: String,
}

fn hexadecimal(digit: u8) -> Option<u8> {
    match digit {
        b'0'..=b'9' => Some(digit - b'0'),
        b'a'..=b'f' => Some(digit - b'a' + 10),
        _ => None,
    }
}

// The bytes that pairs of hexadecimal digits write; other characters part pairs.
fn from_digits(alloc: Global, text: &str) -> Result<Vec<u8>, AllocError> {
    let mut bytes = Vec::new(alloc);
    let mut high = None;
    for character in text.bytes() {
        match (high, hexadecimal(character)) {
            (_, None) => high = None,
            (None, Some(digit)) => high = Some(digit),
            (Some(first), Some(digit)) => {
                bytes.push(first << 4 | digit & 15)?;
                high = None;
            }
        }
    }
    Ok(bytes)
}

impl Case {
    pub fn new(alloc: Global) -> Case {
        Case {
            alloc,
            files: Files::new(alloc),
            words: Vec::new(alloc),
            times: 0,
            printed: String::new(alloc),
        }
    }

    /// All that was printed so far.
    pub fn printed(&self) -> &str {
        self.printed.as_str()
    }

    fn print(&mut self, texts: &[&str]) -> anyhow::Result<()> {
        for text in texts {
            self.printed.push_str(text)?;
        }
        Ok(())
    }

    /// Does the section with this head and these lines.
    pub fn tell(&mut self, head: &str, body: &str) -> anyhow::Result<()> {
        let mut parts = Vec::new(self.alloc);
        for part in head.split_whitespace() {
            parts.push(part)?;
        }
        match parts.as_slice() {
            [] => Ok(()),
            [what, rest @ ..] => self.tell_of(what, rest, body),
        }
    }

    fn tell_of(&mut self, what: &str, rest: &[&str], body: &str) -> anyhow::Result<()> {
        match (what, rest) {
            ("words", words) => self.set_words(words),
            ("times", [count]) => {
                self.times = count.parse()?;
                Ok(())
            }
            ("files", [name]) => self.put_files(name, body),
            ("faults", []) => self.run_faults(body),
            _ => {
                let body = repeated(self.alloc, body, self.times)?;
                self.times = 0;
                self.tell_body(what, rest, &body)
            }
        }
    }

    fn tell_body(&mut self, what: &str, rest: &[&str], body: &str) -> anyhow::Result<()> {
        match rest {
            [] => self.run(body),
            [name] => self.tell_name(what, name, body),
            [name, other] => self.tell_two(what, name, other),
            [name, first, second, third] => self.patch(name, first, second, third),
            _ => anyhow::bail!("no section"),
        }
    }

    // Files with numbered names and contents.
    fn put_files(&mut self, name: &str, body: &str) -> anyhow::Result<()> {
        for number in 0..self.times {
            let number = number + 1;
            let name = numbered(self.alloc, name, number)?;
            let body = numbered(self.alloc, body, number)?;
            self.files.put(&name, body.as_bytes())?;
        }
        self.times = 0;
        Ok(())
    }

    fn set_words(&mut self, words: &[&str]) -> anyhow::Result<()> {
        let mut all = Vec::new(self.alloc);
        for word in words {
            all.push(String::from_str(self.alloc, word)?)?;
        }
        self.words = all;
        Ok(())
    }

    fn tell_name(&mut self, what: &str, name: &str, body: &str) -> anyhow::Result<()> {
        match what {
            "case" => {
                self.files = Files::new(self.alloc);
                self.print(&["== case ", name, "\n"])
            }
            "file" | "putfile" => Ok(self.files.put(name, body.as_bytes())?),
            "hexfile" => {
                let bytes = from_digits(self.alloc, body)?;
                Ok(self.files.put(name, &bytes)?)
            }
            "remove" => {
                self.files.remove(name);
                Ok(())
            }
            "exists" | "absent" => {
                let said = match self.files.bytes(name) {
                    Some(_) => "exists",
                    None => "absent",
                };
                self.print(&["== ", said, " ", name, "\n"])
            }
            "size" => self.print_size(name),
            "hex" => self.print_bytes(name),
            "listing" => self.print_listing(name),
            "every-prefix" => self.run_prefixes(name, body),
            _ => anyhow::bail!("no section of one name"),
        }
    }

    fn file(&self, name: &str) -> anyhow::Result<&[u8]> {
        match self.files.bytes(name) {
            Some(bytes) => Ok(bytes),
            None => anyhow::bail!("no file"),
        }
    }

    fn print_size(&mut self, name: &str) -> anyhow::Result<()> {
        let count = self.file(name)?.len();
        let text = format!(in self.alloc; "== size {name} {count}\n")?;
        self.print(&[&text])
    }

    fn print_bytes(&mut self, name: &str) -> anyhow::Result<()> {
        let mut text = format!(in self.alloc; "== hex {name} ")?;
        for byte in self.file(name)? {
            text.push_str(&format!(in self.alloc; "{byte:02x}")?)?;
        }
        self.print(&[&text, "\n"])
    }

    // The tables and the code of an object file.
    fn print_listing(&mut self, name: &str) -> anyhow::Result<()> {
        let lines = match read_obj(self.alloc, self.file(name)?) {
            Ok(file) => listing_of(self.alloc, &file)?,
            Err(ObjFault::Damaged) => anyhow::bail!("no object file"),
            Err(ObjFault::Memory) => anyhow::bail!("no memory"),
        };
        self.print(&["== listing ", name, "\n", &lines])
    }

    fn tell_two(&mut self, what: &str, name: &str, other: &str) -> anyhow::Result<()> {
        match what {
            "copy" => {
                let bytes = self.file(name)?.to_vec(self.alloc)?;
                Ok(self.files.put(other, &bytes)?)
            }
            "cut" => {
                let count: usize = other.parse()?;
                let mut bytes = self.file(name)?.to_vec(self.alloc)?;
                bytes.truncate(count);
                Ok(self.files.put(name, &bytes)?)
            }
            "lengthen" => {
                let count: usize = other.parse()?;
                let mut bytes = self.file(name)?.to_vec(self.alloc)?;
                for _ in bytes.len()..count {
                    bytes.push(b' ')?;
                }
                Ok(self.files.put(name, &bytes)?)
            }
            "script-repeat" => {
                let count: u32 = other.parse()?;
                let mut script = String::new(self.alloc);
                for _ in 0..count {
                    script.push_str(name)?;
                }
                self.run(&script)
            }
            _ => anyhow::bail!("no section of two words"),
        }
    }

    // Puts another value in the place of a byte.
    fn patch(&mut self, name: &str, at: &str, from: &str, to: &str) -> anyhow::Result<()> {
        let at: usize = at.parse()?;
        let from: u8 = from.parse()?;
        let to: u8 = to.parse()?;
        let mut bytes = self.file(name)?.to_vec(self.alloc)?;
        match bytes.get_mut(at) {
            Some(byte) if *byte == from => *byte = to,
            _ => anyhow::bail!("no such byte"),
        }
        Ok(self.files.put(name, &bytes)?)
    }

    // A session with this script, and its words.
    fn run(&mut self, script: &str) -> anyhow::Result<()> {
        let text = self.answer(script)?;
        self.words = Vec::new(self.alloc);
        self.print(&[&text])
    }

    // What a session writes, and its status.
    fn answer(&mut self, script: &str) -> anyhow::Result<String> {
        let alloc = self.alloc;
        let none = Vec::new(alloc);
        let answer = run(
            alloc,
            &self.words,
            &mut self.files,
            script,
            none,
            Vec::new(alloc),
        )?;
        let written = answer.text;
        let status = answer.status;
        Ok(format!(in alloc; "{written}== status {status}\n")?)
    }

    // Tables of a script with faults; then it is done without.
    fn run_faults(&mut self, script: &str) -> anyhow::Result<()> {
        self.run_table("folder", Failing::Folder, script)?;
        self.run_table("folder keeping", Failing::KeepingFolder, script)?;
        self.run_table("sink", Failing::Sink, script)?;
        self.run_table("script", Failing::Script, script)?;
        self.run(script)
    }

    fn run_table(&mut self, head: &str, failing: Failing, script: &str) -> anyhow::Result<()> {
        let lines = table(self.alloc, &self.words, &self.files, script, failing)?;
        self.print(&["== ", head, "\n", &lines])
    }

    // A session over each front of a file, which are to answer alike; then the file is whole again.
    fn run_prefixes(&mut self, name: &str, script: &str) -> anyhow::Result<()> {
        let whole = self.file(name)?.to_vec(self.alloc)?;
        let mut answers = Vec::new(self.alloc);
        for count in 0..whole.len() {
            self.files.put(name, &whole[..count])?;
            let answer = self.answer(script)?;
            if answers.last() != Some(&answer) {
                answers.push(answer)?;
            }
        }
        self.files.put(name, &whole)?;
        for answer in &answers {
            self.print(&[answer])?;
        }
        Ok(())
    }
}
