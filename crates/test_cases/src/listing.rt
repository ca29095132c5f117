//! The listing of an object file: its tables, and the code of each procedure.

use ob_instr::{Instr, Param, Position, Procedure, operands_of};
use ob_obj::{Base, Export, Link, ObjFile, RecordType};
use ob_tree::QName;
use ob_types::Aspect;
use std::alloc::Global;

/// A listing as far as it was written.
#[derive(Drop)]
struct Listing {
    alloc: Global,
    text: String,
}

// The name of an aspect.
fn aspect(of: Aspect) -> &'static str {
    match of {
        Aspect::Shape => "shape",
        Aspect::Layout => "layout",
    }
}

impl Listing {
    fn put(&mut self, text: &str) -> anyhow::Result<()> {
        self.text.push_str(text)?;
        Ok(())
    }

    // A name, or a text, as characters.
    fn put_bytes(&mut self, bytes: &[u8]) -> anyhow::Result<()> {
        self.put(str::from_utf8(bytes)?)
    }

    fn put_export(&mut self, export: &Export) -> anyhow::Result<()> {
        self.put("export ")?;
        self.put_bytes(export.name.as_bytes())?;
        self.put(" ")?;
        self.put(aspect(export.aspect))?;
        self.put("\n")
    }

    fn put_qualified(&mut self, name: &QName) -> anyhow::Result<()> {
        self.put_bytes(name.module.as_bytes())?;
        self.put(".")?;
        self.put_bytes(name.object.as_bytes())
    }

    fn put_link(&mut self, what: &str, link: &Link) -> anyhow::Result<()> {
        self.put("link ")?;
        self.put(what)?;
        self.put(" ")?;
        self.put_bytes(link.module.as_bytes())?;
        self.put(".")?;
        self.put_bytes(link.name.as_bytes())?;
        self.put("\n")
    }

    fn put_globals(&mut self, file: &ObjFile) -> anyhow::Result<()> {
        let alloc = self.alloc;
        let words = file.globals.variable_words;
        self.put(&format!(in alloc; "words {words}\n")?)?;
        let mut place = words as u64;
        for string in file.globals.strings.as_slice() {
            let count = string.words;
            self.put(&format!(in alloc; "string {place} {count} ")?)?;
            self.put_bytes(string.text.as_slice())?;
            self.put("\n")?;
            place = place.saturating_add(count as u64);
        }
        for variable in file.globals.variables.as_slice() {
            self.put("variable ")?;
            self.put_bytes(variable.name.as_bytes())?;
            let place = variable.place;
            self.put(&format!(in alloc; " {place}\n")?)?;
        }
        Ok(())
    }

    fn put_type(&mut self, of: &RecordType) -> anyhow::Result<()> {
        let alloc = self.alloc;
        self.put("type ")?;
        self.put_bytes(of.name.as_bytes())?;
        let base = match of.base {
            Base::None => String::from_str(alloc, "none")?,
            Base::Own(number) => format!(in alloc; "own {number}")?,
            Base::Link(number) => format!(in alloc; "link {number}")?,
        };
        let words = of.words;
        let count = of.count;
        self.put(&format!(in alloc; " base {base} words {words} procedures {count}")?)?;
        for definition in of.definitions.as_slice() {
            let number = definition.number;
            let procedure = definition.procedure;
            self.put(&format!(in alloc; " {number}={procedure}")?)?;
        }
        self.put("\n")
    }

    fn put_param(&mut self, param: Param) -> anyhow::Result<()> {
        let alloc = self.alloc;
        match param {
            Param::Scalar => self.put(" scalar"),
            Param::Var => self.put(" var"),
            Param::VarRecord => self.put(" var-record"),
            Param::VarArray => self.put(" var-array"),
            Param::Value(words) => self.put(&format!(in alloc; " value {words}")?),
            Param::ValueArray(words) => self.put(&format!(in alloc; " array {words}")?),
        }
    }

    fn put_procedure(&mut self, number: usize, of: &Procedure) -> anyhow::Result<()> {
        let alloc = self.alloc;
        let entry = of.entry;
        let locals = of.locals;
        self.put(&format!(in alloc; "procedure {number} entry {entry} locals {locals}")?)?;
        for param in of.params.as_slice() {
            self.put_param(*param)?;
        }
        self.put(if of.has_result { " result\n" } else { "\n" })
    }

    fn put_instr(&mut self, at: u32, instr: Instr) -> anyhow::Result<()> {
        let alloc = self.alloc;
        let Instr { op, a, b } = instr;
        match operands_of(op) {
            0 => self.put(&format!(in alloc; "{at} {op:?}")?),
            1 => self.put(&format!(in alloc; "{at} {op:?} {a}")?),
            _ => self.put(&format!(in alloc; "{at} {op:?} {a} {b}")?),
        }
    }

    // The code, each procedure under its row, and positions behind the instructions that have one.
    fn put_code(&mut self, file: &ObjFile) -> anyhow::Result<()> {
        let alloc = self.alloc;
        let rows: &[Procedure] = file.body.procedures.as_slice();
        let positions: &[Position] = file.body.positions.as_slice();
        let mut number = 0;
        let mut place = 0;
        let mut at: u32 = 0;
        for instr in file.body.code.as_slice() {
            if number < rows.len() && rows[number].entry == at {
                self.put_procedure(number, &rows[number])?;
                number += 1;
            }
            self.put_instr(at, *instr)?;
            if place < positions.len() && positions[place].at == at {
                let pos = positions[place].pos;
                let line = pos.line;
                let col = pos.col;
                self.put(&format!(in alloc; " @{line}:{col}")?)?;
                place += 1;
            }
            self.put("\n")?;
            at = at.saturating_add(1);
        }
        Ok(())
    }
}

/// The listing of an object file.
pub fn listing_of(alloc: Global, file: &ObjFile) -> anyhow::Result<String> {
    let mut out = Listing {
        alloc,
        text: String::new(alloc),
    };
    for name in file.head.imports.as_slice() {
        out.put("import ")?;
        out.put_bytes(name.as_bytes())?;
        out.put("\n")?;
    }
    for export in file.head.exports.as_slice() {
        out.put_export(export)?;
    }
    out.put_globals(file)?;
    for link in file.links.variables.as_slice() {
        out.put_link("variable", link)?;
    }
    for link in file.links.procedures.as_slice() {
        out.put_link("procedure", link)?;
    }
    for name in file.links.types.as_slice() {
        out.put("link type ")?;
        out.put_qualified(name)?;
        out.put("\n")?;
    }
    for of in file.body.types.as_slice() {
        out.put_type(of)?;
    }
    for command in file.body.commands.as_slice() {
        out.put("command ")?;
        out.put_bytes(command.name.as_bytes())?;
        let procedure = command.procedure;
        out.put(&format!(in alloc; " {procedure}\n")?)?;
    }
    out.put_code(file)?;
    Ok(out.text)
}
