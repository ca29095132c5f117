//! The rows of an object file.

ghost use Rattle.std.specs.Prelude.{◌≡◌, nat_lt};
ghost use Rattle.std.specs.List.{list_all};
ghost use Rattle.ob_obj.specs.Grammar.{export, by_export, string, variable, by_variable, link, base_at, base_form, definition, by_number, is_record, record_parts, record_type, by_type, command, by_command};
ghost use Rattle.ob_format.specs.Format.{Gives};
ghost use Rattle.ob_types.specs.Spelled.{aspect_number as aspect_number_of};
ghost use Rattle.ob_obj.specs.Laws.{export_exact, string_exact, variable_exact, link_exact, base_exact, definition_exact, record_type_exact, command_exact};

use ob_format::{Fault, Ranked, Wire, put_bytes, read_text, rising_list, write_text};
use ob_instr::MOST_WORDS;
use ob_tree::{List, Name, ObjName, Print, Text};
use ob_types::{Aspect, read_print, write_print};
use std::alloc::{AllocError, Global};
use std::cmp::Ordering;

/// What of an exported object others may rely on, with its print.
#[derive(Drop)]
pub struct Export {
    pub name: ObjName,
    pub aspect: Aspect,
    pub print: Print,
}

/// A string constant that the code uses as an array.
#[derive(Drop)]
pub struct StringConst {
    /// Its characters, without the 0X behind them.
    pub text: Text,
    /// How many words it has: at least one more than characters.
    pub words: u32,
}

/// An exported variable.
#[derive(Drop)]
pub struct Variable {
    pub name: Name,
    /// Its first word, counted from the module's first.
    pub place: u32,
}

/// A variable or a procedure of another module.
#[derive(Drop)]
pub struct Link {
    pub module: Name,
    pub name: Name,
}

/// The base of a record type.
#[derive(Clone, Copy, PartialEq, Eq)]
pub enum Base {
    None,
    /// A type of the same file, by its index.
    Own(u32),
    /// A type of another module, by the index of its link.
    Link(u32),
}

/// A bound procedure that a type defines.
#[derive(Clone, Copy, PartialEq, Eq)]
pub struct Definition {
    /// Its number among the type's bound procedures.
    pub number: u32,
    /// The index of the procedure.
    pub procedure: u32,
}

/// A record type of the module.
#[derive(Drop)]
pub struct RecordType {
    pub name: ObjName,
    pub base: Base,
    /// Its words, those of its base among them.
    pub words: u32,
    /// The number of its bound procedures, those of its base among them.
    pub count: u32,
    /// The bound procedures that it defines, ascending by number.
    pub definitions: List<Definition>,
}

/// An exported procedure.
#[derive(Drop)]
pub struct Command {
    pub name: Name,
    /// Its index among the procedures.
    pub procedure: u32,
}

impl Wire for Export {
    ghost form = { export };

    #[tactic(auto, unfolding(crate::specs::Grammar::export, ob_format::specs::Format::made_at, ob_format::specs::Format::pair_at))]
    fn read(alloc: Global, bytes: &[u8]) -> Result<(Export, &[u8]), Fault> {
        let (name, rest) = ObjName::read(alloc, bytes)?;
        let (aspect, rest) = Aspect::read(alloc, rest)?;
        let (print, rest) = read_print(rest)?;
        let found = Export {
            name,
            aspect,
            print,
        };
        Ok((found, rest))
    }

    #[tactic(auto, unfolding(crate::specs::Grammar::export), using(ob_format::specs::Exact::then_adds))]
    fn write(&self, out: &mut Vec<u8>) -> Result<(), AllocError> {
        self.name.write(out)?;
        self.aspect.write(out)?;
        write_print(&self.print, out)
    }

    ghost exact = { export_exact };
}

fn aspect_number(aspect: Aspect) -> u8
    ensures { result ≡ aspect_number_of aspect }
{
    match aspect {
        Aspect::Shape => 0,
        Aspect::Layout => 1,
    }
}

impl Ranked for Export {
    ghost rank = { by_export };

    fn compare(&self, other: &Export) -> Ordering {
        let name = self.name.compare(&other.name);
        if name != Ordering::Equal {
            return name;
        }
        aspect_number(self.aspect).cmp(&aspect_number(other.aspect))
    }
}

impl Wire for StringConst {
    ghost form = { string };

    #[tactic(auto, unfolding(crate::specs::Grammar::string, ob_format::specs::Format::such_that_at, ob_format::specs::Format::made_at, ob_format::specs::Format::pair_at))]
    fn read(alloc: Global, bytes: &[u8]) -> Result<(StringConst, &[u8]), Fault> {
        let (text, rest) = read_text(alloc, bytes)?;
        let (words, rest) = u32::read(alloc, rest)?;
        if text.len() >= words as usize {
            return Err(Fault::Damaged);
        }
        Ok((StringConst { text, words }, rest))
    }

    #[tactic(auto, unfolding(crate::specs::Grammar::string, ob_format::specs::Format::text32), using(ob_format::specs::Exact::then_adds))]
    fn write(&self, out: &mut Vec<u8>) -> Result<(), AllocError> {
        write_text(self.text.as_slice(), out)?;
        self.words.write(out)
    }

    ghost exact = { string_exact };
}

impl Wire for Variable {
    ghost form = { variable };

    #[tactic(auto, unfolding(crate::specs::Grammar::variable, ob_format::specs::Format::made_at, ob_format::specs::Format::pair_at))]
    fn read(alloc: Global, bytes: &[u8]) -> Result<(Variable, &[u8]), Fault> {
        match Name::read(alloc, bytes) {
            Ok((name, rest)) => {
                let (place, rest) = u32::read(alloc, rest)?;
                Ok((Variable { name, place }, rest))
            }
            Err(fault) => Err(fault),
        }
    }

    #[tactic(auto, unfolding(crate::specs::Grammar::variable), using(ob_format::specs::Exact::then_adds))]
    fn write(&self, out: &mut Vec<u8>) -> Result<(), AllocError> {
        self.name.write(out)?;
        self.place.write(out)
    }

    ghost exact = { variable_exact };
}

impl Ranked for Variable {
    ghost rank = { by_variable };

    fn compare(&self, other: &Variable) -> Ordering {
        self.name.as_bytes().cmp(other.name.as_bytes())
    }
}

impl Wire for Link {
    ghost form = { link };

    #[tactic(auto, unfolding(crate::specs::Grammar::link, ob_format::specs::Format::made_at, ob_format::specs::Format::pair_at))]
    fn read(alloc: Global, bytes: &[u8]) -> Result<(Link, &[u8]), Fault> {
        match Name::read(alloc, bytes) {
            Ok((module, rest)) => match Name::read(alloc, rest) {
                Ok((name, rest)) => Ok((Link { module, name }, rest)),
                Err(fault) => Err(fault),
            },
            Err(fault) => Err(fault),
        }
    }

    #[tactic(auto, unfolding(crate::specs::Grammar::link), using(ob_format::specs::Exact::then_adds))]
    fn write(&self, out: &mut Vec<u8>) -> Result<(), AllocError> {
        self.module.write(out)?;
        self.name.write(out)
    }

    ghost exact = { link_exact };
}

impl Wire for Base {
    ghost form = { base_form };

    #[tactic(auto, unfolding(crate::specs::Grammar::base_form, crate::specs::Grammar::base_at))]
    fn read(alloc: Global, bytes: &[u8]) -> Result<(Base, &[u8]), Fault> {
        match bytes {
            [0, rest @ ..] => Ok((Base::None, rest)),
            [1, rest @ ..] => {
                let (index, rest) = u32::read(alloc, rest)?;
                Ok((Base::Own(index), rest))
            }
            [2, rest @ ..] => {
                let (index, rest) = u32::read(alloc, rest)?;
                Ok((Base::Link(index), rest))
            }
            _ => Err(Fault::Damaged),
        }
    }

    #[tactic(auto, unfolding(crate::specs::Grammar::base_form), using(ob_format::specs::Exact::then_adds))]
    fn write(&self, out: &mut Vec<u8>) -> Result<(), AllocError> {
        match self {
            Base::None => put_bytes(out, &[0]),
            Base::Own(index) => {
                put_bytes(out, &[1])?;
                index.write(out)
            }
            Base::Link(index) => {
                put_bytes(out, &[2])?;
                index.write(out)
            }
        }
    }

    ghost exact = { base_exact };
}

impl Wire for Definition {
    ghost form = { definition };

    #[tactic(auto, unfolding(crate::specs::Grammar::definition, ob_format::specs::Format::made_at, ob_format::specs::Format::pair_at))]
    fn read(alloc: Global, bytes: &[u8]) -> Result<(Definition, &[u8]), Fault> {
        let (number, rest) = u32::read(alloc, bytes)?;
        let (procedure, rest) = u32::read(alloc, rest)?;
        Ok((Definition { number, procedure }, rest))
    }

    #[tactic(auto, unfolding(crate::specs::Grammar::definition), using(ob_format::specs::Exact::then_adds))]
    fn write(&self, out: &mut Vec<u8>) -> Result<(), AllocError> {
        self.number.write(out)?;
        self.procedure.write(out)
    }

    ghost exact = { definition_exact };
}

impl Ranked for Definition {
    ghost rank = { by_number };

    fn compare(&self, other: &Definition) -> Ordering {
        self.number.cmp(&other.number)
    }
}

fn has_numbers_below(definitions: &[Definition], limit: u32) -> bool
    ensures { result ≡ list_all (λ d. nat_lt d.number limit) definitions.now }
{
    let mut rest = definitions;
    while let [definition, more @ ..] = rest {
        if definition.number >= limit {
            return false;
        }
        rest = more;
    }
    true
}

fn keeps_limits(entry: &RecordType) -> bool
    ensures { result ≡ is_record entry.now }
{
    entry.words <= MOST_WORDS
        && entry.count <= MOST_WORDS
        && has_numbers_below(entry.definitions.as_slice(), entry.count)
}

#[tactic(auto, unfolding(crate::specs::Grammar::record_parts, ob_format::specs::Format::made_at, ob_format::specs::Format::pair_at))]
fn read_parts(alloc: Global, bytes: &[u8]) -> Result<(RecordType, &[u8]), Fault>
    ensures { Gives (λ x. (x.0, x.1.now)) result (record_parts.take bytes.now) }
{
    let (name, rest) = ObjName::read(alloc, bytes)?;
    let (base, rest) = Base::read(alloc, rest)?;
    let (words, rest) = u32::read(alloc, rest)?;
    let (count, rest) = u32::read(alloc, rest)?;
    let (definitions, rest) = rising_list::<Definition>(alloc, rest)?;
    let found = RecordType {
        name,
        base,
        words,
        count,
        definitions,
    };
    Ok((found, rest))
}

impl Wire for RecordType {
    ghost form = { record_type };

    #[tactic(auto, unfolding(crate::specs::Grammar::record_type, ob_format::specs::Format::such_that_at))]
    fn read(alloc: Global, bytes: &[u8]) -> Result<(RecordType, &[u8]), Fault> {
        let (found, rest) = read_parts(alloc, bytes)?;
        if !keeps_limits(&found) {
            return Err(Fault::Damaged);
        }
        Ok((found, rest))
    }

    #[tactic(auto, unfolding(crate::specs::Grammar::record_type, crate::specs::Grammar::record_parts), using(ob_format::specs::Exact::then_adds))]
    fn write(&self, out: &mut Vec<u8>) -> Result<(), AllocError> {
        self.name.write(out)?;
        self.base.write(out)?;
        self.words.write(out)?;
        self.count.write(out)?;
        self.definitions.write(out)
    }

    ghost exact = { record_type_exact };
}

impl Ranked for RecordType {
    ghost rank = { by_type };

    fn compare(&self, other: &RecordType) -> Ordering {
        self.name.compare(&other.name)
    }
}

impl Wire for Command {
    ghost form = { command };

    #[tactic(auto, unfolding(crate::specs::Grammar::command, ob_format::specs::Format::made_at, ob_format::specs::Format::pair_at))]
    fn read(alloc: Global, bytes: &[u8]) -> Result<(Command, &[u8]), Fault> {
        match Name::read(alloc, bytes) {
            Ok((name, rest)) => {
                let (procedure, rest) = u32::read(alloc, rest)?;
                Ok((Command { name, procedure }, rest))
            }
            Err(fault) => Err(fault),
        }
    }

    #[tactic(auto, unfolding(crate::specs::Grammar::command), using(ob_format::specs::Exact::then_adds))]
    fn write(&self, out: &mut Vec<u8>) -> Result<(), AllocError> {
        self.name.write(out)?;
        self.procedure.write(out)
    }

    ghost exact = { command_exact };
}

impl Ranked for Command {
    ghost rank = { by_command };

    fn compare(&self, other: &Command) -> Ordering {
        self.name.as_bytes().cmp(other.name.as_bytes())
    }
}
