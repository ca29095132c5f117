//! An object file.

ghost use Rattle.std.specs.Prelude.{◌≡◌, IfOk, Some};
ghost use Rattle.std.specs.Result.{IsErrOf};
ghost use Rattle.ob_obj.specs.Given.{Reads};
ghost use Rattle.ob_format.specs.Format.{Gives, few};
ghost use Rattle.ob_obj.specs.Grammar.{head, globals, links, record_type, by_type, body, file, file as file_form, is_sound};
ghost use Rattle.ob_obj.specs.Laws.{head_exact, globals_exact, links_exact, body_exact, file_exact};

use crate::checks::{
    are_imports, begins_with_main, count_names, has_bases, has_commands_within,
    has_definitions_within, has_distinct_names, has_entries_within, has_few_words, has_places,
};
use crate::parts::{Command, Export, Link, RecordType, StringConst, Variable};
use ob_format::{Fault, Wire, few_list, put_bytes, read_whole, rising_list, skip, write_whole};
use ob_instr::{Instr, Position, Procedure};
use ob_tree::{List, Name, QName, Text};
use ob_types::Use;
use std::alloc::{AllocError, Global};
use thiserror::Error;

/// Which module the file is of, and what it shows and uses.
pub struct Head {
    pub module: Name,
    /// At most 64, distinct, in the order of the source; `Out` is left out.
    pub imports: List<Name>,
    /// Ascending by name and aspect, of at most 4,096 names.
    pub exports: List<Export>,
    /// Ascending by module, object and aspect.
    pub uses: List<Use>,
}

impl Drop for Head {
    fn drop(self) {
        let Head {
            module: _,
            imports: _,
            exports: _,
            uses: _,
        } = self;
    }
}

/// What of the globals area the module has: together at most 262,144 words.
pub struct Globals {
    /// The words of its variables.
    pub variable_words: u32,
    /// The strings behind the variables, in order.
    pub strings: List<StringConst>,
    /// The exported variables, ascending by name.
    pub variables: List<Variable>,
}

impl Drop for Globals {
    fn drop(self) {
        let Globals {
            variable_words: _,
            strings: _,
            variables: _,
        } = self;
    }
}

/// What of other modules the code names.
pub struct Links {
    pub variables: List<Link>,
    pub procedures: List<Link>,
    pub types: List<QName>,
}

impl Drop for Links {
    fn drop(self) {
        let Links {
            variables: _,
            procedures: _,
            types: _,
        } = self;
    }
}

/// The module's types and code.
pub struct Body {
    /// Its record types, a base before those that extend it. Their names differ.
    pub types: List<RecordType>,
    /// The first is the module's body.
    pub procedures: List<Procedure>,
    /// The exported procedures, ascending by name.
    pub commands: List<Command>,
    pub code: List<Instr>,
    /// One for each instruction that can trap or spend a turn, ascending.
    pub positions: List<Position>,
}

impl Drop for Body {
    fn drop(self) {
        let Body {
            types: _,
            procedures: _,
            commands: _,
            code: _,
            positions: _,
        } = self;
    }
}

/// An object file.
pub struct ObjFile {
    pub head: Head,
    pub globals: Globals,
    pub links: Links,
    pub body: Body,
}

impl Drop for ObjFile {
    fn drop(self) {
        let ObjFile {
            head: _,
            globals: _,
            links: _,
            body: _,
        } = self;
    }
}

/// Why bytes could not be read as an object file.
#[derive(Clone, Copy, Debug, Error)]
pub enum ObjFault {
    /// The bytes are no object file.
    #[error("damaged")]
    Damaged,
    /// Memory was wanting. It says nothing of the bytes.
    #[error("no memory")]
    Memory,
}

const MAGIC: [u8; 5] = *b"OOBJ\x01";

const MOST_TYPES: usize = 1_048_576;

const MOST_PROCEDURES: usize = 4096;

const MOST_CODE: usize = 262_144;

impl Wire for Head {
    ghost form = { head };

    #[tactic(auto, unfolding(crate::specs::Grammar::head, ob_format::specs::Format::such_that_at, ob_format::specs::Format::made_at, ob_format::specs::Format::pair_at))]
    fn read(alloc: Global, bytes: &[u8]) -> Result<(Head, &[u8]), Fault> {
        match Name::read(alloc, bytes) {
            Ok((module, rest)) => {
                let (imports, rest) = few_list::<Name>(alloc, 64, rest)?;
                let (exports, rest) = rising_list::<Export>(alloc, rest)?;
                let (uses, rest) = rising_list::<Use>(alloc, rest)?;
                if !are_imports(imports.as_slice()) || count_names(exports.as_slice()) > 4096 {
                    return Err(Fault::Damaged);
                }
                let found = Head {
                    module,
                    imports,
                    exports,
                    uses,
                };
                Ok((found, rest))
            }
            Err(fault) => Err(fault),
        }
    }

    #[tactic(auto, unfolding(crate::specs::Grammar::head), using(ob_format::specs::Exact::then_adds))]
    fn write(&self, out: &mut Vec<u8>) -> Result<(), AllocError> {
        self.module.write(out)?;
        self.imports.write(out)?;
        self.exports.write(out)?;
        self.uses.write(out)
    }

    ghost exact = { head_exact };
}

impl Wire for Globals {
    ghost form = { globals };

    #[tactic(auto, unfolding(crate::specs::Grammar::globals, ob_format::specs::Format::such_that_at, ob_format::specs::Format::made_at, ob_format::specs::Format::pair_at))]
    fn read(alloc: Global, bytes: &[u8]) -> Result<(Globals, &[u8]), Fault> {
        let (variable_words, rest) = u32::read(alloc, bytes)?;
        let (strings, rest) = List::<StringConst>::read(alloc, rest)?;
        let (variables, rest) = rising_list::<Variable>(alloc, rest)?;
        if !has_few_words(variable_words, strings.as_slice()) {
            return Err(Fault::Damaged);
        }
        let found = Globals {
            variable_words,
            strings,
            variables,
        };
        Ok((found, rest))
    }

    #[tactic(auto, unfolding(crate::specs::Grammar::globals), using(ob_format::specs::Exact::then_adds))]
    fn write(&self, out: &mut Vec<u8>) -> Result<(), AllocError> {
        self.variable_words.write(out)?;
        self.strings.write(out)?;
        self.variables.write(out)
    }

    ghost exact = { globals_exact };
}

impl Wire for Links {
    ghost form = { links };

    #[tactic(auto, unfolding(crate::specs::Grammar::links, ob_format::specs::Format::made_at, ob_format::specs::Format::pair_at))]
    fn read(alloc: Global, bytes: &[u8]) -> Result<(Links, &[u8]), Fault> {
        let (variables, rest) = List::<Link>::read(alloc, bytes)?;
        let (procedures, rest) = List::<Link>::read(alloc, rest)?;
        let (types, rest) = List::<QName>::read(alloc, rest)?;
        let found = Links {
            variables,
            procedures,
            types,
        };
        Ok((found, rest))
    }

    #[tactic(auto, unfolding(crate::specs::Grammar::links), using(ob_format::specs::Exact::then_adds))]
    fn write(&self, out: &mut Vec<u8>) -> Result<(), AllocError> {
        self.variables.write(out)?;
        self.procedures.write(out)?;
        self.types.write(out)
    }

    ghost exact = { links_exact };
}

// The record types at the front, whose names differ.
#[tactic(auto, unfolding(ob_format::specs::Format::such_that_at))]
fn record_types(alloc: Global, bytes: &[u8]) -> Result<(List<RecordType>, &[u8]), Fault>
    ensures { Gives (λ x. (x.0, x.1.now)) result ((few 1048576 record_type by_type).take bytes.now) }
{
    let (types, rest) = List::<RecordType>::read(alloc, bytes)?;
    if types.len() > MOST_TYPES || !has_distinct_names(alloc, types.as_slice())? {
        return Err(Fault::Damaged);
    }
    Ok((types, rest))
}

impl Wire for Body {
    ghost form = { body };

    #[tactic(auto, unfolding(crate::specs::Grammar::body, ob_format::specs::Format::made_at, ob_format::specs::Format::pair_at))]
    fn read(alloc: Global, bytes: &[u8]) -> Result<(Body, &[u8]), Fault> {
        let (types, rest) = record_types(alloc, bytes)?;
        let (procedures, rest) = List::<Procedure>::read(alloc, rest)?;
        let (commands, rest) = rising_list::<Command>(alloc, rest)?;
        let (code, rest) = List::<Instr>::read(alloc, rest)?;
        let (positions, rest) = List::<Position>::read(alloc, rest)?;
        let found = Body {
            types,
            procedures,
            commands,
            code,
            positions,
        };
        Ok((found, rest))
    }

    #[tactic(auto, unfolding(crate::specs::Grammar::body), using(ob_format::specs::Exact::then_adds))]
    fn write(&self, out: &mut Vec<u8>) -> Result<(), AllocError> {
        self.types.write(out)?;
        self.procedures.write(out)?;
        self.commands.write(out)?;
        self.code.write(out)?;
        self.positions.write(out)
    }

    ghost exact = { body_exact };
}

fn is_sound_file(file: &ObjFile) -> bool
    ensures { result ≡ is_sound file.now }
{
    let body = &file.body;
    let procedures = body.procedures.as_slice();
    let code = body.code.as_slice();
    procedures.len() <= MOST_PROCEDURES
        && code.len() <= MOST_CODE
        && has_bases(body.types.as_slice(), file.links.types.len())
        && has_definitions_within(body.types.as_slice(), procedures.len())
        && begins_with_main(procedures)
        && has_entries_within(procedures, code.len())
        && has_commands_within(body.commands.as_slice(), procedures.len())
        && has_places(code, body.positions.as_slice())
}

impl Wire for ObjFile {
    ghost form = { file };

    #[tactic(auto, unfolding(crate::specs::Grammar::file, ob_format::specs::Format::such_that_at, ob_format::specs::Format::lead_at, ob_format::specs::Format::made_at, ob_format::specs::Format::pair_at))]
    fn read(alloc: Global, bytes: &[u8]) -> Result<(ObjFile, &[u8]), Fault> {
        let rest = skip(&MAGIC, bytes)?;
        match Head::read(alloc, rest) {
            Ok((head, rest)) => {
                let (globals, rest) = Globals::read(alloc, rest)?;
                let (links, rest) = Links::read(alloc, rest)?;
                let (body, rest) = Body::read(alloc, rest)?;
                let file = ObjFile {
                    head,
                    globals,
                    links,
                    body,
                };
                if !is_sound_file(&file) {
                    return Err(Fault::Damaged);
                }
                Ok((file, rest))
            }
            Err(fault) => Err(fault),
        }
    }

    #[tactic(auto, unfolding(crate::specs::Grammar::file), using(ob_format::specs::Exact::then_adds))]
    fn write(&self, out: &mut Vec<u8>) -> Result<(), AllocError> {
        put_bytes(out, &MAGIC)?;
        self.head.write(out)?;
        self.globals.write(out)?;
        self.links.write(out)?;
        self.body.write(out)
    }

    ghost exact = { file_exact };
}

/// The object file that the bytes spell, all of the bytes. `Damaged` exactly where they spell none,
/// `Memory` only where memory is wanting.
pub fn read_obj(alloc: Global, bytes: &[u8]) -> Result<ObjFile, ObjFault>
    // What is read is spelled so.
    ensures found { IfOk result (λ f. file.fits f × (bytes.now ≡ file.spell f)) }
    // What is spelled so is read, unless memory runs out.
    ensures again { (f : ObjFile) → file.fits f → bytes.now ≡ file.spell f → Reads result f }
    ensures damaged { IsErrOf result ObjFault.Damaged → (f : ObjFile) → file.fits f → bytes.now ≡ file.spell f → ⊥ }
{
    match read_whole::<ObjFile>(alloc, bytes) {
        Ok(file) => Ok(file),
        Err(Fault::Damaged) => Err(ObjFault::Damaged),
        Err(Fault::Memory) => Err(ObjFault::Memory),
    }
}

/// The one spelling of an object file that has one.
pub fn write_obj(alloc: Global, file: &ObjFile) -> Result<Text, AllocError>
    requires { file_form.fits file.now }
    ensures { IfOk result (λ text. text ≡ file_form.spell file.now) }
{
    write_whole(alloc, file)
}
