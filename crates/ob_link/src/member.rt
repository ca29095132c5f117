//! A module that is loaded or planned, as others are linked to it.

ghost use Rattle.std.specs.Prelude.{◌≡◌, ◌+◌, ◌<◌, ◌≤◌, ◌^◌, map, slice_get, length, IfOk};
ghost use Rattle.std.specs.Option.{option_copied, option_map};
ghost use Rattle.ob_obj.specs.Grammar.{file as file_form, words_of};
ghost use Rattle.ob_obj.specs.Images.{global_words as words_of_file};
ghost use Rattle.ob_link.specs.Files.{is_plain as is_plain_of, exported as exported_of, has_variable as has_variable_of};
ghost use Rattle.ob_link.specs.Index.{place_from};
ghost use Rattle.ob_link.specs.Members.{exported as exported_as, member_of, procedure_named};

use crate::exported::Exported;
use crate::finding::{exported, has_variable, procedure};
use crate::names::Names;
use ob_instr::Procedure;
use ob_obj::{Command, Export, ObjFile, RecordType, StringConst, Variable};
use ob_tree::{List, Name, ObjName, Print};
use ob_types::Aspect;
use std::alloc::{AllocError, Global};
use std::marker::Model;

/// What a load needs to know of a module that is loaded or planned: its exports, variables, procedures and types
/// by their names.
#[derive(Drop)]
pub struct Member {
    name: Name,
    exports: List<Export>,
    variables: List<Variable>,
    procedures: List<Exported>,
    types: Names,
    words: u32,
}

impl Model for Member {
    ghost use Rattle.ob_link.specs.Members.{Known, IsMember};

    ghost Value = { Known };

    ghost view = { λ m. record { name = m.name; exports = m.exports; variables = m.variables; procedures = m.procedures; types = m.types; words = m.words } };

    ghost invariant = { λ m. IsMember (record { name = m.name; exports = m.exports; variables = m.variables; procedures = m.procedures; types = m.types; words = m.words }) };
}

fn copy_exports(alloc: Global, exports: &[Export]) -> Result<List<Export>, AllocError>
    ensures { IfOk result (λ l. l ≡ exports.now) }
{
    let mut copies = List::new(alloc);
    let mut rest = exports;
    while let [export, more @ ..] = rest {
        let name = export.name.clone()?;
        copies.push(Export {
            name,
            aspect: export.aspect,
            print: export.print,
        })?;
        rest = more;
    }
    Ok(copies)
}

fn copy_variables(alloc: Global, variables: &[Variable]) -> Result<List<Variable>, AllocError>
    ensures { IfOk result (λ l. l ≡ variables.now) }
{
    let mut copies = List::new(alloc);
    let mut rest = variables;
    while let [variable, more @ ..] = rest {
        copies.push(Variable {
            name: variable.name,
            place: variable.place,
        })?;
        rest = more;
    }
    Ok(copies)
}

// Whether there is a procedure of the number, and it has neither parameters nor result.
fn is_plain(procedures: &[Procedure], number: u32) -> bool
    ensures { result ≡ is_plain_of (slice_get procedures.now number) }
{
    match procedures.get(number as usize) {
        Some(procedure) => procedure.params.len() == 0 && !procedure.has_result,
        None => false,
    }
}

fn exported_procedures(
    alloc: Global,
    procedures: &[Procedure],
    commands: &[Command],
) -> Result<List<Exported>, AllocError>
    ensures { IfOk result (λ l. l ≡ map (exported_as procedures.now) commands.now) }
{
    let mut list = List::new(alloc);
    let mut rest = commands;
    while let [command, more @ ..] = rest {
        list.push(Exported {
            name: command.name,
            procedure: command.procedure,
            is_command: is_plain(procedures, command.procedure),
        })?;
        rest = more;
    }
    Ok(list)
}

fn type_names(alloc: Global, types: &[RecordType]) -> Result<Names, AllocError>
    ensures { IfOk result (λ l. l ≡ map (λ t. t.name) types.now) }
{
    let mut names = Names::new(alloc);
    let mut rest = types;
    while let [record, more @ ..] = rest {
        names.push(record.name.as_bytes())?;
        rest = more;
    }
    Ok(names)
}

fn string_words(strings: &[StringConst]) -> u32
    requires { words_of strings.now < 2 ^ 32 }
    ensures { result ≡ words_of strings.now }
{
    let mut words = 0;
    let mut rest = strings;
    while let [string, more @ ..] = rest {
        words += string.words;
        rest = more;
    }
    words
}

// The words of a file's globals.
fn global_words(file: &ObjFile) -> u32
    requires { file_form.fits file.now }
    ensures { result ≡ words_of_file file.now }
{
    file.globals.variable_words + string_words(file.globals.strings.as_slice())
}

impl Member {
    /// What is known of the module of a file.
    pub fn of(alloc: Global, file: &ObjFile) -> Result<Member, AllocError>
        requires { file_form.fits file.now }
        ensures { IfOk result (λ m. m ≡ member_of file.now) }
    {
        let exports = copy_exports(alloc, file.head.exports.as_slice())?;
        let variables = copy_variables(alloc, file.globals.variables.as_slice())?;
        let procedures = exported_procedures(
            alloc,
            file.body.procedures.as_slice(),
            file.body.commands.as_slice(),
        )?;
        let types = type_names(alloc, file.body.types.as_slice())?;
        Ok(Member {
            name: file.head.module,
            exports,
            variables,
            procedures,
            types,
            words: global_words(file),
        })
    }

    /// Its name.
    pub fn name(&self) -> Name
        ensures { result ≡ self.now.name }
    {
        self.name
    }

    /// The words of its globals.
    pub fn words(&self) -> u32
        ensures words { result ≡ self.now.words }
        ensures few { result ≤ 262144 }
    {
        self.words
    }

    /// The print that it exports under a name, with an aspect, and its place among the exports; found at once where it
    /// stands at the place `near`. Takes no memory.
    pub fn print_of(&self, near: usize, name: &ObjName, aspect: Aspect) -> Option<(Print, usize)>
        ensures { option_map (λ f. f.0) result ≡ exported_of name.now aspect self.now.exports }
    {
        exported(self.exports.as_slice(), near, name, aspect)
    }

    /// Whether it exports a variable of the name. Takes no memory.
    pub fn has_variable(&self, name: &Name) -> bool
        ensures { result ≡ has_variable_of name.now self.now.variables }
    {
        has_variable(self.variables.as_slice(), name)
    }

    /// The procedure that it exports under a name. Takes no memory.
    pub fn procedure(&self, name: &Name) -> Option<&Exported>
        ensures { option_copied result ≡ procedure_named name.now self.now.procedures }
    {
        procedure(self.procedures.as_slice(), name)
    }

    /// The place of its record type of a name. Takes no memory.
    pub fn type_place(&self, name: &ObjName) -> Option<usize>
        ensures { result ≡ place_from 0 self.now.types name.now }
    {
        self.types.place(name.as_bytes())
    }
}
