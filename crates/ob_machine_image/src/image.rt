//! The modules in the machine.

ghost use Rattle.std.specs.Prelude.{◌≡◌, ◌+◌, ◌≤◌, ◌<◌, ◌^◌, ◌++◌, [], length, take, slice_get, OnOk, OnErr, IfOk};
ghost use Rattle.std.specs.Option.{option_copied};
ghost use Rattle.ob_obj.specs.Images.{module_of, type_links, entered, image_of, words_with, numbers, IsEnterable, AreEnterable};
ghost use Rattle.ob_machine_image.specs.Room.{room};
ghost use Rattle.ob_machine_image.specs.Cut.{first_of, cut_to};
ghost use Rattle.ob_machine_image.specs.Whole.{IsImage};

use crate::globals::{count_globals, put_files};
use crate::links::module_number;
use crate::loaded::Module;
use crate::places::{
    command_numbers, copy_procedures, procedure_links, string_places, variable_links,
    variable_places,
};
use crate::types::Types;
use ob_machine_fusion::Code;
use ob_mem::Memory;
use ob_obj::{ObjFile, RecordType};
use ob_tree::List;
use std::alloc::{AllocError, Global};
use std::marker::Model;

/// The modules in the machine, by their numbers from 0 on, and the descriptors of their types. There
/// are at most 255 modules, and 262,144 words of globals.
#[derive(Drop)]
pub struct Image {
    alloc: Global,
    modules: Vec<Module>,
    types: Types,
    next: u32,
}

impl Model for Image {
    ghost use Rattle.ob_instr.specs.Image.{Image as Modules};
    ghost use Rattle.ob_machine_image.specs.Room.{room};
    ghost use Rattle.ob_machine_image.specs.Whole.{IsImage};

    ghost Value = { Modules };

    ghost view = { λ i. record { modules = i.modules.items; types = i.types; next = i.next; room = room } };

    ghost invariant = { λ i. IsImage (record { modules = i.modules.items; types = i.types; next = i.next; room = room }) };
}

impl Image {
    /// No modules. Takes no memory.
    pub fn new(alloc: Global) -> Image
        ensures { result ≡ record { modules = []; types = []; next = 1; room = room } }
    {
        Image {
            alloc,
            modules: Vec::new(alloc),
            types: Types::new(alloc),
            next: 1,
        }
    }

    /// How many modules there are.
    pub fn count(&self) -> u32
        ensures count { result ≡ length self.now.modules }
        ensures most { result ≤ 255 }
        ensures room { self.now.room ≡ room }
    {
        self.modules.len() as u32
    }

    /// The module of a number.
    pub fn module(&self, number: u32) -> Option<&Module>
        ensures { option_copied result ≡ slice_get self.now.modules number }
    {
        self.modules.get(number as usize)
    }

    /// The descriptors of the types.
    pub fn types(&self) -> &Types
        ensures types { result.now ≡ self.now.types }
        ensures few { length self.now.types < 2 ^ 31 }
    {
        &self.types
    }

    // A file as a module, whose type links stand for these numbers.
    fn module_of(&self, file: &ObjFile, links: &[u32]) -> Result<Module, AllocError>
        requires can { IsEnterable self.now file.now }
        requires links { links.now ≡ type_links self.now file.now }
        ensures { IfOk result (λ u. u ≡ module_of self.now file.now) }
    {
        let alloc = self.alloc;
        let globals = &file.globals;
        let body = &file.body;
        let first = self.next;
        let code = Code::new(alloc, body.code.as_slice())?;
        let positions = List::from_slice(alloc, body.positions.as_slice())?;
        let procedures = copy_procedures(alloc, body.procedures.as_slice())?;
        let variables = variable_places(alloc, first, globals.variables.as_slice())?;
        let commands = command_numbers(alloc, body.commands.as_slice())?;
        let strings = string_places(
            alloc,
            first + globals.variable_words,
            globals.strings.as_slice(),
        )?;
        let variable_links = variable_links(alloc, &self.modules, file.links.variables.as_slice())?;
        let procedure_links = procedure_links(
            alloc,
            &self.modules,
            file.links.procedures.as_slice(),
        )?;
        let types = type_numbers(alloc, self.types.count(), body.types.as_slice(), links)?;
        Ok(Module {
            name: file.head.module,
            code,
            positions,
            procedures,
            first,
            variables,
            commands,
            strings,
            variable_links,
            procedure_links,
            types,
        })
    }

    // Enters one file, all but its words.
    fn enter_file(&mut self, file: &ObjFile) -> Result<(), AllocError>
        requires { IsEnterable self.old file.now }
        ensures ok { OnOk result (self.new ≡ entered self.old file.now) }
        ensures err { OnErr result (self.new ≡ self.old) }
    {
        let number = self.modules.len() as u32;
        let links = self.types.links(self.alloc, file.links.types.as_slice())?;
        let unit = self.module_of(file, links.as_slice())?;
        self.modules.reserve(1)?;
        self.types.add_all(
            self.alloc,
            file.head.module,
            number,
            links.as_slice(),
            file.body.types.as_slice(),
        )?;
        let _ = self.modules.push(unit);
        self.next += count_globals(file);
        Ok(())
    }

    // Takes out what was entered last, down to so many modules and types.
    fn go_back(&mut self, modules: usize, types: u32, next: u32)
        requires types { types ≤ length self.old.types }
        requires image { IsImage (record self.old { modules = take modules self.old.modules; types = take types self.old.types; next = next }) }
        ensures { self.new ≡ record self.old { modules = take modules self.old.modules; types = take types self.old.types; next = next } }
    {
        self.modules.truncate(modules);
        self.types.cut(types);
        self.next = next;
    }

    // Enters files, all but their words.
    fn enter_files(&mut self, files: &[ObjFile]) -> Result<(), AllocError>
        requires { AreEnterable self.old files.now }
        ensures ok { OnOk result (self.new ≡ image_of self.old files.now) }
        ensures err { OnErr result (self.new ≡ self.old) }
    {
        let modules = self.modules.len();
        let types = self.types.count();
        let next = self.next;
        let mut rest = files;
        while let [file, more @ ..] = rest {
            match self.enter_file(file) {
                Ok(()) => rest = more,
                Err(fault) => {
                    self.go_back(modules, types, next);
                    return Err(fault);
                }
            }
        }
        Ok(())
    }

    /// Enters files behind the modules that are there, in order, and puts their globals into the words.
    /// An `Err` is a want of memory; then nothing is changed.
    pub fn enter(&mut self, words: &mut Memory, files: &[ObjFile]) -> Result<(), AllocError>
        requires { AreEnterable self.old files.now }
        ensures image { OnOk result (self.new ≡ image_of self.old files.now) }
        ensures words { OnOk result (words.new ≡ record words.old { words = words_with self.old files.now words.old.words }) }
        ensures same { OnErr result (self.new ≡ self.old) }
        ensures same_words { OnErr result (words.new ≡ words.old) }
    {
        let next = self.next;
        self.enter_files(files)?;
        put_files(words, next, files);
        Ok(())
    }

    // The first word of a module, or the next free one where there is no such module.
    fn first_of(&self, module: u32) -> u32
        ensures first { result ≡ first_of (slice_get self.now.modules «module») self.now.next }
        ensures some { 0 < result }
        ensures within { result ≤ 262145 }
    {
        match self.modules.get(module as usize) {
            Some(unit) => unit.first,
            None => self.next,
        }
    }

    /// Keeps the image of the first modules, so many. Takes no memory.
    pub fn cut(&mut self, modules: u32)
        requires { modules ≤ length self.old.modules }
        ensures { self.new ≡ cut_to modules self.old }
    {
        let next = self.first_of(modules);
        self.modules.truncate(modules as usize);
        let types = self.types.count_of(&self.modules);
        self.types.cut(types);
        self.next = next;
    }
}

// So many numbers from one on as there are own types, and these behind them.
fn type_numbers(
    alloc: Global,
    first: u32,
    own: &[RecordType],
    links: &[u32],
) -> Result<List<u32>, AllocError>
    requires { first + length own.now < 2 ^ 32 }
    ensures { IfOk result (λ l. l ≡ numbers first (length own.now) ++ links.now) }
{
    let mut list = List::new(alloc);
    let mut next = first;
    let mut rest = own;
    while let [_, more @ ..] = rest {
        list.push(next)?;
        next += 1;
        rest = more;
    }
    let others = List::from_slice(alloc, links)?;
    list.append(others)?;
    Ok(list)
}
