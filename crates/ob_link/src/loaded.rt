//! The modules that are loaded.

ghost use Rattle.std.specs.Prelude.{◌≡◌, ◌≤◌, ◌<◌, ◌-◌, ◌+◌, ◌++◌, ◌∷◌, [], map, length, take, slice_get, IfSome, OnOk, OnErr};
ghost use Rattle.std.specs.List.{AllByRecursion};
ghost use Rattle.std.specs.Option.{option_copied};
ghost use Rattle.ob_obj.specs.Grammar.{file as file_form};
ghost use Rattle.ob_link.specs.Index.{place_from};
ghost use Rattle.ob_link.specs.Members.{member_of, member_named, AddsAll};

use crate::member::Member;
use crate::names::Names;
use ob_obj::ObjFile;
use ob_tree::{List, Name};
use std::alloc::{AllocError, Global};
use std::marker::Model;

/// The modules that are loaded, in order, each found by its name.
#[derive(Drop)]
pub struct Loaded {
    alloc: Global,
    members: Vec<Member>,
    names: Names,
}

impl Model for Loaded {
    ghost use Rattle.std.specs.Prelude.{List, map, length, ◌≡◌, ◌≤◌};
    ghost use Rattle.ob_link.specs.Members.{Known};

    ghost Value = { List Known };

    ghost view = { λ l. l.members.items };

    ghost invariant = { λ l. (l.names ≡ map (λ m. m.name) l.members.items) × (length l.members.items ≤ 255) };
}

fn member_at(members: &[Member], place: usize) -> Option<&Member>
    ensures { option_copied result ≡ slice_get members.now place }
{
    members.get(place)
}

impl Loaded {
    /// No module is loaded. Takes no memory.
    pub fn new(alloc: Global) -> Loaded
        ensures { result ≡ [] }
    {
        Loaded {
            alloc,
            members: Vec::new(alloc),
            names: Names::new(alloc),
        }
    }

    /// How many are loaded: at most 255. Takes no memory.
    pub fn count(&self) -> u32
        ensures count { result ≡ length self.now }
        ensures most { result ≤ 255 }
    {
        self.members.len() as u32
    }

    /// The modules, in order.
    pub fn members(&self) -> &[Member]
        ensures members { result.now ≡ self.now }
        ensures few { length result.now ≤ 255 }
    {
        &self.members
    }

    /// The number of the module of a name. Takes no memory.
    pub fn place(&self, name: &Name) -> Option<u32>
        ensures place { result ≡ place_from 0 (map (λ m. m.name) self.now) name.now }
        ensures few { IfSome result (λ n. n < 255) }
    {
        let place = self.names.place(name.as_bytes())?;
        Some(place as u32)
    }

    /// The module of a name. Takes no memory.
    pub fn find(&self, name: &Name) -> Option<&Member>
        ensures { option_copied result ≡ member_named name.now self.now }
    {
        let place = self.names.place(name.as_bytes())?;
        member_at(&self.members, place)
    }

    /// Adds the module of a file at the end. An `Err` is a want of memory, and leaves the list as it was.
    pub fn push(&mut self, file: &ObjFile) -> Result<(), AllocError>
        requires fits { file_form.fits file.now }
        requires few { length self.old < 255 }
        ensures ok { OnOk result (self.new ≡ self.old ++ member_of file.now ∷ []) }
        ensures err { OnErr result (self.new ≡ self.old) }
    {
        let member = Member::of(self.alloc, file)?;
        self.members.reserve(1)?;
        self.names.push(file.head.module.as_bytes())?;
        let _ = self.members.push(member);
        Ok(())
    }

    // Takes out the last module.
    fn cut_last(&mut self)
        requires { 0 < length self.old }
        ensures { self.new ≡ take (length self.old - 1) self.old }
    {
        let last = self.members.len() - 1;
        self.names.cut_last();
        self.members.truncate(last);
    }

    /// Keeps the first ones, of which there are at least so many. Takes no memory.
    pub fn cut(&mut self, modules: u32)
        requires { modules ≤ length self.old }
        ensures { self.new ≡ take modules self.old }
    {
        let mut count = self.members.len();
        while count > modules as usize {
            self.cut_last();
            count -= 1;
        }
    }

    /// Adds modules at the end. An `Err` is a want of memory, and leaves the list as it was.
    pub fn add(&mut self, files: &List<ObjFile>) -> Result<(), AllocError>
        requires fits { AllByRecursion (λ f. file_form.fits f) files.now }
        requires few { length self.old + length files.now ≤ 255 }
        ensures { AddsAll self.old self.new files.now result }
    {
        let count = self.members.len() as u32;
        let mut rest = files.as_slice();
        while let [file, more @ ..] = rest {
            match self.push(file) {
                Ok(()) => rest = more,
                Err(fault) => {
                    self.cut(count);
                    return Err(fault);
                }
            }
        }
        Ok(())
    }
}
