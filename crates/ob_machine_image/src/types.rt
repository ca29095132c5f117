//! The record types of all modules in the machine, by number.

ghost use Rattle.std.specs.Prelude.{◌≡◌, ◌+◌, ◌-◌, ◌≤◌, ◌<◌, ◌^◌, ◌∷◌, ◌++◌, [], length, map, take, IfOk, IfSome, OnOk, OnErr};
ghost use Rattle.std.specs.List.Sorted.{IsStrictlySortedBy};
ghost use Rattle.ob_tdesc.specs.Tables.{by_number as by_method, declared};
ghost use Rattle.ob_obj.specs.Grammar.{by_number};
ghost use Rattle.ob_obj.specs.Images.{linked_type, or_zero, with_types, base_number, descriptor_of};
ghost use Rattle.ob_machine_image.specs.Declaring.{DefinitionsRise};
ghost use Rattle.ob_machine_image.specs.Names.{names_in};
ghost use Rattle.ob_machine_image.specs.Cut.{types_of};
ghost use Rattle.ob_machine_image.specs.Standing.{BasesStand};
ghost use Rattle.ob_machine_image.specs.Whole.{BasesBefore};

use crate::describing::declaration;
use crate::index::TypeIndex;
use crate::links::has_module;
use crate::loaded::Module;
use ob_obj::RecordType;
use ob_tdesc::{Declaration, Descriptors};
use ob_tree::{CompactName, List, Name, QName};
use std::alloc::{AllocError, Global};
use std::marker::Model;

/// The descriptors of the record types of all modules in the machine, by number.
#[derive(Drop)]
pub struct Types {
    table: Descriptors,
    names: Vec<QName>,
    index: TypeIndex,
}

impl Model for Types {
    ghost use Rattle.std.specs.Prelude.{List, ◌≡◌, ◌<◌, ◌^◌, map, length};
    ghost use Rattle.ob_tdesc.specs.declared.descriptor.Descriptor.{Descriptor as Described};
    ghost use Rattle.ob_machine_image.specs.Names.{name_of};
    ghost use Rattle.ob_machine_image.specs.Index.{IsIndexed};
    ghost use Rattle.ob_machine_image.specs.Whole.{BasesBefore};

    ghost Value = { List Described };

    ghost view = { λ t. t.table.list };

    ghost invariant = { λ t. (t.names.items ≡ map name_of t.table.list) × (length t.table.list < 2 ^ 32) × BasesBefore t.table.list × IsIndexed t.index.modules t.table.list };
}

// How many names, from the first on, are of types of these modules.
fn count_names(names: &[QName], modules: &[Module]) -> u32
    requires { length names.now < 2 ^ 32 }
    ensures { result ≡ names_in modules.now names.now }
{
    let mut count = 0;
    let mut rest = names;
    while let [name, more @ ..] = rest {
        if !has_module(modules, &name.module.name()) {
            return count;
        }
        count += 1;
        rest = more;
    }
    count
}

fn or_zero(number: Option<u32>) -> u32
    ensures { result ≡ or_zero number }
{
    match number {
        None => 0,
        Some(number) => number,
    }
}

impl Types {
    /// No types. Takes no memory.
    pub fn new(alloc: Global) -> Types
        ensures { result ≡ [] }
    {
        Types {
            table: Descriptors::new(alloc),
            names: Vec::new(alloc),
            index: TypeIndex::new(alloc),
        }
    }

    /// How many there are.
    pub fn count(&self) -> u32
        ensures count { result ≡ length self.now }
        ensures few { length self.now < 2 ^ 32 }
    {
        self.names.len() as u32
    }

    /// The descriptors. Each base stands before its type.
    pub fn table(&self) -> &Descriptors
        ensures table { result.now.list ≡ self.now }
        ensures bases { BasesBefore self.now }
    {
        &self.table
    }

    /// The number of the type that a link names.
    pub fn linked(&self, name: &QName) -> Option<u32>
        ensures { result ≡ linked_type self.now name.now }
    {
        self.index.get(name)
    }

    /// The numbers of the types that links name.
    pub fn links(&self, alloc: Global, names: &[QName]) -> Result<List<u32>, AllocError>
        ensures { IfOk result (λ l. l ≡ map (λ q. or_zero (linked_type self.now q)) names.now) }
    {
        let mut numbers = List::new(alloc);
        let mut rest = names;
        while let [name, more @ ..] = rest {
            numbers.push(or_zero(self.linked(name)))?;
            rest = more;
        }
        Ok(numbers)
    }

    /// How many types, from the first on, are of these modules.
    pub fn count_of(&self, modules: &[Module]) -> u32
        ensures types { take result self.now ≡ types_of modules.now self.now }
        ensures within { result ≤ length self.now }
    {
        count_names(&self.names, modules)
    }

    /// Adds the descriptor of a declared type behind the others. After an `Err` nothing is changed.
    #[tactic(auto, using(crate::proofs::Bases::bases_added))]
    pub fn add(&mut self, alloc: Global, d: Declaration) -> Result<(), AllocError>
        requires base { IfSome d.base (λ b. b < length self.old) }
        requires rising { IsStrictlySortedBy by_method d.methods }
        requires few { length self.old + 1 < 2 ^ 32 }
        ensures ok { OnOk result (self.new ≡ self.old ++ declared self.old d ∷ []) }
        ensures err { OnErr result (self.new ≡ self.old) }
    {
        let object = d.name.clone()?;
        let module = CompactName::of(alloc, &d.module)?;
        let name = QName { module, object };
        self.table.reserve(1, d.methods.len())?;
        self.names.reserve(1)?;
        self.index.note(alloc, &name, self.names.len() as u32)?;
        let _ = self.names.push(name);
        let _ = self.table.add(d);
        Ok(())
    }

    // Adds one of the record types of a module.
    fn add_own(
        &mut self,
        alloc: Global,
        module: Name,
        number: u32,
        first: u32,
        links: &[u32],
        own: &RecordType,
    ) -> Result<(), AllocError>
        requires base { IfSome (base_number first links.now own.now.base) (λ b. b < length self.old) }
        requires rising { IsStrictlySortedBy by_number own.now.definitions }
        requires few { length self.old + 1 < 2 ^ 32 }
        ensures ok { OnOk result (self.new ≡ self.old ++ descriptor_of «module» first links.now self.old number own.now ∷ []) }
        ensures err { OnErr result (self.new ≡ self.old) }
    {
        let d = declaration(alloc, module, number, first, links, own)?;
        self.add(alloc, d)
    }

    /// Adds the record types of a module with this name and number, whose type links stand for `links`.
    /// After an `Err` nothing is changed.
    pub fn add_all(
        &mut self,
        alloc: Global,
        module: Name,
        number: u32,
        links: &[u32],
        own: &[RecordType],
    ) -> Result<(), AllocError>
        requires few { length self.old + length own.now < 2 ^ 32 }
        requires bases { BasesStand (length self.old) links.now (length self.old) own.now }
        requires rising { DefinitionsRise own.now }
        ensures ok { OnOk result (self.new ≡ with_types «module» (length self.old) links.now number self.old own.now) }
        ensures err { OnErr result (self.new ≡ self.old) }
    {
        let first = self.count();
        let mut rest = own;
        while let [record, more @ ..] = rest {
            match self.add_own(alloc, module, number, first, links, record) {
                Ok(()) => rest = more,
                Err(fault) => {
                    self.cut(first);
                    return Err(fault);
                }
            }
        }
        Ok(())
    }

    // Takes out the last one.
    fn cut_last(&mut self)
        requires { 0 < length self.old }
        ensures { self.new ≡ take (length self.old - 1) self.old }
    {
        let last = self.names.len() - 1;
        self.index.forget(&self.names[last], last as u32);
        self.names.truncate(last);
        self.table.cut(last as u32);
    }

    /// Keeps the first descriptors, so many.
    pub fn cut(&mut self, types: u32)
        requires { types ≤ length self.old }
        ensures { self.new ≡ take types self.old }
    {
        let mut count = self.count();
        while count > types {
            self.cut_last();
            count -= 1;
        }
    }
}
