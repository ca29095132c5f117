//! Things that have names, found by their names.

ghost use Rattle.std.specs.Prelude.{◌≡◌, [], ◌∷◌, ◌<◌, ◌-◌, ◌+◌, length, Some, OnOk, OnErr, IfOk, map, drop, reverse, bytes_eq, slice_get};
ghost use Rattle.std.specs.List.{find};
ghost use Rattle.std.specs.Option.{option_copied};
ghost use Rattle.ob_rules.specs.Headings.{change_type, with_method};
ghost use Rattle.ob_cdecl_scopes.specs.Stacks.{latest};

use crate::methods::add_to_types;
use crate::stack::Stack;
use ob_types::{Method, TypedType};
use std::alloc::{AllocError, Global};
use std::marker::Model;

/// What has a name.
pub trait Named {
    ghost use Rattle.std.specs.Prelude.{List, ℕ};

    /// Its name.
    ghost name: { Self → List ℕ };

    /// The bytes of its name. Takes no memory.
    fn name_bytes(&self) -> &[u8]
        ensures { result.now ≡ name self.now };
}

/// A stack of things with names, each found by its name; of several of one name the latest is
/// found.
///
/// Contracts see the list of them, the latest first.
#[derive(Drop)]
pub struct Table<T: Named> {
    items: Vec<T>,
    names: Stack,
}

impl<T: Named> Model for Table<T> {
    ghost use Rattle.std.specs.Prelude.{List, ◌≡◌, map, reverse};

    ghost Value = { List T };

    ghost view = { λ t. reverse t.items.items };

    ghost invariant = { λ t. t.names ≡ map T.name (reverse t.items.items) };
}

fn item_at<T>(items: &[T], place: usize) -> Option<&T>
    ensures { option_copied result ≡ slice_get items.now place }
{
    items.get(place)
}

fn names_in<T: Named>(alloc: Global, items: &[T]) -> Result<Stack, AllocError>
    ensures { IfOk result (λ s. s ≡ map T.name (reverse items.now)) }
{
    let mut names = Stack::new(alloc);
    'items: for item in items {
        names.push(alloc, item.name_bytes())?;
    }
    Ok(names)
}

impl<T: Named> Table<T> {
    /// Nothing. Takes no memory.
    pub fn new(alloc: Global) -> Table<T>
        ensures { result ≡ [] }
    {
        Table {
            items: Vec::new(alloc),
            names: Stack::new(alloc),
        }
    }

    /// How many there are.
    pub fn len(&self) -> usize
        ensures { result ≡ length self.now }
    {
        self.items.len()
    }

    /// All of them, the oldest first.
    pub fn as_slice(&self) -> &[T]
        ensures { reverse result.now ≡ self.now }
    {
        &self.items
    }

    /// The latest of all. Takes no memory.
    pub fn latest(&self) -> Option<&T>
        ensures { option_copied result ≡ slice_get self.now 0 }
    {
        self.items.last()
    }

    /// The latest of that name. Takes no memory.
    pub fn find(&self, name: &[u8]) -> Option<&T>
        ensures { option_copied result ≡ find (λ x. bytes_eq (T.name x) name.now) self.now }
    {
        match self.names.find(name) {
            None => None,
            Some(place) => item_at(&self.items, place),
        }
    }
}

impl<T: Named + Drop> Table<T> {
    /// All of these, the oldest first.
    pub fn from_items(alloc: Global, items: Vec<T>) -> Result<Table<T>, AllocError>
        ensures { IfOk result (λ t. t ≡ reverse items.items) }
    {
        let names = names_in(alloc, &items)?;
        Ok(Table { items, names })
    }

    /// One more, the latest.
    pub fn push(&mut self, alloc: Global, item: T) -> Result<(), AllocError>
        ensures ok { OnOk result (self.new ≡ item ∷ self.old) }
        ensures err { OnErr result (self.new ≡ self.old) }
    {
        self.items.reserve(1)?;
        self.names.push(alloc, item.name_bytes())?;
        self.items.push(item)?;
        Ok(())
    }
}

impl<T: Named> Table<T> {
    /// Takes the latest away, if there is one. Takes no memory.
    pub fn pop(&mut self) -> Option<T>
        ensures rest { self.new ≡ drop 1 self.old }
        ensures first { result ≡ slice_get self.old 0 }
    {
        self.names.pop();
        self.items.pop()
    }
}

impl<T: Named + Drop> Table<T> {
    /// Takes the latest away until so many are left; where there are no more than that, none.
    /// Takes no memory.
    pub fn cut(&mut self, left: usize)
        ensures { self.new ≡ drop (length self.old - left) self.old }
    {
        self.names.cut(left);
        self.items.truncate(left);
    }
}

impl Table<TypedType> {
    /// The record types of that name have one more bound procedure.
    pub(crate) fn add_method(
        &mut self,
        alloc: Global,
        owner: &[u8],
        method: &Method,
    ) -> Result<(), AllocError>
        ensures { OnOk result (self.new ≡ change_type owner.now (λ r. with_method r method.now) self.old) }
    {
        add_to_types(alloc, &mut self.items, owner, method)
    }
}
