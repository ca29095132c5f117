//! Names in the order in which they were put, each found by its place.

ghost use Rattle.std.specs.Prelude.{◌≡◌, ◌<◌, ◌-◌, ◌++◌, ◌∷◌, [], length, take, OnOk, OnErr};
ghost use Rattle.ob_link.specs.Index.{place_from};

use crate::index::Index;
use ob_tree::ObjName;
use std::alloc::{AllocError, Global};
use std::marker::Model;

/// A list of names, each found by its place.
#[derive(Drop)]
pub struct Names {
    alloc: Global,
    names: Vec<ObjName>,
    index: Index,
}

impl Model for Names {
    ghost use Rattle.std.specs.Prelude.{List, ℕ};
    ghost use Rattle.ob_link.specs.Index.{IsIndexed};

    ghost Value = { List (List ℕ) };

    ghost view = { λ n. n.names.items };

    ghost invariant = { λ n. IsIndexed n.index.places n.names.items };
}

impl Names {
    /// No names. Takes no memory.
    pub fn new(alloc: Global) -> Names
        ensures { result ≡ [] }
    {
        Names {
            alloc,
            names: Vec::new(alloc),
            index: Index::new(alloc),
        }
    }

    /// The first place of a name. Takes no memory.
    pub fn place(&self, name: &[u8]) -> Option<usize>
        ensures { result ≡ place_from 0 self.now name.now }
    {
        self.index.get(name)
    }

    /// Adds a name at the end. An `Err` is a want of memory, and leaves the list as it was.
    pub fn push(&mut self, name: &[u8]) -> Result<(), AllocError>
        ensures ok { OnOk result (self.new ≡ self.old ++ name.now ∷ []) }
        ensures err { OnErr result (self.new ≡ self.old) }
    {
        let copy = ObjName::new(self.alloc, name)?;
        self.names.reserve(1)?;
        self.index.note(self.alloc, name, self.names.len())?;
        let _ = self.names.push(copy);
        Ok(())
    }

    /// Takes out the last name. Takes no memory.
    pub fn cut_last(&mut self)
        requires { 0 < length self.old }
        ensures { self.new ≡ take (length self.old - 1) self.old }
    {
        let last = self.names.len() - 1;
        self.index.forget(self.names[last].as_bytes(), last);
        self.names.truncate(last);
    }
}
