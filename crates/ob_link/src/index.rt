//! Places, found by names.

ghost use Rattle.std.specs.Prelude.{◌≡◌, Some, None, OnOk, OnErr};
ghost use Rattle.ob_link.specs.Index.{place_in, Puts, Notes, Forgets, IsAsBefore};

use std::alloc::{AllocError, Global};
use std::collections::BTreeMap;

/// Places, each found by its name.
#[derive(Drop)]
pub struct Index {
    places: BTreeMap<Vec<u8>, usize>,
}

impl Index {
    /// No names. Takes no memory.
    pub fn new(alloc: Global) -> Index
        ensures { (n : _) → place_in result.places n ≡ None }
    {
        Index {
            places: BTreeMap::new(alloc),
        }
    }

    /// The place of a name.
    pub fn get(&self, name: &[u8]) -> Option<usize>
        ensures { result ≡ place_in self.now.places name.now }
    {
        self.places.get(name).copied()
    }

    // Puts a place at a name.
    fn put(&mut self, alloc: Global, name: &[u8], place: usize) -> Result<(), AllocError>
        ensures ok { OnOk result (Puts self.old.places self.new.places name.now (Some place)) }
        ensures err { OnErr result (IsAsBefore self.old.places self.new.places) }
    {
        let key = Vec::from_slice(alloc, name)?;
        self.places.insert(key, place)?;
        Ok(())
    }

    // Takes a name out.
    fn remove(&mut self, name: &[u8])
        ensures { Puts self.old.places self.new.places name.now None }
    {
        let _ = self.places.remove(name);
    }

    /// Notes a place under a name; a name that has one keeps it. After an `Err` each name has the place that
    /// it had.
    pub fn note(&mut self, alloc: Global, name: &[u8], place: usize) -> Result<(), AllocError>
        ensures ok { OnOk result (Notes self.old.places self.new.places name.now place) }
        ensures err { OnErr result (IsAsBefore self.old.places self.new.places) }
    {
        match self.get(name) {
            Some(_) => Ok(()),
            None => self.put(alloc, name, place),
        }
    }

    /// Takes a name out that has this place; one with another place keeps it. Takes no memory.
    pub fn forget(&mut self, name: &[u8], place: usize)
        ensures { Forgets self.old.places self.new.places name.now place }
    {
        let found = match self.get(name) {
            Some(found) => found,
            None => return,
        };
        if found != place {
            return;
        }
        self.remove(name);
    }
}
