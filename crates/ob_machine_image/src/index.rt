//! Numbers of types, found by name.

ghost use Rattle.std.specs.Prelude.{◌≡◌, Some, None, OnOk, OnErr};
ghost use Rattle.ob_machine_image.specs.Index.{number_of, Puts, PutsType, Notes, Forgets, IsAsBefore};

use ob_tree::QName;
use std::alloc::{AllocError, Global};
use std::collections::BTreeMap;

/// Numbers of types, each found by its type's name.
#[derive(Drop)]
pub struct TypeIndex {
    // by the module's name, and then by the type's name in it
    modules: BTreeMap<Vec<u8>, BTreeMap<Vec<u8>, u32>>,
}

// Puts a number at a name.
fn put_number(
    alloc: Global,
    numbers: &mut BTreeMap<Vec<u8>, u32>,
    name: &[u8],
    number: u32,
) -> Result<(), AllocError>
    ensures ok { OnOk result (Puts numbers.old numbers.new name.now (Some number)) }
    ensures err { OnErr result (numbers.new.entries ≡ numbers.old.entries) }
{
    let key = Vec::from_slice(alloc, name)?;
    numbers.insert(key, number)?;
    Ok(())
}

impl TypeIndex {
    /// No types. Takes no memory.
    pub fn new(alloc: Global) -> TypeIndex
        ensures { (q : _) → number_of result.modules q ≡ None }
    {
        TypeIndex {
            modules: BTreeMap::new(alloc),
        }
    }

    /// The number of the type of a name.
    pub fn get(&self, name: &QName) -> Option<u32>
        ensures { result ≡ number_of self.now.modules name.now }
    {
        let numbers = self.modules.get(name.module.as_bytes())?;
        numbers.get(name.object.as_bytes()).copied()
    }

    // Puts a number at a name.
    fn put(&mut self, alloc: Global, name: &QName, number: u32) -> Result<(), AllocError>
        ensures ok { OnOk result (PutsType self.old.modules self.new.modules name.now (Some number)) }
        ensures err { OnErr result (IsAsBefore self.old.modules self.new.modules) }
    {
        match self.modules.get_mut(name.module.as_bytes()) {
            Some(numbers) => put_number(alloc, numbers, name.object.as_bytes(), number),
            None => {
                let mut numbers = BTreeMap::new(alloc);
                put_number(alloc, &mut numbers, name.object.as_bytes(), number)?;
                let key = Vec::from_slice(alloc, name.module.as_bytes())?;
                self.modules.insert(key, numbers)?;
                Ok(())
            }
        }
    }

    // Takes a name out.
    fn remove(&mut self, name: &QName)
        ensures { PutsType self.old.modules self.new.modules name.now None }
    {
        match self.modules.get_mut(name.module.as_bytes()) {
            Some(numbers) => {
                let _ = numbers.remove(name.object.as_bytes());
            }
            None => {}
        }
    }

    /// Notes a number under a name; a name that has one keeps it. After an `Err` each name has the number
    /// that it had.
    pub fn note(&mut self, alloc: Global, name: &QName, number: u32) -> Result<(), AllocError>
        ensures ok { OnOk result (Notes self.old.modules self.new.modules name.now number) }
        ensures err { OnErr result (IsAsBefore self.old.modules self.new.modules) }
    {
        match self.get(name) {
            Some(_) => Ok(()),
            None => self.put(alloc, name, number),
        }
    }

    /// Takes a name out that has this number; one with another number keeps it. Takes no memory.
    pub fn forget(&mut self, name: &QName, number: u32)
        ensures { Forgets self.old.modules self.new.modules name.now number }
    {
        let found = match self.get(name) {
            Some(found) => found,
            None => return,
        };
        if found != number {
            return;
        }
        self.remove(name);
    }
}
