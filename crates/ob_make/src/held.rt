//! Symbol files, found by the names of their modules.

ghost use Rattle.std.specs.Prelude.{◌≡◌, None, OnOk, OnErr};
ghost use Rattle.std.specs.Option.{option_copied};
ghost use Rattle.ob_make.specs.Faces.{Puts, IsAsBefore, kept_of};

use crate::files::Filed;
use ob_tree::Name;
use ob_types::Interface;
use std::alloc::{AllocError, Global};
use std::collections::BTreeMap;

/// What was read of symbol files, each found by the name of its module.
#[derive(Drop)]
pub struct Held {
    files: BTreeMap<Vec<u8>, Filed<Interface>>,
}

impl Held {
    /// No symbol files. Takes no memory.
    pub fn new(alloc: Global) -> Held
        ensures { (m : _) → kept_of result m ≡ None }
    {
        Held {
            files: BTreeMap::new(alloc),
        }
    }

    /// What is kept of a module.
    pub fn get(&self, module: &Name) -> Option<&Filed<Interface>>
        ensures { option_copied result ≡ kept_of self.now «module».now }
    {
        self.files.get(module.as_bytes())
    }

    /// Keeps what was read of a module.
    pub fn put(
        &mut self,
        alloc: Global,
        module: &Name,
        face: Filed<Interface>,
    ) -> Result<(), AllocError>
        ensures ok { OnOk result (Puts self.old self.new «module».now face) }
        ensures err { OnErr result (IsAsBefore self.old self.new) }
    {
        let key = Vec::from_slice(alloc, module.as_bytes())?;
        self.files.insert(key, face)?;
        Ok(())
    }
}
