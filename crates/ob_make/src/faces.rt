//! The symbol files that were read in a make, kept until a file is replaced.

ghost use Rattle.std.specs.Prelude.{◌≡◌, true, OnOk, OnErr};
ghost use Rattle.ob_env.specs.Faces.{face_of};
ghost use Rattle.ob_cmp.specs.Check.{symbols_of};
ghost use Rattle.ob_make.specs.Answers.{MakeHasCause};
ghost use Rattle.ob_make.specs.Filing.{IsFaceOf, seen};
ghost use Rattle.ob_make.specs.Faces.{KeepsFaces, IsAsBefore, Puts, is_kept};
ghost use Rattle.ob_make.specs.Standing.{Learns};

use crate::fault::MakeFault;
use crate::files::{Filed, find_face};
use crate::held::Held;
use ob_io::Shelf;
use ob_tree::Name;
use ob_types::Interface;
use std::alloc::{AllocError, Global};
use std::marker::Model;

/// The symbol files that were read in a make. Contracts see what is kept of each module.
#[derive(Drop)]
pub struct Faces {
    kept: Held,
}

impl Model for Faces {
    ghost use Rattle.ob_make.specs.declared.held.Held.{Held};
    ghost use Rattle.ob_make.specs.contracts.held.Held as all;
    ghost use Rattle.ob_make.specs.Faces.{AreFaces};

    ghost Value = { Held };

    ghost coded = { all.the_row.coded };

    ghost view = { λ f. f.kept };

    ghost invariant = { λ f. AreFaces f.kept };
}

impl Faces {
    /// No symbol files. Takes no memory.
    pub fn new(alloc: Global) -> Faces
        ensures { (find : _) → KeepsFaces find result }
    {
        Faces {
            kept: Held::new(alloc),
        }
    }

    // Whether the symbol file of a module was read.
    fn has(&self, module: &Name) -> bool
        ensures { result ≡ is_kept self.now «module».now }
    {
        self.kept.get(module).is_some()
    }

    /// The symbol file of a module, which was read.
    pub fn get(&self, module: &Name) -> &Filed<Interface>
        requires { is_kept self.now «module».now ≡ true }
        ensures found { (find : _) → KeepsFaces find self.now → find «module».now ≡ seen face_of result.now }
        ensures of { IsFaceOf «module».now result.now }
    {
        match self.kept.get(module) {
            Some(face) => face,
            None => unreachable!(),
        }
    }

    // Keeps what was read of a module.
    fn put(
        &mut self,
        alloc: Global,
        module: &Name,
        face: Filed<Interface>,
    ) -> Result<(), AllocError>
        requires { IsFaceOf «module».now face }
        ensures ok { OnOk result (Puts self.old self.new «module».now face) }
        ensures err { OnErr result (IsAsBefore self.old self.new) }
    {
        self.kept.put(alloc, module, face)
    }

    /// Reads the symbol file of a module, unless it was read.
    pub fn learn<F: Shelf>(
        &mut self,
        alloc: Global,
        folder: &mut F,
        module: &Name,
    ) -> Result<(), MakeFault>
        requires keeps { F.tells folder.old ≡ true → KeepsFaces (symbols_of (F.files folder.old)) self.old }
        ensures told { F.tells folder.new ≡ F.tells folder.old }
        ensures files { F.tells folder.old ≡ true → F.files folder.new ≡ F.files folder.old }
        ensures keeps { F.tells folder.old ≡ true → KeepsFaces (symbols_of (F.files folder.old)) self.new }
        ensures learns { F.tells folder.old ≡ true → Learns result }
        ensures kept { OnOk result (is_kept self.new «module».now ≡ true) }
        ensures cause { MakeHasCause (F.faults folder.old) (F.faults folder.new) result }
    {
        if self.has(module) {
            return Ok(());
        }
        let found = find_face(alloc, folder, module)?;
        match self.put(alloc, module, found) {
            Ok(()) => Ok(()),
            Err(_) => Err(MakeFault::Memory),
        }
    }
}
