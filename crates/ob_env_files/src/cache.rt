//! Symbol files that were read, kept by module and bytes.

ghost use Rattle.std.specs.Prelude.{◌≡◌, Some, IfOk, IfSome, MatchResult};
ghost use Rattle.ob_types.specs.declared.face.Interface.{Interface as Face};
ghost use Rattle.ob_format.specs.Format.{whole};
ghost use Rattle.ob_sym.specs.Grammar.{face as face_form};

use crate::file::SymbolFile;
use crate::reader::SymbolReader;
use ob_layout::NameIndex;
use ob_sym::SymFault;
use ob_tree::Name;
use std::alloc::{AllocError, Global};

/// The symbol files that were read: for each name of a module the last one that was read under it.
///
/// As a `SymbolReader` it answers what `read_sym` does. Where the bytes are those of the file that
/// it keeps for the module, the answer is that file; else they are read, and kept in the place of
/// the module's earlier ones.
#[derive(Drop)]
pub struct SymbolCache {
    // where the file of each module stands
    positions: NameIndex,
    files: Vec<SymbolFile>,
}

// That file, where these are its bytes.
fn again(file: &SymbolFile, bytes: &[u8]) -> Result<Option<SymbolFile>, AllocError>
    ensures { IfOk result (λ o. IfSome o (λ f. whole face_form bytes.now ≡ Some f)) }
{
    if !file.has_bytes(bytes) {
        return Ok(None);
    }
    let file = file.clone()?;
    Ok(Some(file))
}

impl SymbolCache {
    /// One that keeps no files yet. Takes no memory.
    pub fn new(alloc: Global) -> SymbolCache {
        SymbolCache {
            positions: NameIndex::new(alloc),
            files: Vec::new(alloc),
        }
    }

    // What the bytes spell, where they are those that are kept for the module.
    fn known(&self, module: &Name, bytes: &[u8]) -> Result<Option<SymbolFile>, AllocError>
        ensures { IfOk result (λ o. IfSome o (λ f. whole face_form bytes.now ≡ Some f)) }
    {
        let Some(at) = self.positions.get(module.as_bytes()) else {
            return Ok(None);
        };
        match self.files.get(at) {
            None => Ok(None),
            Some(file) => again(file, bytes),
        }
    }

    // Keeps one more file, as that of the module.
    fn push(&mut self, alloc: Global, module: &Name, file: SymbolFile) -> Result<(), AllocError> {
        let position = self.files.len();
        self.files.push(file)?;
        self.positions.note(alloc, module.as_bytes(), position)
    }

    /// Keeps a file as that of the module, in the place of its earlier one.
    pub fn keep(
        &mut self,
        alloc: Global,
        module: &Name,
        file: SymbolFile,
    ) -> Result<(), AllocError> {
        let Some(at) = self.positions.get(module.as_bytes()) else {
            return self.push(alloc, module, file);
        };
        if let Some(place) = self.files.get_mut(at) {
            *place = file;
        }
        Ok(())
    }

    // Keeps a file as that of the module, and answers it.
    fn kept(
        &mut self,
        alloc: Global,
        module: &Name,
        file: SymbolFile,
    ) -> Result<SymbolFile, AllocError>
        ensures { IfOk result (λ f. f ≡ file) }
    {
        let again = file.clone()?;
        self.keep(alloc, module, again)?;
        Ok(file)
    }

    // Reads the bytes, and keeps them as those of the module.
    fn read_anew(
        &mut self,
        alloc: Global,
        module: &Name,
        bytes: &[u8],
    ) -> Result<SymbolFile, SymFault>
        ensures found { IfOk result (λ f. face_form.fits f × (bytes.now ≡ face_form.spell f)) }
        ensures again { (f : Face) → face_form.fits f → bytes.now ≡ face_form.spell f → MatchResult result (λ g. g ≡ f) (λ e. e ≡ SymFault.Memory) }
    {
        let file = SymbolFile::read(alloc, bytes)?;
        match self.kept(alloc, module, file) {
            Ok(file) => Ok(file),
            Err(_) => Err(SymFault::Memory),
        }
    }
}

impl SymbolReader for SymbolCache {
    fn read(&mut self, alloc: Global, module: &Name, bytes: &[u8]) -> Result<SymbolFile, SymFault> {
        match self.known(module, bytes) {
            Ok(Some(file)) => Ok(file),
            Ok(None) => self.read_anew(alloc, module, bytes),
            Err(_) => Err(SymFault::Memory),
        }
    }
}
