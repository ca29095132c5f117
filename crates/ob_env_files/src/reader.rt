//! What reads symbol files.

ghost use Rattle.std.specs.Prelude.{◌≡◌, MatchResult, IfOk};
ghost use Rattle.ob_types.specs.declared.face.Interface.{Interface as Face};
ghost use Rattle.ob_sym.specs.Grammar.{face as face_form};

use crate::file::SymbolFile;
use ob_sym::SymFault;
use ob_tree::Name;
use std::alloc::Global;

/// What reads symbol files as `read_sym` does.
pub trait SymbolReader {
    /// The interface that the bytes of a module's symbol file spell, with the bytes. Each object
    /// carries the prints of its own texts.
    ///
    /// `Damaged` comes exactly where the bytes are no symbol file, `Memory` only where memory is
    /// wanting. The module's name says where to look for what was read before, and nothing of the
    /// answer.
    fn read(&mut self, alloc: Global, module: &Name, bytes: &[u8]) -> Result<SymbolFile, SymFault>
        // What is read is spelled so.
        ensures found { IfOk result (λ f. face_form.fits f × (bytes.now ≡ face_form.spell f)) }
        // What is spelled so is read, unless memory runs out.
        ensures again { (f : Face) → face_form.fits f → bytes.now ≡ face_form.spell f → MatchResult result (λ g. g ≡ f) (λ e. e ≡ SymFault.Memory) };
}
