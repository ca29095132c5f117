//! The trait of what compiles.

ghost use Rattle.std.specs.Prelude.{◌≡◌, true, IfOk};
ghost use Rattle.ob_sym.specs.Grammar.{face as face_form};
ghost use Rattle.ob_io.specs.Io.{SameFiles};
ghost use Rattle.ob_env_walk.specs.Walk.{symbol_entry};
ghost use Rattle.ob_compile_model.specs.Compiling.{compiled, prints};
ghost use Rattle.ob_compile_trait.specs.Contract.{AreFile, Compiles, CompileHasCause};

use crate::shape::Built;
use ob_compile_model::CompileFault;
use ob_io::Shelf;
use std::alloc::Global;

/// What compiles sources, one behind the other. What it keeps of one compile for the next says
/// nothing of the answer.
pub trait Compile {
    /// Compiles a file of the folder against the symbol files there: its interface and the bytes of
    /// its two files, or the first refusal. It writes no file.
    fn compile<F: Shelf>(
        &mut self,
        alloc: Global,
        folder: &mut F,
        file: &str,
    ) -> Result<Built, CompileFault>
        ensures told { F.tells folder.new ≡ F.tells folder.old }
        ensures files { F.tells folder.old ≡ true → SameFiles (F.files folder.new) (F.files folder.old) }
        // The answer is the one that the definition of a compile gives for these files.
        ensures compiles { F.tells folder.old ≡ true → Compiles (compiled prints (symbol_entry (F.files folder.old)) (F.files folder.old file.now)) result }
        // What was compiled reads back: its interface has a spelling, and so has its object file.
        ensures fits { IfOk result (λ b. face_form.fits b.face) }
        ensures file { IfOk result (λ b. AreFile b.obj) }
        // `Folder` comes only where the folder's count of faults rose.
        ensures cause { CompileHasCause (F.faults folder.old) (F.faults folder.new) result };
}
