//! A compile from the file to its answer.

ghost use Rattle.std.specs.Prelude.{◌≡◌, true, IfOk};
ghost use Rattle.ob_sym.specs.Grammar.{face as face_form};
ghost use Rattle.ob_io.specs.Io.{SameFiles};
ghost use Rattle.ob_env_walk.specs.Walk.{symbol_entry};
ghost use Rattle.ob_compile_model.specs.Compiling.{compiled, prints};
ghost use Rattle.ob_compile_trait.specs.Contract.{AreFile, Compiles, CompileHasCause};

use crate::compiler::Compiler;
use crate::faces::compile_text;
use crate::source::read_source;
use ob_compile_model::CompileFault;
use ob_compile_trait::{Built, Compile};
use ob_io::Shelf;
use std::alloc::Global;

/// Compiles a file of the folder against the symbol files there: its interface and the bytes of its
/// two files, or the first refusal. It writes no file, and reads each file once. `Folder` comes only
/// where the folder's count of faults rose. `Memory` comes where memory is wanting, and where the
/// generator gives the module up, as it does at LEN of an array longer than 2,147,483,647. It would
/// also come where a file that was made has no spelling. No build has such a file: that is a law
/// (`written` of law_headline), on which this code does not stand.
pub fn compile<F: Shelf>(alloc: Global, folder: &mut F, file: &str) -> Result<Built, CompileFault>
    ensures told { F.tells folder.new ≡ F.tells folder.old }
    ensures files { F.tells folder.old ≡ true → SameFiles (F.files folder.new) (F.files folder.old) }
    ensures compiles { F.tells folder.old ≡ true → Compiles (compiled prints (symbol_entry (F.files folder.old)) (F.files folder.old file.now)) result }
    ensures fits { IfOk result (λ b. face_form.fits b.face) }
    ensures file { IfOk result (λ b. AreFile b.obj) }
    ensures cause { CompileHasCause (F.faults folder.old) (F.faults folder.new) result }
{
    let mut compiler = Compiler::new(alloc);
    compiler.compile(alloc, folder, file)
}

impl Compile for Compiler {
    /// Compiles a file as [`compile`] does, whatever was compiled before, and leaves for the next
    /// one what it read and made.
    fn compile<F: Shelf>(
        &mut self,
        alloc: Global,
        folder: &mut F,
        file: &str,
    ) -> Result<Built, CompileFault> {
        match read_source(alloc, folder, file) {
            Ok(text) => compile_text(alloc, folder, self, text.as_slice()),
            Err(fault) => Err(fault),
        }
    }
}
