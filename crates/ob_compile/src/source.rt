//! The source, as bytes.

ghost use Rattle.std.specs.Prelude.{◌≡◌, true, IfOk};
ghost use Rattle.ob_io.specs.Io.{SameFiles};
ghost use Rattle.ob_compile_trait.specs.Contract.{CompileHasCause};
ghost use Rattle.ob_compile.specs.Steps.{Sources, IsShort};

use ob_compile_model::{CompileFault, CompileRefusal};
use ob_io::{FolderFault, Shelf};
use std::alloc::Global;

/// The most bytes of a source.
const MOST_SOURCE: usize = 1_048_576;

/// The bytes of a source.
pub fn read_source<F: Shelf>(
    alloc: Global,
    folder: &mut F,
    file: &str,
) -> Result<Vec<u8>, CompileFault>
    ensures told { F.tells folder.new ≡ F.tells folder.old }
    ensures files { F.tells folder.old ≡ true → SameFiles (F.files folder.new) (F.files folder.old) }
    ensures source { F.tells folder.old ≡ true → Sources (F.files folder.old file.now) result }
    ensures short { IfOk result IsShort }
    ensures cause { CompileHasCause (F.faults folder.old) (F.faults folder.new) result }
{
    match folder.read(alloc, file, MOST_SOURCE) {
        Ok(None) => Err(CompileFault::Refused(CompileRefusal::NoSource)),
        Ok(Some(text)) => Ok(text),
        Err(FolderFault::Long) => Err(CompileFault::Refused(CompileRefusal::Long)),
        Err(FolderFault::Failed) => Err(CompileFault::Folder),
        Err(FolderFault::Memory) => Err(CompileFault::Memory),
    }
}
