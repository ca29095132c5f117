//! Object files that stand alone.

ghost use Rattle.std.specs.Prelude.{◌≡◌, ◌≤◌, ◌↔◌, true, IfOk};
ghost use Rattle.ob_obj.specs.Grammar.{file as file_form};
ghost use Rattle.ob_machine.specs.Machine.{IsEntry};
ghost use Rattle.test_codes.specs.Alone.{HasNoLinks, with_module};

use ob_machine::Machine;
use ob_obj::ObjFile;
use ob_tree::List;
use std::alloc::{AllocError, Global};

/// Whether the file has no links.
pub fn stands_alone(file: &ObjFile) -> bool
    ensures { result ≡ true ↔ HasNoLinks file.now }
{
    file.links.variables.is_empty()
        && file.links.procedures.is_empty()
        && file.links.types.is_empty()
}

/// A machine with so many words of heap and with the file's module alone. Its body can be run. An `Err` is a
/// want of memory.
pub fn machine_of(alloc: Global, heap: u32, file: ObjFile) -> Result<Machine, AllocError>
    requires some { 1 ≤ heap }
    requires limit { heap ≤ 4194304 }
    requires fits { file_form.fits file }
    requires alone { HasNoLinks file }
    ensures made { IfOk result (λ m. m ≡ with_module heap file) }
    ensures entry { IfOk result (λ m. IsEntry m.image (record { «module» = 0; proc = 0 })) }
{
    let mut machine = Machine::new(alloc, heap)?;
    let mut files = List::new(alloc);
    files.push(file)?;
    machine.enter(files)?;
    Ok(machine)
}
