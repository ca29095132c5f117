//! Which procedure an instruction names.

ghost use Rattle.std.specs.Prelude.{◌≡◌, ◌+◌, ◌≤◌, ◌<◌, length, reverse, slice_get, Some};
ghost use Rattle.ob_instr.specs.Image.{Image as Modules, World};
ghost use Rattle.ob_instr.specs.Parts.{slots, most_words};
ghost use Rattle.ob_instr.specs.Rows.{on_found, item, below, calls_with};
ghost use Rattle.ob_machine_calls.specs.Callees.{callee_effect, IsWithin};

use ob_instr::Instr;
use ob_machine_image::{Callable, Module};
use ob_tree::ProcRef;

/// What the instruction of a call names.
#[derive(Clone, Copy, PartialEq, Eq, Drop)]
pub enum Callee {
    /// A procedure, called with as many of the operands as it has slots.
    With(ProcRef),
    /// A procedure, called with the operands from one on, while those below another one wait.
    At {
        procedure: ProcRef,
        from: usize,
        below: usize,
    },
    /// The pointer or the procedure value is NIL.
    Nil,
    /// The instruction cannot be executed.
    Unable,
}

/// The number of an own procedure of a module, where there is one.
#[inline(always)]
pub fn own_number(unit: &Module, number: i32) -> Option<u32>
    ensures { result ≡ below (length unit.now.procedures) number }
{
    if number < 0 || number as usize >= unit.procedures.len() {
        return None;
    }
    Some(number as u32)
}

/// A procedure of a module.
#[inline(always)]
pub fn procedure_at(unit: &Module, number: u32) -> &Callable
    requires { number < length unit.now.procedures }
    ensures at { slice_get unit.now.procedures number ≡ Some result.now }
    ensures words { slots result.now.params + result.now.locals ≤ most_words }
{
    let Some(procedure) = unit.procedures.get(number as usize) else {
        unreachable!();
    };
    procedure
}

fn linked_procedure(unit: &Module, instr: Instr) -> Option<ProcRef>
    ensures { result ≡ item unit.now.procedure_links instr.a }
{
    if instr.a < 0 {
        return None;
    }
    unit.procedure_links.get(instr.a as usize).copied()
}

/// What a call of a linked procedure names.
pub fn linked(unit: &Module, instr: Instr, operands: &[i32]) -> Callee
    ensures effect { (img : Modules) (w : World) → on_found (item unit.now.procedure_links instr.a) (λ r. calls_with img r (reverse operands.now) w) ≡ callee_effect img operands.now result w }
    ensures within { IsWithin operands.now result }
{
    match linked_procedure(unit, instr) {
        Some(r) => Callee::With(r),
        None => Callee::Unable,
    }
}
