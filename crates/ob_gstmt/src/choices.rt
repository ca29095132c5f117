//! Code of the labels of CASE.

ghost use Rattle.std.specs.Prelude.{◌≡◌, ◌∷◌, [], ◌<◌, ◌≤◌, ◌^◌, ◌+◌, ◌*◌, OnOk, IfOk};
ghost use Rattle.ob_scheme.specs.Lines.{Number, plain, placed, bare, count, jump_if_false};
ghost use Rattle.ob_scheme.specs.Context.{Context};
ghost use Rattle.ob_scheme.specs.Coded.{Coded, appended, place_in};
ghost use Rattle.ob_scheme.specs.Statements.{label_code, labels_code};
ghost use Rattle.ob_trap.specs.Numbers.{trap_number};

use crate::loops::put_word;
use ob_gexpr_code::{Code, CodeFault, Scope, put_bare, put_jump, put_placed, put_plain};
use ob_instr::Opcode;
use ob_trap::Trap;
use ob_tree::Pos;
use ob_types::Label;

#[tactic(auto, using(ob_scheme::proofs::Appends::put_more))]
fn put_compared(code: &mut Code, bound: &i32, op: Opcode, next: usize) -> Result<(), CodeFault>
    ensures { OnOk result (code.new ≡ appended code.old (plain Opcode.Int (Number bound.now) ∷ bare op ∷ jump_if_false next ∷ [])) }
{
    put_plain(code, Opcode::Int, *bound)?;
    put_bare(code, op)?;
    put_jump(code, Opcode::JumpF, next)
}

// A test of the word against a bound, on to the next where it fails.
#[tactic(auto, using(ob_scheme::proofs::Appends::put_two))]
fn put_bound(
    code: &mut Code,
    word: u32,
    bound: &i32,
    op: Opcode,
    next: usize,
) -> Result<(), CodeFault>
    requires { word < 2 ^ 30 }
    ensures { OnOk result (code.new ≡ appended code.old (plain Opcode.Local (count word) ∷ bare Opcode.Load ∷ plain Opcode.Int (Number bound.now) ∷ bare op ∷ jump_if_false next ∷ [])) }
{
    put_word(code, word)?;
    put_compared(code, bound, op, next)
}

// The index so many lines further.
fn further(pc: usize, lines: usize) -> Result<usize, CodeFault>
    ensures { IfOk result (λ n. n ≡ pc + lines) }
{
    if pc >= 1 << 30 || lines >= 1 << 30 {
        return Err(CodeFault::Beyond);
    }
    Ok(pc + lines)
}

// A label: the word below or above it, on to the next; else to the body.
fn put_label<S: Scope>(
    code: &mut Code,
    scope: &S,
    word: u32,
    label: &Label,
    body: usize,
) -> Result<(), CodeFault>
    requires { word < 2 ^ 30 }
    ensures { OnOk result (code.new ≡ appended code.old (label_code (S.context scope.now) word label.now (place_in code.old) body)) }
{
    let _scope = scope;
    let next = further(code.place(), 11)?;
    put_bound(code, word, &label.low, Opcode::Ge, next)?;
    put_bound(code, word, &label.high, Opcode::Le, next)?;
    put_jump(code, Opcode::Jump, body)
}

/// The labels of a case of CASE, whose value is in a word.
pub fn put_labels<S: Scope>(
    code: &mut Code,
    scope: &S,
    word: u32,
    labels: &[Label],
    body: usize,
) -> Result<(), CodeFault>
    requires { word < 2 ^ 30 }
    ensures { OnOk result (code.new ≡ appended code.old (labels_code (S.context scope.now) word labels.now (place_in code.old) body)) }
{
    'labels: for label in labels {
        put_label(code, scope, word, label, body)?;
    }
    Ok(())
}

/// The index of the body of a case behind so many labels.
pub fn body_behind(pc: usize, labels: usize) -> Result<usize, CodeFault>
    ensures { IfOk result (λ n. n ≡ pc + 11 * labels + 1) }
{
    if labels >= 1 << 20 {
        return Err(CodeFault::Beyond);
    }
    let lines = 11 * labels + 1;
    further(pc, lines)
}

/// The trap where no branch or case is taken.
pub fn put_none_taken(code: &mut Code, kind: Trap, at: Pos) -> Result<(), CodeFault>
    ensures { OnOk result (code.new ≡ appended code.old (placed Opcode.Trap (count (trap_number kind)) at ∷ [])) }
{
    put_placed(code, Opcode::Trap, i32::from(kind.number()), at)
}
