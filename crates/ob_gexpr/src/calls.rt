//! Code that counts and passes actual parameters.

ghost use Rattle.std.specs.Prelude.{◌≡◌, ◌+◌, ◌∷◌, [], ◌<◌, ◌^◌, pos, OnOk, IfOk};
ghost use Rattle.ob_types.specs.TypedView.{actuals_view};
ghost use Rattle.ob_scheme.specs.Lines.{Number, placed, placed_two, count};
ghost use Rattle.ob_layout.specs.Room.{slots};
ghost use Rattle.ob_scheme.specs.Context.{Context};
ghost use Rattle.ob_scheme.specs.Operations.{out_number};
ghost use Rattle.ob_scheme.specs.Coded.{Coded, appended};
ghost use Rattle.ob_scheme.specs.Expressions.{words_of_actuals, words_behind_receiver, call_line};

use crate::types::put_declared;
use ob_gexpr_code::{Code, CodeFault, Scope, put_placed, put_typed_and};
use ob_instr::Opcode;
use ob_tree::Pos;
use ob_types::{Actual, Callee, OutProcedure, Passing, Receiver};

fn slots_of(how: Passing) -> u32
    ensures is { result ≡ slots how }
    ensures within { result < 3 }
{
    match how {
        Passing::Scalar | Passing::Structure | Passing::Variable => 1,
        Passing::OpenArray | Passing::VariableRecord | Passing::VariableOpenArray => 2,
    }
}

fn add_words(words: u32, more: u32) -> Result<u32, CodeFault>
    requires words { words < 2 ^ 30 }
    requires more { more < 3 }
    ensures is { IfOk result (λ n. n ≡ words + more) }
    ensures within { IfOk result (λ n. n < 2 ^ 30) }
{
    if words > 1 << 20 {
        return Err(CodeFault::Beyond);
    }
    Ok(words + more)
}

/// How many words the actual parameters have.
#[tactic(auto, using(ob_scheme::proofs::Actuals::words_turn))]
pub fn count_words(actuals: &[Actual]) -> Result<u32, CodeFault>
    ensures is { IfOk result (λ n. n ≡ words_of_actuals (actuals_view actuals.now)) }
    ensures within { IfOk result (λ n. n < 2 ^ 30) }
{
    let mut words = 0;
    'actuals: for actual in actuals {
        words = add_words(words, slots_of(actual.passing))?;
    }
    Ok(words)
}

fn out_number(procedure: OutProcedure) -> i32
    ensures { result ≡ pos (out_number procedure) }
{
    match procedure {
        OutProcedure::Char => 1,
        OutProcedure::Str => 2,
        OutProcedure::Int => 3,
        OutProcedure::Ln => 4,
    }
}

/// The call of a procedure variable.
pub fn put_held_call(code: &mut Code, actuals: &[Actual], at: Pos) -> Result<(), CodeFault>
    ensures { OnOk result (code.new ≡ appended code.old (placed Opcode.CallV (count (words_of_actuals (actuals_view actuals.now))) at ∷ [])) }
{
    let words = count_words(actuals)?;
    put_placed(code, Opcode::CallV, words as i32, at)
}

fn count_behind(actuals: &[Actual]) -> Result<u32, CodeFault>
    ensures is { IfOk result (λ n. n ≡ words_behind_receiver (actuals_view actuals.now)) }
    ensures within { IfOk result (λ n. n < 2 ^ 30) }
{
    match actuals {
        [] => Ok(0),
        [_, rest @ ..] => count_words(rest),
    }
}

fn put_bound_call(
    code: &mut Code,
    op: Opcode,
    number: i32,
    actuals: &[Actual],
    at: Pos,
) -> Result<(), CodeFault>
    ensures { OnOk result (code.new ≡ appended code.old (placed_two op (Number number) (count (words_behind_receiver (actuals_view actuals.now))) at ∷ [])) }
{
    let words = count_behind(actuals)?;
    code.put(op, number, words as i32, Some(at))
}

fn put_out(code: &mut Code, procedure: OutProcedure, at: Pos) -> Result<(), CodeFault>
    ensures { OnOk result (code.new ≡ appended code.old (placed Opcode.Out (count (out_number procedure)) at ∷ [])) }
{
    put_placed(code, Opcode::Out, out_number(procedure), at)
}

/// A call, behind its actual parameters.
pub fn put_call<S: Scope>(
    code: &mut Code,
    scope: &S,
    callee: &Callee,
    actuals: &[Actual],
    at: Pos,
) -> Result<(), CodeFault>
    ensures { OnOk result (code.new ≡ appended code.old (call_line (S.context scope.now) callee.now (actuals_view actuals.now) at ∷ [])) }
{
    match callee {
        Callee::Declared(name) => put_declared(code, scope, name, at),
        Callee::Bound {
            family,
            receiver: Receiver::Pointer,
        } => {
            let number = scope.method_number(&family.owner, &family.name.name())?;
            put_bound_call(code, Opcode::CallP, number, actuals, at)
        }
        Callee::Bound {
            family,
            receiver: Receiver::Record,
        } => {
            let number = scope.method_number(&family.owner, &family.name.name())?;
            put_bound_call(code, Opcode::CallR, number, actuals, at)
        }
        Callee::Super { base, family, .. } => {
            let number = scope.method_number(&family.owner, &family.name.name())?;
            put_typed_and(code, scope, Opcode::CallS, base, number, Some(at))
        }
        Callee::Out(procedure) => put_out(code, *procedure, at),
    }
}
