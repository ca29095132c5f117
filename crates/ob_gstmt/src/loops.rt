//! Code of the parts of FOR.

ghost use Rattle.std.specs.Prelude.{◌≡◌, ◌++◌, ◌∷◌, [], ◌<◌, ◌^◌, suc, OnOk};
ghost use Rattle.ob_types.specs.TypedView.{expr_view};
ghost use Rattle.ob_scheme.specs.declared.want.Want.TheVariants as want;
ghost use Rattle.ob_scheme.specs.Lines.{Number, plain, placed, bare, count, jump_back, behind};
ghost use Rattle.ob_scheme.specs.Operations.{bytes_of};
ghost use Rattle.ob_scheme.specs.Context.{Context};
ghost use Rattle.ob_scheme.specs.Coded.{Coded, appended, place_in};
ghost use Rattle.ob_scheme.specs.Expressions.{expr_code};
ghost use Rattle.ob_scheme.specs.Statements.{word_at, for_place, for_value, within};

use ob_gexpr::{put_expr, put_variable};
use ob_gexpr_code::{
    Code, CodeFault, Scope, bytes_of, put_bare, put_count, put_jump_back, put_placed, put_plain,
};
use ob_instr::Opcode;
use ob_scheme::Want;
use ob_tree::Pos;
use ob_types::{Basic, TypeRef, TypedExpr, Variable, Width};

/// The value of a word of FOR or CASE.
#[tactic(auto, using(ob_scheme::proofs::Appends::put_more))]
pub fn put_word(code: &mut Code, word: u32) -> Result<(), CodeFault>
    requires { word < 2 ^ 30 }
    ensures { OnOk result (code.new ≡ appended code.old (word_at word)) }
{
    put_count(code, Opcode::Local, word)?;
    put_bare(code, Opcode::Load)
}

// A value and its store.
#[tactic(auto, using(ob_scheme::proofs::Appends::put_two))]
fn put_value_stored<S: Scope>(
    code: &mut Code,
    scope: &S,
    value: &TypedExpr,
) -> Result<(), CodeFault>
    ensures { OnOk result (code.new ≡ appended code.old (expr_code (S.context scope.now) want.Value (expr_view value.now) (place_in code.old) ++ bare Opcode.Store ∷ [])) }
{
    put_expr(code, scope, Want::Value, value)?;
    put_bare(code, Opcode::Store)
}

/// A value, into a word of FOR or CASE.
#[tactic(auto, using(crate::proofs::Stored::stored_put))]
pub fn put_stored<S: Scope>(
    code: &mut Code,
    scope: &S,
    word: u32,
    value: &TypedExpr,
) -> Result<(), CodeFault>
    requires { word < 2 ^ 30 }
    ensures { OnOk result (code.new ≡ appended code.old (plain Opcode.Local (count word) ∷ (expr_code (S.context scope.now) want.Value (expr_view value.now) (suc (place_in code.old)) ++ bare Opcode.Store ∷ []))) }
{
    put_count(code, Opcode::Local, word)?;
    put_value_stored(code, scope, value)
}

fn put_for_place<S: Scope>(code: &mut Code, scope: &S, variable: &Variable) -> Result<(), CodeFault>
    ensures { OnOk result (code.new ≡ appended code.old (for_place (S.context scope.now) variable.now)) }
{
    let of = TypeRef::Basic(Basic::LongInt);
    put_variable(code, scope, Want::Place, variable, &of)
}

fn put_for_value<S: Scope>(code: &mut Code, scope: &S, variable: &Variable) -> Result<(), CodeFault>
    ensures { OnOk result (code.new ≡ appended code.old (for_value (S.context scope.now) variable.now)) }
{
    let of = TypeRef::Basic(Basic::LongInt);
    put_variable(code, scope, Want::Value, variable, &of)
}

/// The start of FOR, into its variable.
#[tactic(auto, using(crate::proofs::Stored::start_put))]
pub fn put_start<S: Scope>(
    code: &mut Code,
    scope: &S,
    variable: &Variable,
    start: &TypedExpr,
) -> Result<(), CodeFault>
    ensures { OnOk result (code.new ≡ appended code.old (for_place (S.context scope.now) variable.now ++ (expr_code (S.context scope.now) want.Value (expr_view start.now) (behind (for_place (S.context scope.now) variable.now) (place_in code.old)) ++ bare Opcode.Store ∷ []))) }
{
    put_for_place(code, scope, variable)?;
    put_value_stored(code, scope, start)
}

fn put_within<S: Scope>(code: &mut Code, scope: &S, step: &i32) -> Result<(), CodeFault>
    ensures { OnOk result (code.new ≡ appended code.old (bare (within (S.context scope.now) step.now) ∷ [])) }
{
    let _scope = scope;
    if *step >= 0 {
        put_bare(code, Opcode::Le)
    } else {
        put_bare(code, Opcode::Ge)
    }
}

#[tactic(auto, using(ob_scheme::proofs::Appends::put_two))]
fn put_word_within<S: Scope>(
    code: &mut Code,
    scope: &S,
    word: u32,
    step: &i32,
) -> Result<(), CodeFault>
    requires { word < 2 ^ 30 }
    ensures { OnOk result (code.new ≡ appended code.old (plain Opcode.Local (count word) ∷ bare Opcode.Load ∷ bare (within (S.context scope.now) step.now) ∷ [])) }
{
    put_word(code, word)?;
    put_within(code, scope, step)
}

/// The test of FOR.
#[tactic(auto, using(ob_scheme::proofs::Appends::put_two))]
pub fn put_for_test<S: Scope>(
    code: &mut Code,
    scope: &S,
    variable: &Variable,
    word: u32,
    step: &i32,
) -> Result<(), CodeFault>
    requires { word < 2 ^ 30 }
    ensures { OnOk result (code.new ≡ appended code.old (for_value (S.context scope.now) variable.now ++ (plain Opcode.Local (count word) ∷ bare Opcode.Load ∷ bare (within (S.context scope.now) step.now) ∷ []))) }
{
    put_for_value(code, scope, variable)?;
    put_word_within(code, scope, word, step)
}

#[tactic(auto, using(ob_scheme::proofs::Appends::put_more))]
fn put_step_back(
    code: &mut Code,
    width: Width,
    step: &i32,
    again: usize,
    at: Pos,
) -> Result<(), CodeFault>
    ensures { OnOk result (code.new ≡ appended code.old (plain Opcode.Int (Number step.now) ∷ placed Opcode.Inc (count (bytes_of width)) at ∷ jump_back again at ∷ [])) }
{
    put_plain(code, Opcode::Int, *step)?;
    put_placed(code, Opcode::Inc, bytes_of(width), at)?;
    put_jump_back(code, Opcode::Jump, again, at)
}

/// The addition of FOR's step, and the jump back to its test.
#[tactic(auto, using(ob_scheme::proofs::Appends::put_two))]
pub fn put_for_step<S: Scope>(
    code: &mut Code,
    scope: &S,
    variable: &Variable,
    width: Width,
    step: &i32,
    again: usize,
    at: Pos,
) -> Result<(), CodeFault>
    ensures { OnOk result (code.new ≡ appended code.old (for_place (S.context scope.now) variable.now ++ (plain Opcode.Int (Number step.now) ∷ placed Opcode.Inc (count (bytes_of width)) at ∷ jump_back again at ∷ []))) }
{
    put_for_place(code, scope, variable)?;
    put_step_back(code, width, step, again, at)
}
