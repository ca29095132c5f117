//! Where the code of statements ends.

ghost use Rattle.std.specs.Prelude.{◌≡◌, ◌+◌, suc, IfOk};
ghost use Rattle.std.specs.Option.{option_map};
ghost use Rattle.ob_types.specs.TypedView.{expr_view, stmt_view, stmts_view, branches_view, cases_view};
ghost use Rattle.ob_scheme.specs.declared.want.Want.TheVariants as want;
ghost use Rattle.ob_scheme.specs.Context.{Context};
ghost use Rattle.ob_scheme.specs.Expressions.{end_expr};
ghost use Rattle.ob_scheme.specs.Statements.{end_labels, end_result, end_stmt, end_stmts, end_branches, end_cases, end_for_test, end_for_step};
ghost use Rattle.ob_gstmt_labels.specs.Sizes.{end_for_head};

use crate::exprs::{end_designator, end_expr};
use crate::sizes::{behind_labels, further, variable_size};
use ob_gexpr_code::{CodeFault, Scope};
use ob_scheme::{Want, want_for_source, want_for_target};
use ob_types::{Label, TypedBranch, TypedCase, TypedExpr, TypedStmt, Variable};

fn end_labels<S: Scope>(scope: &S, labels: &[Label], pc: usize) -> Result<usize, CodeFault>
    ensures { IfOk result (λ n. n ≡ end_labels (S.context scope.now) labels.now pc) }
{
    let _scope = scope;
    behind_labels(pc, labels.len())
}

fn end_result<S: Scope>(scope: &S, value: &Option<TypedExpr>, pc: usize) -> Result<usize, CodeFault>
    ensures { IfOk result (λ n. n ≡ end_result (S.context scope.now) (option_map expr_view value.now) pc) }
{
    match value {
        None => further(pc, 1),
        Some(e) => {
            let end = end_expr(scope, Want::Value, e, pc)?;
            further(end, 1)
        }
    }
}

// Behind the test of FOR.
#[tactic(auto, using(crate::proofs::Behinds::variable_behind))]
fn end_for_test<S: Scope>(scope: &S, variable: &Variable, pc: usize) -> Result<usize, CodeFault>
    ensures { IfOk result (λ n. n ≡ end_for_test (S.context scope.now) variable.now pc) }
{
    let _scope = scope;
    further(pc, variable_size(Want::Value, variable) + 4)
}

// Behind the addition of FOR.
#[tactic(auto, using(crate::proofs::Behinds::variable_behind))]
fn end_for_step<S: Scope>(scope: &S, variable: &Variable, pc: usize) -> Result<usize, CodeFault>
    ensures { IfOk result (λ n. n ≡ end_for_step (S.context scope.now) variable.now pc) }
{
    let _scope = scope;
    further(pc, variable_size(Want::Place, variable) + 2)
}

// Behind the value of CASE and its store.
fn end_choice<S: Scope>(scope: &S, value: &TypedExpr, pc: usize) -> Result<usize, CodeFault>
    ensures { IfOk result (λ n. n ≡ suc (end_expr (S.context scope.now) want.Value (expr_view value.now) (suc pc))) }
{
    let start = further(pc, 1)?;
    let end = end_expr(scope, Want::Value, value, start)?;
    further(end, 1)
}

// Behind the end, the start and the test of FOR.
#[tactic(auto, using(crate::proofs::For::for_head_ends))]
fn end_for_head<S: Scope>(
    scope: &S,
    variable: &Variable,
    start: &TypedExpr,
    limit: &TypedExpr,
    pc: usize,
) -> Result<usize, CodeFault>
    ensures { IfOk result (λ n. n ≡ end_for_head (S.context scope.now) variable.now (expr_view start.now) (expr_view limit.now) pc) }
{
    let first = further(pc, 1)?;
    let limited = end_expr(scope, Want::Value, limit, first)?;
    let placed = further(limited, variable_size(Want::Place, variable) + 1)?;
    let begun = end_expr(scope, Want::Value, start, placed)?;
    let again = further(begun, 1)?;
    end_for_test(scope, variable, again)
}

/// The index behind the code of a statement that begins at an index, with the faults of
/// `end_designator`.
#[cycle(end_stmt)]
#[tactic(auto, using(ob_scheme::proofs::Views::view_case, ob_scheme::proofs::Views::view_with, ob_types::proofs::TypedViews::view_assign, ob_types::proofs::TypedViews::view_call_proper, ob_types::proofs::TypedViews::view_updated, ob_types::proofs::TypedViews::view_copy, ob_types::proofs::TypedViews::view_new, ob_types::proofs::TypedViews::view_new_open_array, ob_types::proofs::TypedViews::view_assert, ob_types::proofs::TypedViews::view_halt, ob_types::proofs::TypedViews::view_if, ob_types::proofs::TypedViews::view_while, ob_types::proofs::TypedViews::view_repeat, ob_types::proofs::TypedViews::view_for, ob_types::proofs::TypedViews::view_loop, ob_types::proofs::TypedViews::view_exit, ob_types::proofs::TypedViews::view_return))]
pub fn end_stmt<S: Scope>(scope: &S, s: &TypedStmt, pc: usize) -> Result<usize, CodeFault>
    ensures { IfOk result (λ n. n ≡ end_stmt (S.context scope.now) (stmt_view s.now) pc) }
{
    match s {
        TypedStmt::Assign {
            target,
            assigned,
            value,
            ..
        } => {
            let place = end_designator(scope, want_for_target(assigned, target), target, pc)?;
            let end = end_expr(scope, want_for_source(assigned), value, place)?;
            further(end, 1)
        }
        TypedStmt::Call(call) => end_expr(scope, Want::Value, call, pc),
        TypedStmt::Update {
            target,
            operand,
            ..
        } => {
            let place = end_designator(scope, Want::Place, target, pc)?;
            let end = end_expr(scope, Want::Value, operand, place)?;
            further(end, 1)
        }
        TypedStmt::Copy { source, target, .. } => {
            let middle = end_expr(scope, Want::PlaceAndLength, source, pc)?;
            let end = end_designator(scope, Want::PlaceAndLength, target, middle)?;
            further(end, 1)
        }
        TypedStmt::New { target, .. } => {
            let end = end_designator(scope, Want::Place, target, pc)?;
            further(end, 1)
        }
        TypedStmt::NewOpenArray { target, length, .. } => {
            let place = end_designator(scope, Want::Place, target, pc)?;
            let end = end_expr(scope, Want::Value, length, place)?;
            further(end, 1)
        }
        TypedStmt::Assert { condition, .. } => {
            let end = end_expr(scope, Want::Value, condition, pc)?;
            further(end, 1)
        }
        TypedStmt::Halt { .. } => further(pc, 1),
        TypedStmt::If {
            branches,
            otherwise,
        } => {
            let middle = end_branches(scope, branches.as_slice(), pc)?;
            end_stmts(scope, otherwise.as_slice(), middle)
        }
        TypedStmt::Case {
            value,
            cases,
            otherwise,
            ..
        } => {
            let chosen = end_choice(scope, value, pc)?;
            let middle = end_cases(scope, cases.as_slice(), chosen)?;
            match otherwise {
                None => further(middle, 1),
                Some(body) => end_stmts(scope, body.as_slice(), middle),
            }
        }
        TypedStmt::While { test, body, .. } => {
            let tested = end_expr(scope, Want::Value, test, pc)?;
            let start = further(tested, 1)?;
            let end = end_stmts(scope, body.as_slice(), start)?;
            further(end, 1)
        }
        TypedStmt::Repeat { body, test, .. } => {
            let middle = end_stmts(scope, body.as_slice(), pc)?;
            let end = end_expr(scope, Want::Value, test, middle)?;
            further(end, 1)
        }
        TypedStmt::For {
            variable,
            start,
            end,
            body,
            ..
        } => {
            let tested = end_for_head(scope, variable, start, end, pc)?;
            let done = end_stmts(scope, body.as_slice(), tested)?;
            let stepped = end_for_step(scope, variable, done)?;
            further(stepped, 1)
        }
        TypedStmt::Loop { body, .. } => {
            let end = end_stmts(scope, body.as_slice(), pc)?;
            further(end, 1)
        }
        TypedStmt::Exit => further(pc, 1),
        TypedStmt::Return(value) => end_result(scope, value, pc),
        TypedStmt::With {
            branches,
            otherwise,
            ..
        } => {
            let middle = end_branches(scope, branches.as_slice(), pc)?;
            match otherwise {
                None => further(middle, 1),
                Some(body) => end_stmts(scope, body.as_slice(), middle),
            }
        }
    }
}

/// The index behind the code of statements that begins at an index, with the faults of
/// `end_designator`.
#[cycle(end_stmt)]
pub fn end_stmts<S: Scope>(scope: &S, body: &[TypedStmt], pc: usize) -> Result<usize, CodeFault>
    ensures { IfOk result (λ n. n ≡ end_stmts (S.context scope.now) (stmts_view body.now) pc) }
{
    let mut end = pc;
    'statements: for s in body {
        end = end_stmt(scope, s, end)?;
    }
    Ok(end)
}

#[cycle(end_stmt)]
fn end_branch<S: Scope>(scope: &S, branch: &TypedBranch, pc: usize) -> Result<usize, CodeFault>
    ensures { IfOk result (λ n. n ≡ suc (end_stmts (S.context scope.now) (stmts_view branch.now.body) (suc (end_expr (S.context scope.now) want.Value (expr_view branch.now.test) pc)))) }
{
    let tested = end_expr(scope, Want::Value, &branch.test, pc)?;
    let start = further(tested, 1)?;
    let end = end_stmts(scope, branch.body.as_slice(), start)?;
    further(end, 1)
}

#[cycle(end_stmt)]
fn end_branches<S: Scope>(
    scope: &S,
    branches: &[TypedBranch],
    pc: usize,
) -> Result<usize, CodeFault>
    ensures { IfOk result (λ n. n ≡ end_branches (S.context scope.now) (branches_view branches.now) pc) }
{
    let mut end = pc;
    'branches: for branch in branches {
        end = end_branch(scope, branch, end)?;
    }
    Ok(end)
}

#[cycle(end_stmt)]
fn end_case<S: Scope>(scope: &S, labelled: &TypedCase, pc: usize) -> Result<usize, CodeFault>
    ensures { IfOk result (λ n. n ≡ suc (end_stmts (S.context scope.now) (stmts_view labelled.now.body) (suc (end_labels (S.context scope.now) labelled.now.labels pc)))) }
{
    let tested = end_labels(scope, labelled.labels.as_slice(), pc)?;
    let start = further(tested, 1)?;
    let end = end_stmts(scope, labelled.body.as_slice(), start)?;
    further(end, 1)
}

#[cycle(end_stmt)]
fn end_cases<S: Scope>(scope: &S, cases: &[TypedCase], pc: usize) -> Result<usize, CodeFault>
    ensures { IfOk result (λ n. n ≡ end_cases (S.context scope.now) (cases_view cases.now) pc) }
{
    let mut end = pc;
    'cases: for labelled in cases {
        end = end_case(scope, labelled, end)?;
    }
    Ok(end)
}
