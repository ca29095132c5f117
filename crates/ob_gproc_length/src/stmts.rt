//! How many lines the code of statements has.

ghost use Rattle.std.specs.Prelude.{◌≡◌, ◌+◌, ◌*◌, length};
ghost use Rattle.std.specs.Option.{option_map};
ghost use Rattle.ob_types.specs.TypedView.{expr_view, stmt_view, stmts_view, branches_view, cases_view};
ghost use Rattle.ob_scheme.specs.declared.want.Want.TheVariants as want;
ghost use Rattle.ob_gproc_length.specs.Lengths.{capped, expr_lines, result_lines, stmt_lines, stmts_lines, branches_lines, cases_lines};

use crate::exprs::{lines_of_designator, lines_of_expr};
use crate::pieces::{for_size, lines_of_labels, more};
use ob_scheme::{Want, want_for_source, want_for_target};
use ob_types::{TypedBranch, TypedCase, TypedExpr, TypedStmt, Types};

#[tactic(auto, using(crate::proofs::Shapes::one))]
fn lines_of_result<T: Types>(types: &T, value: &Option<TypedExpr>) -> usize
    ensures { result ≡ capped (result_lines (T.types types.now) (option_map expr_view value.now)) }
{
    match value {
        None => 1,
        Some(value) => {
            let lines = lines_of_expr(types, Want::Value, value);
            more(lines, 1)
        }
    }
}

#[cycle(stmt_lines)]
#[tactic(auto, using(crate::proofs::Shapes::one, crate::proofs::Shapes::two, crate::proofs::Shapes::three, crate::proofs::Shapes::parts, ob_scheme::proofs::Views::view_case, ob_scheme::proofs::Views::view_with, ob_types::proofs::TypedViews::view_assign, ob_types::proofs::TypedViews::view_call_proper, ob_types::proofs::TypedViews::view_updated, ob_types::proofs::TypedViews::view_copy, ob_types::proofs::TypedViews::view_new, ob_types::proofs::TypedViews::view_new_open_array, ob_types::proofs::TypedViews::view_assert, ob_types::proofs::TypedViews::view_halt, ob_types::proofs::TypedViews::view_if, ob_types::proofs::TypedViews::view_while, ob_types::proofs::TypedViews::view_repeat, ob_types::proofs::TypedViews::view_for, ob_types::proofs::TypedViews::view_loop, ob_types::proofs::TypedViews::view_exit, ob_types::proofs::TypedViews::view_return))]
fn lines_of_stmt<T: Types>(types: &T, s: &TypedStmt) -> usize
    ensures { result ≡ capped (stmt_lines (T.types types.now) (stmt_view s.now)) }
{
    match s {
        TypedStmt::Assign {
            target,
            assigned,
            value,
            ..
        } => {
            let place = lines_of_designator(types, want_for_target(assigned, target), target);
            let source = lines_of_expr(types, want_for_source(assigned), value);
            more(place, more(source, 1))
        }
        TypedStmt::Call(call) => lines_of_expr(types, Want::Value, call),
        TypedStmt::Update {
            target,
            operand,
            ..
        } => {
            let place = lines_of_designator(types, Want::Place, target);
            let value = lines_of_expr(types, Want::Value, operand);
            more(place, more(value, 1))
        }
        TypedStmt::Copy { source, target, .. } => {
            let from = lines_of_expr(types, Want::PlaceAndLength, source);
            let to = lines_of_designator(types, Want::PlaceAndLength, target);
            more(from, more(to, 1))
        }
        TypedStmt::New { target, .. } => {
            let place = lines_of_designator(types, Want::Place, target);
            more(place, 1)
        }
        TypedStmt::NewOpenArray { target, length, .. } => {
            let place = lines_of_designator(types, Want::Place, target);
            let count = lines_of_expr(types, Want::Value, length);
            more(place, more(count, 1))
        }
        TypedStmt::Assert { condition, .. } => {
            let tested = lines_of_expr(types, Want::Value, condition);
            more(tested, 1)
        }
        TypedStmt::Halt { .. } => 1,
        TypedStmt::If {
            branches,
            otherwise,
        } => {
            let all = lines_of_branches(types, branches.as_slice());
            let last = lines_of_stmts(types, otherwise.as_slice());
            more(all, last)
        }
        TypedStmt::Case {
            value,
            cases,
            otherwise,
            ..
        } => {
            let tested = lines_of_expr(types, Want::Value, value);
            let all = lines_of_cases(types, cases.as_slice());
            match otherwise {
                None => more(tested, more(all, 3)),
                Some(body) => {
                    let last = lines_of_stmts(types, body.as_slice());
                    more(tested, more(all, more(last, 2)))
                }
            }
        }
        TypedStmt::While { test, body, .. } => {
            let tested = lines_of_expr(types, Want::Value, test);
            let repeated = lines_of_stmts(types, body.as_slice());
            more(tested, more(repeated, 2))
        }
        TypedStmt::Repeat { body, test, .. } => {
            let repeated = lines_of_stmts(types, body.as_slice());
            let tested = lines_of_expr(types, Want::Value, test);
            more(repeated, more(tested, 1))
        }
        TypedStmt::For {
            variable,
            start,
            end,
            body,
            ..
        } => {
            let last = lines_of_expr(types, Want::Value, end);
            let first = lines_of_expr(types, Want::Value, start);
            let repeated = lines_of_stmts(types, body.as_slice());
            more(last, more(first, more(repeated, for_size(variable))))
        }
        TypedStmt::Loop { body, .. } => {
            let repeated = lines_of_stmts(types, body.as_slice());
            more(repeated, 1)
        }
        TypedStmt::Exit => 1,
        TypedStmt::Return(value) => lines_of_result(types, value),
        TypedStmt::With {
            branches,
            otherwise,
            ..
        } => {
            let all = lines_of_branches(types, branches.as_slice());
            match otherwise {
                None => more(all, 1),
                Some(body) => {
                    let last = lines_of_stmts(types, body.as_slice());
                    more(all, last)
                }
            }
        }
    }
}

/// How many lines the code of statements has; more than 262,144 are answered as 262,145. Takes no
/// memory.
#[cycle(stmt_lines)]
pub fn lines_of_stmts<T: Types>(types: &T, body: &[TypedStmt]) -> usize
    ensures { result ≡ capped (stmts_lines (T.types types.now) (stmts_view body.now)) }
{
    let mut lines = 0;
    'statements: for s in body {
        lines = more(lines, lines_of_stmt(types, s));
    }
    lines
}

#[cycle(stmt_lines)]
#[tactic(auto, using(crate::proofs::Shapes::two))]
fn lines_of_branch<T: Types>(types: &T, branch: &TypedBranch) -> usize
    ensures { result ≡ capped (expr_lines (T.types types.now) want.Value (expr_view branch.now.test) + (stmts_lines (T.types types.now) (stmts_view branch.now.body) + 2)) }
{
    let tested = lines_of_expr(types, Want::Value, &branch.test);
    let done = lines_of_stmts(types, branch.body.as_slice());
    more(tested, more(done, 2))
}

#[cycle(stmt_lines)]
fn lines_of_branches<T: Types>(types: &T, branches: &[TypedBranch]) -> usize
    ensures { result ≡ capped (branches_lines (T.types types.now) (branches_view branches.now)) }
{
    let mut lines = 0;
    'branches: for branch in branches {
        lines = more(lines, lines_of_branch(types, branch));
    }
    lines
}

#[cycle(stmt_lines)]
#[tactic(auto, using(crate::proofs::Shapes::two))]
fn lines_of_case<T: Types>(types: &T, labelled: &TypedCase) -> usize
    ensures { result ≡ capped (11 * length labelled.now.labels + (stmts_lines (T.types types.now) (stmts_view labelled.now.body) + 2)) }
{
    let tested = lines_of_labels(labelled.labels.as_slice());
    let done = lines_of_stmts(types, labelled.body.as_slice());
    more(tested, more(done, 2))
}

#[cycle(stmt_lines)]
fn lines_of_cases<T: Types>(types: &T, cases: &[TypedCase]) -> usize
    ensures { result ≡ capped (cases_lines (T.types types.now) (cases_view cases.now)) }
{
    let mut lines = 0;
    'cases: for labelled in cases {
        lines = more(lines, lines_of_case(types, labelled));
    }
    lines
}
