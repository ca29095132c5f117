//! How many operands statements need.

ghost use Rattle.std.specs.Prelude.{◌≡◌};
ghost use Rattle.std.specs.Option.{option_map};
ghost use Rattle.ob_types.specs.TypedView.{expr_view, stmt_view, stmts_view, branches_view, cases_view};
ghost use Rattle.ob_scheme.specs.Needs.{need_result, need_stmt, need_stmts, need_branches, need_cases};
ghost use Rattle.ob_gproc_operands.specs.Capped.{capped};
ghost use Rattle.ob_gproc_operands.specs.Nowhere.{nowhere};

use crate::exprs::{operands_of_designator, operands_of_expr};
use crate::wants::{above, larger, operands_of, operands_of_labels};
use ob_scheme::{Want, want_for_source, want_for_target};
use ob_types::{TypedBranch, TypedCase, TypedExpr, TypedStmt};

fn operands_of_value(value: &Option<TypedExpr>) -> u32
    ensures { result ≡ capped (need_result nowhere (option_map expr_view value.now)) }
{
    match value {
        None => 0,
        Some(value) => operands_of_expr(Want::Value, value),
    }
}

#[cycle(need_stmt)]
#[tactic(auto, using(crate::proofs::Shapes::max_capped, crate::proofs::Shapes::above_needs, crate::proofs::Shapes::target_needs, crate::proofs::Shapes::case_needs, crate::proofs::Shapes::for_needs, crate::proofs::Shapes::case_alone, crate::proofs::Shapes::branches_alone, ob_types::proofs::TypedViews::view_case_none, ob_types::proofs::TypedViews::view_case_some, ob_types::proofs::TypedViews::view_with_none, ob_types::proofs::TypedViews::view_with_some, ob_types::proofs::TypedViews::view_assign, ob_types::proofs::TypedViews::view_call_proper, ob_types::proofs::TypedViews::view_updated, ob_types::proofs::TypedViews::view_copy, ob_types::proofs::TypedViews::view_new, ob_types::proofs::TypedViews::view_new_open_array, ob_types::proofs::TypedViews::view_assert, ob_types::proofs::TypedViews::view_halt, ob_types::proofs::TypedViews::view_if, ob_types::proofs::TypedViews::view_while, ob_types::proofs::TypedViews::view_repeat, ob_types::proofs::TypedViews::view_for, ob_types::proofs::TypedViews::view_loop, ob_types::proofs::TypedViews::view_exit, ob_types::proofs::TypedViews::view_return))]
fn operands_of_stmt(s: &TypedStmt) -> u32
    ensures { result ≡ capped (need_stmt nowhere (stmt_view s.now)) }
{
    match s {
        TypedStmt::Assign {
            target,
            assigned,
            value,
            ..
        } => {
            let want = want_for_target(assigned, target);
            let place = operands_of_designator(want, target);
            let assigns = operands_of_expr(want_for_source(assigned), value);
            larger(place, above(operands_of(want), assigns))
        }
        TypedStmt::Call(call) => operands_of_expr(Want::Value, call),
        TypedStmt::Update {
            target,
            operand,
            ..
        } => {
            let place = operands_of_designator(Want::Place, target);
            larger(place, above(1, operands_of_expr(Want::Value, operand)))
        }
        TypedStmt::Copy { source, target, .. } => {
            let from = operands_of_expr(Want::PlaceAndLength, source);
            let to = operands_of_designator(Want::PlaceAndLength, target);
            larger(from, above(2, to))
        }
        TypedStmt::New { target, .. } => operands_of_designator(Want::Place, target),
        TypedStmt::NewOpenArray { target, length, .. } => {
            let place = operands_of_designator(Want::Place, target);
            larger(place, above(1, operands_of_expr(Want::Value, length)))
        }
        TypedStmt::Assert { condition, .. } => operands_of_expr(Want::Value, condition),
        TypedStmt::Halt { .. } => 0,
        TypedStmt::If {
            branches,
            otherwise,
        } => {
            let all = operands_of_branches(branches.as_slice());
            larger(all, operands_of_stmts(otherwise.as_slice()))
        }
        TypedStmt::Case {
            value,
            cases,
            otherwise,
            ..
        } => {
            let tested = operands_of_expr(Want::Value, value);
            let all = operands_of_cases(cases.as_slice());
            match otherwise {
                None => larger(above(1, tested), larger(all, 0)),
                Some(body) => {
                    let last = operands_of_stmts(body.as_slice());
                    larger(above(1, tested), larger(all, last))
                }
            }
        }
        TypedStmt::While { test, body, .. } => {
            let tested = operands_of_expr(Want::Value, test);
            larger(tested, operands_of_stmts(body.as_slice()))
        }
        TypedStmt::Repeat { body, test, .. } => {
            let repeated = operands_of_stmts(body.as_slice());
            larger(repeated, operands_of_expr(Want::Value, test))
        }
        TypedStmt::For {
            start,
            end,
            body,
            ..
        } => {
            let last = operands_of_expr(Want::Value, end);
            let first = operands_of_expr(Want::Value, start);
            let repeated = operands_of_stmts(body.as_slice());
            larger(above(1, last), larger(above(1, first), larger(2, repeated)))
        }
        TypedStmt::Loop { body, .. } => operands_of_stmts(body.as_slice()),
        TypedStmt::Exit => 0,
        TypedStmt::Return(value) => operands_of_value(value),
        TypedStmt::With {
            branches,
            otherwise,
            ..
        } => {
            let all = operands_of_branches(branches.as_slice());
            match otherwise {
                None => all,
                Some(body) => larger(all, operands_of_stmts(body.as_slice())),
            }
        }
    }
}

/// How many operands stand at most while the code of statements runs; more than 256 are answered as 257. Takes no memory.
#[cycle(need_stmt)]
pub fn operands_of_stmts(body: &[TypedStmt]) -> u32
    ensures { result ≡ capped (need_stmts nowhere (stmts_view body.now)) }
{
    let mut need = 0;
    'statements: for s in body {
        need = larger(need, operands_of_stmt(s));
    }
    need
}

#[cycle(need_stmt)]
fn operands_of_branches(branches: &[TypedBranch]) -> u32
    ensures { result ≡ capped (need_branches nowhere (branches_view branches.now)) }
{
    let mut need = 0;
    'branches: for branch in branches {
        let tested = operands_of_expr(Want::Value, &branch.test);
        let done = operands_of_stmts(branch.body.as_slice());
        need = larger(larger(need, tested), done);
    }
    need
}

#[cycle(need_stmt)]
fn operands_of_cases(cases: &[TypedCase]) -> u32
    ensures { result ≡ capped (need_cases nowhere (cases_view cases.now)) }
{
    let mut need = 0;
    'cases: for case in cases {
        let tested = operands_of_labels(case.labels.as_slice());
        let done = operands_of_stmts(case.body.as_slice());
        need = larger(larger(need, tested), done);
    }
    need
}
