//! What a statement uses.

ghost use Rattle.std.specs.Prelude.{◌≡◌, ◌∷◌, [], ◌++◌, OnOk};
ghost use Rattle.std.specs.Option.{option_map};
ghost use Rattle.ob_types.specs.TypedKinds.{variable_type};
ghost use Rattle.ob_types.specs.TypedView.{designator_view, expr_view, stmt_view, stmts_view, branches_view, cases_view};
ghost use Rattle.ob_uses_roots.specs.Counts.{target_counts, made_counts, counts_of_optional, counts_of, counts_of_all, counts_of_branches, counts_of_cases, counts_of_expr};
ghost use Rattle.ob_uses_roots.specs.Noted.{noted};

use crate::exprs::{count_designator, count_expr};
use crate::noted::Noted;
use crate::notes::note_layout;
use ob_types::{Assigned, Designator, Made, TypeRef, TypedBranch, TypedCase, TypedExpr, TypedStmt};
use std::alloc::{AllocError, Global};

#[tactic(auto, using(ob_types::proofs::TypedViews::view_variable, ob_types::proofs::TypedViews::view_field, ob_types::proofs::TypedViews::view_index, ob_types::proofs::TypedViews::view_deref, ob_types::proofs::TypedViews::view_guard))]
fn type_of(d: &Designator) -> &TypeRef
    ensures { result.now ≡ variable_type (designator_view d.now) }
{
    match d {
        Designator::Variable { of, .. } => of,
        Designator::Field { of, .. } => of,
        Designator::Index { of, .. } => of,
        Designator::Deref { of, .. } => of,
        Designator::Guard { of, .. } => of,
    }
}

// The layout of the target counts where a structured value is assigned.
#[tactic(auto, using(crate::proofs::Parting::note_none))]
fn note_target(found: &mut Noted, assigned: &Assigned, t: &TypeRef) -> Result<(), AllocError>
    ensures { OnOk result (found.new ≡ noted found.old (target_counts assigned.now t.now)) }
{
    match assigned {
        Assigned::Scalar => Ok(()),
        Assigned::Text => note_layout(found, t),
        Assigned::Array => note_layout(found, t),
        Assigned::Record(_) => note_layout(found, t),
    }
}

// The layout of the elements counts where NEW makes an array.
#[tactic(auto, using(crate::proofs::Parting::note_none))]
fn note_made(found: &mut Noted, made: &Made) -> Result<(), AllocError>
    ensures { OnOk result (found.new ≡ noted found.old (made_counts made.now)) }
{
    match made {
        Made::Record(_) => Ok(()),
        Made::Array(t) => note_layout(found, t),
    }
}

#[tactic(auto, using(crate::proofs::Parting::note_none))]
fn count_optional(alloc: Global, found: &mut Noted, e: &Option<TypedExpr>) -> Result<(), AllocError>
    ensures { OnOk result (found.new ≡ noted found.old (counts_of_optional (option_map expr_view e.now))) }
{
    match e {
        None => Ok(()),
        Some(value) => count_expr(alloc, found, value),
    }
}

/// What a statement counts.
#[cycle(count_stmt)]
#[tactic(auto, using(crate::proofs::Parting::note_none, crate::proofs::Parting::note_two, crate::proofs::Parting::note_three, crate::proofs::Parting::note_one_none, crate::proofs::Parting::note_two_none, ob_types::proofs::TypedViews::view_case_none, ob_types::proofs::TypedViews::view_case_some, ob_types::proofs::TypedViews::view_with_none, ob_types::proofs::TypedViews::view_with_some, ob_types::proofs::TypedViews::view_assign, ob_types::proofs::TypedViews::view_call_proper, ob_types::proofs::TypedViews::view_updated, ob_types::proofs::TypedViews::view_copy, ob_types::proofs::TypedViews::view_new, ob_types::proofs::TypedViews::view_new_open_array, ob_types::proofs::TypedViews::view_assert, ob_types::proofs::TypedViews::view_halt, ob_types::proofs::TypedViews::view_if, ob_types::proofs::TypedViews::view_while, ob_types::proofs::TypedViews::view_repeat, ob_types::proofs::TypedViews::view_for, ob_types::proofs::TypedViews::view_loop, ob_types::proofs::TypedViews::view_exit, ob_types::proofs::TypedViews::view_return))]
fn count_stmt(alloc: Global, found: &mut Noted, s: &TypedStmt) -> Result<(), AllocError>
    ensures { OnOk result (found.new ≡ noted found.old (counts_of (stmt_view s.now))) }
{
    match s {
        TypedStmt::Assign {
            target,
            assigned,
            value,
            ..
        } => {
            count_designator(alloc, found, target)?;
            count_expr(alloc, found, value)?;
            note_target(found, assigned, type_of(target))
        }
        TypedStmt::Call(e) => count_expr(alloc, found, e),
        TypedStmt::Update {
            target,
            operand,
            ..
        } => {
            count_designator(alloc, found, target)?;
            count_expr(alloc, found, operand)
        }
        TypedStmt::Copy { source, target, .. } => {
            count_expr(alloc, found, source)?;
            count_designator(alloc, found, target)
        }
        TypedStmt::New { target, made, .. } => {
            count_designator(alloc, found, target)?;
            note_made(found, made)
        }
        TypedStmt::NewOpenArray {
            target,
            element,
            length,
            ..
        } => {
            count_designator(alloc, found, target)?;
            count_expr(alloc, found, length)?;
            note_layout(found, element)
        }
        TypedStmt::Assert { condition, .. } => count_expr(alloc, found, condition),
        TypedStmt::Halt { .. } => Ok(()),
        TypedStmt::If {
            branches,
            otherwise,
        } => {
            count_branches(alloc, found, branches.as_slice())?;
            count_stmts(alloc, found, otherwise.as_slice())
        }
        TypedStmt::Case {
            value,
            cases,
            otherwise,
            ..
        } => {
            count_expr(alloc, found, value)?;
            count_cases(alloc, found, cases.as_slice())?;
            match otherwise {
                None => Ok(()),
                Some(body) => count_stmts(alloc, found, body.as_slice()),
            }
        }
        TypedStmt::While { test, body, .. } => {
            count_expr(alloc, found, test)?;
            count_stmts(alloc, found, body.as_slice())
        }
        TypedStmt::Repeat { body, test, .. } => {
            count_stmts(alloc, found, body.as_slice())?;
            count_expr(alloc, found, test)
        }
        TypedStmt::For {
            start,
            end,
            body,
            ..
        } => {
            count_expr(alloc, found, start)?;
            count_expr(alloc, found, end)?;
            count_stmts(alloc, found, body.as_slice())
        }
        TypedStmt::Loop { body, .. } => count_stmts(alloc, found, body.as_slice()),
        TypedStmt::Exit => Ok(()),
        TypedStmt::Return(e) => count_optional(alloc, found, e),
        TypedStmt::With {
            branches,
            otherwise,
            ..
        } => {
            count_branches(alloc, found, branches.as_slice())?;
            match otherwise {
                None => Ok(()),
                Some(body) => count_stmts(alloc, found, body.as_slice()),
            }
        }
    }
}

/// What the statements count.
#[cycle(count_stmt)]
pub fn count_stmts(alloc: Global, found: &mut Noted, body: &[TypedStmt]) -> Result<(), AllocError>
    ensures { OnOk result (found.new ≡ noted found.old (counts_of_all (stmts_view body.now))) }
{
    'statements: for s in body {
        count_stmt(alloc, found, s)?;
    }
    Ok(())
}

#[cycle(count_stmt)]
#[tactic(auto, using(crate::proofs::Parting::note_two))]
fn count_branch(alloc: Global, found: &mut Noted, branch: &TypedBranch) -> Result<(), AllocError>
    ensures { OnOk result (found.new ≡ noted found.old (counts_of_expr (expr_view branch.now.test) ++ counts_of_all (stmts_view branch.now.body))) }
{
    count_expr(alloc, found, &branch.test)?;
    count_stmts(alloc, found, branch.body.as_slice())
}

#[cycle(count_stmt)]
fn count_branches(
    alloc: Global,
    found: &mut Noted,
    branches: &[TypedBranch],
) -> Result<(), AllocError>
    ensures { OnOk result (found.new ≡ noted found.old (counts_of_branches (branches_view branches.now))) }
{
    'branches: for branch in branches {
        count_branch(alloc, found, branch)?;
    }
    Ok(())
}

#[cycle(count_stmt)]
fn count_cases(alloc: Global, found: &mut Noted, cases: &[TypedCase]) -> Result<(), AllocError>
    ensures { OnOk result (found.new ≡ noted found.old (counts_of_cases (cases_view cases.now))) }
{
    'cases: for case in cases {
        count_stmts(alloc, found, case.body.as_slice())?;
    }
    Ok(())
}
