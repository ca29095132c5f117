//! Strings of statements that are used as arrays.

ghost use Rattle.std.specs.Prelude.{◌≡◌, ◌++◌, OnOk, IfOk};
ghost use Rattle.std.specs.List.{flat_map};
ghost use Rattle.ob_types.specs.TypedView.{stmt_view, stmts_view, branches_view, cases_view, module_view};
ghost use Rattle.ob_layout.specs.Texts.{texts_of, texts_of_all, texts_of_branches, texts_of_cases, texts_of_module as texts_in};
ghost use Rattle.ob_layout.specs.Used.{used, counted};

use crate::texts::{UsedText, texts_of_expression, texts_of_place};
use ob_tree::List;
use ob_types::{TypedBranch, TypedCase, TypedModule, TypedProcedure, TypedStmt, Types};
use std::alloc::{AllocError, Global};

#[cycle(statements)]
#[tactic(auto, using(crate::proofs::UsedTexts::statements))]
fn texts_in_stmt<T: Types>(
    alloc: Global,
    types: &T,
    out: &mut List<UsedText>,
    s: &TypedStmt,
) -> Result<(), AllocError>
    ensures { OnOk result (used out.new ≡ used out.old ++ texts_of (counted (T.types types.now)) (stmt_view s.now)) }
{
    match s {
        TypedStmt::Assign { target, value, .. } => {
            texts_of_place(alloc, types, out, target)?;
            texts_of_expression(alloc, types, out, value)
        }
        TypedStmt::Call(call) => texts_of_expression(alloc, types, out, call),
        TypedStmt::Update {
            target,
            operand,
            ..
        } => {
            texts_of_place(alloc, types, out, target)?;
            texts_of_expression(alloc, types, out, operand)
        }
        TypedStmt::Copy { source, target, .. } => {
            texts_of_expression(alloc, types, out, source)?;
            texts_of_place(alloc, types, out, target)
        }
        TypedStmt::New { target, .. } => texts_of_place(alloc, types, out, target),
        TypedStmt::NewOpenArray { target, length, .. } => {
            texts_of_place(alloc, types, out, target)?;
            texts_of_expression(alloc, types, out, length)
        }
        TypedStmt::Assert { condition, .. } => texts_of_expression(alloc, types, out, condition),
        TypedStmt::Halt { .. } => Ok(()),
        TypedStmt::If {
            branches,
            otherwise,
        } => {
            texts_in_branches(alloc, types, out, branches.as_slice())?;
            texts_in_body(alloc, types, out, otherwise.as_slice())
        }
        TypedStmt::Case {
            value,
            cases,
            otherwise,
            ..
        } => {
            texts_of_expression(alloc, types, out, value)?;
            texts_in_cases(alloc, types, out, cases.as_slice())?;
            match otherwise {
                None => Ok(()),
                Some(body) => texts_in_body(alloc, types, out, body.as_slice()),
            }
        }
        TypedStmt::While { test, body, .. } => {
            texts_of_expression(alloc, types, out, test)?;
            texts_in_body(alloc, types, out, body.as_slice())
        }
        TypedStmt::Repeat { body, test, .. } => {
            texts_in_body(alloc, types, out, body.as_slice())?;
            texts_of_expression(alloc, types, out, test)
        }
        TypedStmt::For {
            start,
            end,
            body,
            ..
        } => {
            texts_of_expression(alloc, types, out, end)?;
            texts_of_expression(alloc, types, out, start)?;
            texts_in_body(alloc, types, out, body.as_slice())
        }
        TypedStmt::Loop { body, .. } => texts_in_body(alloc, types, out, body.as_slice()),
        TypedStmt::Exit => Ok(()),
        TypedStmt::Return(value) => match value {
            None => Ok(()),
            Some(value) => texts_of_expression(alloc, types, out, value),
        },
        TypedStmt::With {
            branches,
            otherwise,
            ..
        } => {
            texts_in_branches(alloc, types, out, branches.as_slice())?;
            match otherwise {
                None => Ok(()),
                Some(body) => texts_in_body(alloc, types, out, body.as_slice()),
            }
        }
    }
}

#[cycle(statements)]
fn texts_in_body<T: Types>(
    alloc: Global,
    types: &T,
    out: &mut List<UsedText>,
    body: &[TypedStmt],
) -> Result<(), AllocError>
    ensures { OnOk result (used out.new ≡ used out.old ++ texts_of_all (counted (T.types types.now)) (stmts_view body.now)) }
{
    'statements: for s in body {
        texts_in_stmt(alloc, types, out, s)?;
    }
    Ok(())
}

#[cycle(statements)]
fn texts_in_branches<T: Types>(
    alloc: Global,
    types: &T,
    out: &mut List<UsedText>,
    branches: &[TypedBranch],
) -> Result<(), AllocError>
    ensures { OnOk result (used out.new ≡ used out.old ++ texts_of_branches (counted (T.types types.now)) (branches_view branches.now)) }
{
    'branches: for branch in branches {
        texts_of_expression(alloc, types, out, &branch.test)?;
        texts_in_body(alloc, types, out, branch.body.as_slice())?;
    }
    Ok(())
}

#[cycle(statements)]
fn texts_in_cases<T: Types>(
    alloc: Global,
    types: &T,
    out: &mut List<UsedText>,
    cases: &[TypedCase],
) -> Result<(), AllocError>
    ensures { OnOk result (used out.new ≡ used out.old ++ texts_of_cases (counted (T.types types.now)) (cases_view cases.now)) }
{
    'cases: for case in cases {
        texts_in_body(alloc, types, out, case.body.as_slice())?;
    }
    Ok(())
}

fn texts_in_procedure<T: Types>(
    alloc: Global,
    types: &T,
    out: &mut List<UsedText>,
    procedure: &TypedProcedure,
) -> Result<(), AllocError>
    ensures { OnOk result (used out.new ≡ used out.old ++ texts_of_all (counted (T.types types.now)) (stmts_view procedure.now.body)) }
{
    texts_in_body(alloc, types, out, procedure.body.as_slice())
}

fn texts_in_procedures<T: Types>(
    alloc: Global,
    types: &T,
    out: &mut List<UsedText>,
    procedures: &[TypedProcedure],
) -> Result<(), AllocError>
    ensures { OnOk result (used out.new ≡ used out.old ++ flat_map (λ p. texts_of_all (counted (T.types types.now)) (stmts_view p.body)) procedures.now) }
{
    'procedures: for procedure in procedures {
        texts_in_procedure(alloc, types, out, procedure)?;
    }
    Ok(())
}

/// The strings that a module uses as arrays, with their words by the descriptions of types, in the
/// order of the code: those of its body, then those of its procedures.
#[tactic(auto, using(crate::proofs::UsedTexts::procedures_viewed, crate::proofs::UsedTexts::statements))]
pub fn texts_of_module<T: Types>(
    alloc: Global,
    types: &T,
    module: &TypedModule,
) -> Result<List<UsedText>, AllocError>
    ensures { IfOk result (λ us. used us ≡ texts_in (counted (T.types types.now)) (module_view «module».now)) }
{
    let mut out = List::new(alloc);
    texts_in_body(alloc, types, &mut out, module.body.as_slice())?;
    texts_in_procedures(alloc, types, &mut out, module.procedures.as_slice())?;
    Ok(out)
}
