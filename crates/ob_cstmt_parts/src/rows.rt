//! Rows of what is made, where each part is sound.

ghost use Rattle.std.specs.Prelude.{◌≡◌, Some, IfOk, OnOk};
ghost use Rattle.std.specs.Option.{option_map};
ghost use Rattle.ob_rules.specs.Statements as spec;
ghost use Rattle.ob_cstmt_parts.specs.Seen.{branch_of, branches_in, case_of, cases_in, else_in, expr_in, rejoined, stmt_in, stmts_in, singly};

use ob_tree::List;
use ob_types::Label;
use ob_types_trees::{BranchTrees, CaseTrees, ExprTree, StmtTree, StmtTrees};
use std::alloc::{AllocError, Global};

/// A statement as a row.
pub fn alone(alloc: Global, stmt: Option<StmtTree>) -> Result<Option<StmtTrees>, AllocError>
    ensures { IfOk result (λ r. stmts_in r ≡ stmt_in stmt) }
{
    match stmt {
        None => Ok(None),
        Some(stmt) => {
            let all = StmtTrees::one(alloc, stmt)?;
            Ok(Some(all))
        }
    }
}

/// Statements, and more behind them.
pub fn with_stmts(
    all: Option<StmtTrees>,
    more: Option<StmtTrees>,
) -> Result<Option<StmtTrees>, AllocError>
    ensures { IfOk result (λ r. stmts_in r ≡ rejoined (stmts_in all) (stmts_in more)) }
{
    match all {
        None => Ok(None),
        Some(all) => match more {
            None => Ok(None),
            Some(more) => {
                let mut joined = all;
                joined.append(more)?;
                Ok(Some(joined))
            }
        },
    }
}

/// Branches, and one more behind them.
pub fn with_branch(
    all: Option<BranchTrees>,
    test: Option<ExprTree>,
    body: Option<StmtTrees>,
) -> Result<Option<BranchTrees>, AllocError>
    ensures { IfOk result (λ r. branches_in r ≡ rejoined (branches_in all) (singly (branch_of (expr_in test) (stmts_in body)))) }
{
    match all {
        None => Ok(None),
        Some(all) => match test {
            None => Ok(None),
            Some(test) => match body {
                None => Ok(None),
                Some(body) => {
                    let mut joined = all;
                    joined.push(test, body)?;
                    Ok(Some(joined))
                }
            },
        },
    }
}

/// Alternatives of CASE, and one more behind them.
pub fn with_case(
    all: Option<CaseTrees>,
    labels: Option<List<Label>>,
    body: Option<StmtTrees>,
) -> Result<Option<CaseTrees>, AllocError>
    ensures { IfOk result (λ r. cases_in r ≡ rejoined (cases_in all) (singly (case_of labels (stmts_in body)))) }
{
    match all {
        None => Ok(None),
        Some(all) => match labels {
            None => Ok(None),
            Some(labels) => match body {
                None => Ok(None),
                Some(body) => {
                    let mut joined = all;
                    joined.push(labels, body)?;
                    Ok(Some(joined))
                }
            },
        },
    }
}

/// Labels, and one more behind them.
pub fn with_label(
    all: Option<List<Label>>,
    label: Option<Label>,
) -> Result<Option<List<Label>>, AllocError>
    ensures { IfOk result (λ r. r ≡ rejoined all (singly label)) }
{
    match all {
        None => Ok(None),
        Some(all) => match label {
            None => Ok(None),
            Some(label) => {
                let mut joined = all;
                joined.push(label)?;
                Ok(Some(joined))
            }
        },
    }
}

/// Where they are sound, statements behind ELSE.
pub fn some_stmts(stmts: Option<StmtTrees>) -> Option<Option<StmtTrees>>
    ensures { else_in result ≡ option_map (λ b. Some b) (stmts_in stmts) }
{
    match stmts {
        None => None,
        Some(stmts) => Some(Some(stmts)),
    }
}

/// The labels so far, and this one where it is sound.
pub fn add_label(before: &mut List<Label>, label: Option<Label>) -> Result<(), AllocError>
    ensures { OnOk result (before.new ≡ spec.with_label before.old label) }
{
    match label {
        None => Ok(()),
        Some(label) => before.push(label),
    }
}
