//! Statements of one kind each, as rows: what such a statement takes stands in a function of its own,
//! so that no other pays for it.

ghost use Rattle.std.specs.Prelude.{◌≡◌, IfOk, OnOk};
ghost use Rattle.ob_types.specs.declared.typed.TypedStmt.TheVariants as typed;
ghost use Rattle.ob_rules.specs.Books.{book_after};
ghost use Rattle.ob_rules.specs.Expressions as exprs;
ghost use Rattle.ob_rules.specs.Judged.{if_sound, paired};
ghost use Rattle.ob_rules.specs.Statements as spec;
ghost use Rattle.ob_rules.specs.Values.{tree};
ghost use Rattle.ob_cstmt_parts.specs.Seen.{branches_in, cases_in, else_in, stmts_in};

use crate::assign::assignment;
use crate::calls::call_statement;
use crate::labels::unboxed;
use crate::returns::check_return;
use ob_cexpr_trait::CheckExpr;
use ob_cstmt_parts::{alone, case_made, exit, if_made, with_made};
use ob_rules::{Notebook, Surroundings, Valued};
use ob_tree::{Boxed, Designator, Expr, Pos};
use ob_types_trees::{BranchTrees, CaseTrees, StmtTrees};
use std::alloc::{AllocError, Global};

/// A call. The rules are those of `call_statement`.
pub fn call_alone<S: Surroundings, C: CheckExpr>(
    alloc: Global,
    checker: &C,
    here: &S,
    book: &mut Notebook,
    designator: &Designator,
) -> Result<Option<StmtTrees>, AllocError>
    ensures made { IfOk result (λ r. stmts_in r ≡ (spec.call_statement (exprs.named_of designator.now) (S.around here.now)).node) }
    ensures noted { OnOk result (book.new ≡ book_after book.old (spec.call_statement (exprs.named_of designator.now) (S.around here.now)).notes) }
{
    let made = call_statement(alloc, checker, here, book, designator)?;
    alone(alloc, made)
}

/// An assignment. The rules are those of `assignment`.
pub fn assignment_alone<S: Surroundings, C: CheckExpr>(
    alloc: Global,
    checker: &C,
    here: &S,
    book: &mut Notebook,
    target: &Designator,
    at: Pos,
    value: &Expr,
) -> Result<Option<StmtTrees>, AllocError>
    ensures made { IfOk result (λ r. stmts_in r ≡ (spec.assignment (S.around here.now) (exprs.named_of target.now) at (exprs.phrase_of value.now)).node) }
    ensures noted { OnOk result (book.new ≡ book_after book.old (spec.assignment (S.around here.now) (exprs.named_of target.now) at (exprs.phrase_of value.now)).notes) }
{
    let made = assignment(alloc, checker, here, book, target, at, value)?;
    alone(alloc, made)
}

/// EXIT. The rules are those of `exit`.
pub fn exit_alone<S: Surroundings>(
    alloc: Global,
    here: &S,
    book: &mut Notebook,
    at: Pos,
) -> Result<Option<StmtTrees>, AllocError>
    ensures made { IfOk result (λ r. stmts_in r ≡ (spec.exit (S.around here.now) at).node) }
    ensures noted { OnOk result (book.new ≡ book_after book.old (spec.exit (S.around here.now) at).notes) }
{
    alone(alloc, exit(here, book, at))
}

/// RETURN. The rules are those of `check_return`.
pub fn return_alone<S: Surroundings, C: CheckExpr>(
    alloc: Global,
    checker: &C,
    here: &S,
    book: &mut Notebook,
    at: Pos,
    value: &Option<Expr>,
) -> Result<Option<StmtTrees>, AllocError>
    ensures made { IfOk result (λ r. stmts_in r ≡ (spec.return (S.around here.now) at (spec.phrase_if value.now)).node) }
    ensures noted { OnOk result (book.new ≡ book_after book.old (spec.return (S.around here.now) at (spec.phrase_if value.now)).notes) }
{
    let made = check_return(alloc, checker, here, book, at, value)?;
    alone(alloc, made)
}

/// IF of its parts, where they are sound.
pub fn if_alone(
    alloc: Global,
    branches: Option<BranchTrees>,
    otherwise: Option<Option<StmtTrees>>,
) -> Result<Option<StmtTrees>, AllocError>
    ensures { IfOk result (λ r. stmts_in r ≡ (if_sound (paired (branches_in branches) (else_in otherwise)) (λ p. spec.one (typed.If p.0 (spec.empty_if_none p.1)))).node) }
{
    alone(alloc, if_made(alloc, branches, otherwise))
}

/// CASE of its parts, where they are sound.
pub fn case_alone(
    alloc: Global,
    at: Pos,
    value: Option<Boxed<Valued>>,
    cases: Option<CaseTrees>,
    otherwise: Option<Option<StmtTrees>>,
) -> Result<Option<StmtTrees>, AllocError>
    ensures { IfOk result (λ r. stmts_in r ≡ (if_sound (paired value (paired (cases_in cases) (else_in otherwise))) (λ p. spec.one (typed.Case (tree p.0) p.1.0 p.1.1 at))).node) }
{
    alone(alloc, case_made(at, unboxed(value), cases, otherwise))
}

/// WITH of its parts, where they are sound.
pub fn with_alone(
    alloc: Global,
    at: Pos,
    branches: Option<BranchTrees>,
    otherwise: Option<Option<StmtTrees>>,
) -> Result<Option<StmtTrees>, AllocError>
    ensures { IfOk result (λ r. stmts_in r ≡ (if_sound (paired (branches_in branches) (else_in otherwise)) (λ p. spec.one (typed.With p.0 p.1 at))).node) }
{
    alone(alloc, with_made(at, branches, otherwise))
}
