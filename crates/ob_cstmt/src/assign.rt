//! Assignments.

ghost use Rattle.std.specs.Prelude.{◌≡◌, IfOk, OnOk};
ghost use Rattle.ob_rules.specs.Books.{book_after};
ghost use Rattle.ob_rules.specs.Expressions as exprs;
ghost use Rattle.ob_rules.specs.Judged.{◌▷◌};
ghost use Rattle.ob_rules.specs.Statements as spec;
ghost use Rattle.ob_rules.specs.declared.meant.Where.TheVariants.{Elsewhere};
ghost use Rattle.ob_cstmt_parts.specs.Seen.{stmt_in};

use ob_cexpr_name::types;
use ob_cexpr_trait::CheckExpr;
use ob_cstmt_parts::{assigns_if, name_target, target_if};
use ob_rules::{Notebook, Place, Surroundings, Where};
use ob_tree::{Designator, Expr, Pos};
use ob_types_trees::StmtTree;
use std::alloc::{AllocError, Global};

fn selected_place<S: Surroundings, C: CheckExpr>(
    alloc: Global,
    checker: &C,
    here: &S,
    book: &mut Notebook,
    designator: &Designator,
) -> Result<Option<Place>, AllocError>
    ensures made { IfOk result (λ r. r ≡ (exprs.meant_by Elsewhere (exprs.named_of designator.now) (S.around here.now) ▷ λ m. spec.target (exprs.named_of designator.now).ident.pos m).node) }
    ensures noted { OnOk result (book.new ≡ book_after book.old (exprs.meant_by Elsewhere (exprs.named_of designator.now) (S.around here.now) ▷ λ m. spec.target (exprs.named_of designator.now).ident.pos m).notes) }
{
    let meant = checker.check_designator(alloc, here, book, Where::Elsewhere, designator)?;
    Ok(target_if(book, designator.ident.pos(), meant))
}

// What is assigned to. Rule 26, and those of the designator.
fn assigned_place<S: Surroundings, C: CheckExpr>(
    alloc: Global,
    checker: &C,
    here: &S,
    book: &mut Notebook,
    designator: &Designator,
) -> Result<Option<Place>, AllocError>
    ensures made { IfOk result (λ r. r ≡ (exprs.meant_by Elsewhere (exprs.named_of designator.now) (S.around here.now) ▷ λ m. spec.target (exprs.named_of designator.now).ident.pos m).node) }
    ensures noted { OnOk result (book.new ≡ book_after book.old (exprs.meant_by Elsewhere (exprs.named_of designator.now) (S.around here.now) ▷ λ m. spec.target (exprs.named_of designator.now).ident.pos m).notes) }
{
    if designator.selectors.as_slice().is_empty() {
        name_target(alloc, here, book, &designator.ident.ident())
    } else {
        selected_place(alloc, checker, here, book, designator)
    }
}

/// An assignment. Rules 26 and 31, and those of its parts.
pub fn assignment<S: Surroundings, C: CheckExpr>(
    alloc: Global,
    checker: &C,
    here: &S,
    book: &mut Notebook,
    designator: &Designator,
    at: Pos,
    value: &Expr,
) -> Result<Option<StmtTree>, AllocError>
    ensures made { IfOk result (λ r. stmt_in r ≡ (spec.assignment (S.around here.now) (exprs.named_of designator.now) at (exprs.phrase_of value.now)).node) }
    ensures noted { OnOk result (book.new ≡ book_after book.old (spec.assignment (S.around here.now) (exprs.named_of designator.now) at (exprs.phrase_of value.now)).notes) }
{
    let place = assigned_place(alloc, checker, here, book, designator)?;
    let x = checker.check_expr(alloc, here, book, value)?;
    assigns_if(alloc, types(here), book, at, place, x)
}
