//! What is declared before the procedures and statements of a sequence.

#![tactic(auto, using(ob_rules::proofs::BookLaws::after_none, ob_rules::proofs::BookLaws::after_joined))]

ghost use Rattle.std.specs.Prelude.{◌≡◌, suc, reverse, IfOk, OnOk};
ghost use Rattle.std.specs.List.{cons_option};
ghost use Rattle.ob_cdecl_scopes.specs.Scopes.{around_of};
ghost use Rattle.ob_rules.specs.Books.{book_after};
ghost use Rattle.ob_rules.specs.Headings as heading;
ghost use Rattle.ob_rules.specs.Declarations as spec;
ghost use Rattle.ob_cdecl_heading.specs.Kept.{AreKept};
ghost use Rattle.ob_cdecl.specs.Growing.{Grows};
ghost use Rattle.ob_cdecl.specs.Order.{plain_in_order};
ghost use Rattle.ob_cdecl.specs.Seen.{contents_of};
ghost use Rattle.ob_cdecl_block.specs.Steps.{type_names as names_in, heading_added, headings, headed, around_bound, declared_notes};

use crate::bound::bound_told;
use crate::heads::turned;
use crate::left::pointers_told;
use ob_cdecl::{Contents, append_notes, plain_in_order, take_later};
use ob_cdecl_heading::{Head, Heads, add_heading};
use ob_cdecl_scopes::{Imports, Scope, Stack};
use ob_cexpr_trait::CheckExpr;
use ob_rules::{Later, Notebook};
use ob_tree::{Decl, List};
use std::alloc::{AllocError, Global};

fn add_type_name(alloc: Global, names: &mut Stack, d: &Decl) -> Result<(), AllocError>
    ensures { OnOk result (names.new ≡ cons_option (spec.type_name_of (spec.declaration d.now)) names.old) }
{
    match d {
        Decl::NamedType { name, .. } => names.push(alloc, name.ident.name.as_bytes()),
        Decl::Constant { .. }
        | Decl::Variables { .. }
        | Decl::Procedure { .. }
        | Decl::Forward(_) => Ok(()),
    }
}

/// The names of the types that are declared.
pub(crate) fn type_names(alloc: Global, decls: &[Decl]) -> Result<Stack, AllocError>
    ensures { IfOk result (λ r. r ≡ names_in decls.now) }
{
    let mut names = Stack::new(alloc);
    let mut i = decls.len();
    'declarations: while i > 0 {
        i -= 1;
        add_type_name(alloc, &mut names, &decls[i])?;
    }
    Ok(names)
}

// All but the procedures, in order. Gives what is judged later.
fn plain_part<E: Imports, C: CheckExpr>(
    alloc: Global,
    checker: &C,
    scope: &mut Scope<'_, E>,
    book: &mut Notebook,
    contents: &mut Contents,
    decls: &[Decl],
) -> Result<List<Later>, AllocError>
    ensures around { OnOk result (around_of E.types scope.new ≡ (plain_in_order decls.now (around_of E.types scope.old)).around) }
    ensures noted { OnOk result (book.new ≡ book_after book.old (spec.nothing_later (plain_in_order decls.now (around_of E.types scope.old)).part.notes)) }
    ensures added { OnOk result (contents_of contents.new ≡ spec.together (contents_of contents.old) (plain_in_order decls.now (around_of E.types scope.old)).part.contents) }
    ensures grows { OnOk result (Grows (around_of E.types scope.old) (around_of E.types scope.new)) }
    ensures later { IfOk result (λ r. r ≡ (plain_in_order decls.now (around_of E.types scope.old)).part.notes.later) }
{
    let mut plain = Notebook::new(alloc);
    plain_in_order(alloc, checker, scope, &mut plain, contents, decls)?;
    let later = take_later(alloc, &mut plain);
    append_notes(book, plain)?;
    Ok(later)
}

// The heading of a procedure or forward declaration.
fn add_heading_if<E: Imports, C: CheckExpr>(
    alloc: Global,
    checker: &C,
    scope: &mut Scope<'_, E>,
    heads: &mut Heads,
    d: &Decl,
) -> Result<(), AllocError>
    ensures around { (hs : heading.Heads) → around_of E.types scope.old ≡ hs.around → AreKept (suc hs.around.scope) heads.old (heading.reversed hs.before) → OnOk result (around_of E.types scope.new ≡ (heading_added (spec.procedure_of (spec.declaration d.now)) hs).around) }
    ensures heads { (hs : heading.Heads) → around_of E.types scope.old ≡ hs.around → AreKept (suc hs.around.scope) heads.old (heading.reversed hs.before) → OnOk result (AreKept (suc hs.around.scope) heads.new (heading.reversed (heading_added (spec.procedure_of (spec.declaration d.now)) hs).before)) }
{
    match d {
        Decl::Procedure { heading, .. } => add_heading(
            alloc, checker, scope, heads, heading, false,
        ),
        Decl::Forward(heading) => add_heading(alloc, checker, scope, heads, heading, true),
        Decl::Constant { .. } | Decl::NamedType { .. } | Decl::Variables { .. } => Ok(()),
    }
}

// The headings in order: from here on the procedures are known.
fn headings_told<E: Imports, C: CheckExpr>(
    alloc: Global,
    checker: &C,
    scope: &mut Scope<'_, E>,
    decls: &[Decl],
) -> Result<Heads, AllocError>
    ensures around { OnOk result (around_of E.types scope.new ≡ (headings decls.now (around_of E.types scope.old)).around) }
    ensures heads { IfOk result (λ r. AreKept (suc (around_of E.types scope.old).scope) r (heading.reversed (headings decls.now (around_of E.types scope.old)).before)) }
{
    let mut heads = Heads::new(alloc);
    'declarations: for d in decls {
        add_heading_if(alloc, checker, scope, &mut heads, d)?;
    }
    Ok(heads)
}

/// All that is declared, in order, with the headings of the procedures, and what can be judged when
/// these are known. Gives the headings, the last first.
pub(crate) fn declare_all<E: Imports, C: CheckExpr>(
    alloc: Global,
    checker: &C,
    scope: &mut Scope<'_, E>,
    book: &mut Notebook,
    contents: &mut Contents,
    decls: &[Decl],
    level: bool,
) -> Result<Vec<Head>, AllocError>
    ensures around { OnOk result (around_of E.types scope.new ≡ around_bound level (headed decls.now (around_of E.types scope.old))) }
    ensures noted { OnOk result (book.new ≡ book_after book.old (declared_notes level decls.now (around_of E.types scope.old))) }
    ensures added { OnOk result (contents_of contents.new ≡ spec.together (contents_of contents.old) (plain_in_order decls.now (around_of E.types scope.old)).part.contents) }
    ensures grows { OnOk result (Grows (around_of E.types scope.old) (plain_in_order decls.now (around_of E.types scope.old)).around) }
    ensures heads { IfOk result (λ r. AreKept (suc (plain_in_order decls.now (around_of E.types scope.old)).around.scope) (reverse r.items) (heading.reversed (headed decls.now (around_of E.types scope.old)).before)) }
{
    let later = plain_part(alloc, checker, scope, book, contents, decls)?;
    let heads = headings_told(alloc, checker, scope, decls)?;
    pointers_told(alloc, &*scope, book, later.as_slice(), heads.as_slice())?;
    bound_told(
        alloc,
        scope,
        book,
        level,
        later.as_slice(),
        heads.as_slice(),
    )?;
    Ok(turned(heads.into_items()))
}
