//! Sequences of declarations with their statements.

#![tactic(auto, using(ob_rules::proofs::BookLaws::after_none, ob_rules::proofs::BookLaws::after_joined))]

ghost use Rattle.std.specs.Prelude.{◌≡◌, ◌+◌, ◌++◌, [], ℕ, List, reverse, true, false, OnOk};
ghost use Rattle.ob_cdecl_scopes.specs.Descending.{are_within};
ghost use Rattle.ob_cdecl_scopes.specs.Scopes.{around_of};
ghost use Rattle.ob_rules.specs.Books.{book_after};
ghost use Rattle.ob_rules.specs.Types.{is_module_level};
ghost use Rattle.ob_rules.specs.Headings as heading;
ghost use Rattle.ob_rules.specs.Declarations as spec;
ghost use Rattle.ob_cdecl_heading.specs.Kept.{IsKept, AreKept};
ghost use Rattle.ob_cdecl.specs.Seen.{contents_of};
ghost use Rattle.ob_cdecl_block.specs.Blocks.{block_of, unbound};
ghost use Rattle.ob_cdecl_block.specs.Procedures.{whole, IsReady, AreReady, IsBehind, AreBehind, judged_from, judged_first, behind_first, procedure_inside};

use crate::bound::leave_block;
use crate::contents::{add_forward, add_procedure, add_stmts_of};
use crate::declared::{declare_all, type_names};
use crate::heads::next_head;
use crate::opened::open;
use ob_cdecl::Contents;
use ob_cdecl_heading::Head;
use ob_cdecl_scopes::{Imports, Scope};
use ob_cdecl_type::is_module_level;
use ob_cexpr_trait::CheckExpr;
use ob_rules::{Known, Notebook};
use ob_tree::{Decl, Ident, Stmt};
use std::alloc::{AllocError, Global};

/// The declarations of a procedure or module, in turn, then its procedures, then its statements. What
/// is broken, and what they name, is noted in the book. Below module level what stands around is in
/// the end as it was, and no bound procedure comes; at module level the types are those with the
/// bound procedures that they introduce.
#[cycle(block)]
pub fn block<E: Imports, C: CheckExpr>(
    alloc: Global,
    checker: &C,
    scope: &mut Scope<'_, E>,
    book: &mut Notebook,
    contents: &mut Contents,
    decls: &[Decl],
    body: &[Stmt],
) -> Result<(), AllocError>
    ensures noted { OnOk result (book.new ≡ book_after book.old (block_of decls.now body.now (around_of E.types scope.old)).notes) }
    ensures added { OnOk result (contents_of contents.new ≡ spec.together (contents_of contents.old) (unbound (block_of decls.now body.now (around_of E.types scope.old)).contents)) }
    ensures stays { OnOk result (is_module_level (around_of E.types scope.old) ≡ false → around_of E.types scope.new ≡ record (around_of E.types scope.old) { coming = [] }) }
    ensures bound { OnOk result (is_module_level (around_of E.types scope.old) ≡ true → (around_of E.types scope.new).own ≡ (block_of decls.now body.now (around_of E.types scope.old)).contents.bound) }
{
    let mark = scope.mark();
    let level = is_module_level(&*scope);
    let names = type_names(alloc, decls)?;
    let outer = scope.set_later_types(names);
    let heads = declare_all(alloc, checker, scope, book, contents, decls, level)?;
    procedures(alloc, checker, scope, book, contents, decls, heads)?;
    add_stmts_of(alloc, checker, scope, book, contents, body)?;
    leave_block(scope, level, mark, outer);
    Ok(())
}

// The procedures among the declarations, which have these headings, the last first. Each sees what
// is known behind its heading.
#[cycle(block)]
fn procedures<E: Imports, C: CheckExpr>(
    alloc: Global,
    checker: &C,
    scope: &mut Scope<'_, E>,
    book: &mut Notebook,
    contents: &mut Contents,
    decls: &[Decl],
    heads: Vec<Head>,
) -> Result<(), AllocError>
    requires ready { AreReady (around_of E.types scope.old).scope (around_of E.types scope.old).known (reverse heads.items) }
    requires coming { (around_of E.types scope.old).coming ≡ [] }
    ensures stays { OnOk result (around_of E.types scope.new ≡ around_of E.types scope.old) }
    ensures noted { (n : ℕ) (hs : List heading.Head) → AreKept n (reverse heads.items) hs → AreBehind (around_of E.types scope.old).known hs → OnOk result (book.new ≡ book_after book.old (judged_from (around_of E.types scope.old) decls.now hs).notes) }
    ensures added { (n : ℕ) (hs : List heading.Head) → AreKept n (reverse heads.items) hs → AreBehind (around_of E.types scope.old).known hs → OnOk result (contents_of contents.new ≡ spec.together (contents_of contents.old) (judged_from (around_of E.types scope.old) decls.now hs).contents) }
{
    let all = scope.mark().known;
    let mut aside = Vec::new(alloc);
    let mut left = heads;
    'declarations: for d in decls {
        procedure_if(
            alloc, checker, scope, book, contents, &mut aside, &mut left, d,
        )?;
    }
    scope.show(alloc, &mut aside, all)?;
    Ok(())
}

// The procedure or forward declaration, which has the first of these headings.
#[cycle(block)]
fn procedure_if<E: Imports, C: CheckExpr>(
    alloc: Global,
    checker: &C,
    scope: &mut Scope<'_, E>,
    book: &mut Notebook,
    contents: &mut Contents,
    aside: &mut Vec<Known>,
    heads: &mut Vec<Head>,
    d: &Decl,
) -> Result<(), AllocError>
    requires ready { AreReady (around_of E.types scope.old).scope (aside.old.items ++ (around_of E.types scope.old).known) (reverse heads.old.items) }
    requires fall { are_within (around_of E.types scope.old).scope (aside.old.items ++ (around_of E.types scope.old).known) ≡ true }
    requires coming { (around_of E.types scope.old).coming ≡ [] }
    ensures stays { OnOk result (whole (around_of E.types scope.new) aside.new ≡ whole (around_of E.types scope.old) aside.old) }
    ensures rest { OnOk result (reverse heads.new.items ≡ behind_first (spec.procedure_of (spec.declaration d.now)) (reverse heads.old.items)) }
    ensures noted { (n : ℕ) (hs : List heading.Head) → AreKept n (reverse heads.old.items) hs → AreBehind (aside.old.items ++ (around_of E.types scope.old).known) hs → OnOk result (book.new ≡ book_after book.old (judged_first (whole (around_of E.types scope.old) aside.old) (spec.procedure_of (spec.declaration d.now)) hs).notes) }
    ensures added { (n : ℕ) (hs : List heading.Head) → AreKept n (reverse heads.old.items) hs → AreBehind (aside.old.items ++ (around_of E.types scope.old).known) hs → OnOk result (contents_of contents.new ≡ spec.together (contents_of contents.old) (judged_first (whole (around_of E.types scope.old) aside.old) (spec.procedure_of (spec.declaration d.now)) hs).contents) }
{
    match d {
        Decl::Procedure {
            decls,
            body,
            closing,
            ..
        } => match next_head(heads) {
            None => Ok(()),
            Some(head) => {
                procedure(
                    alloc,
                    checker,
                    scope,
                    book,
                    contents,
                    aside,
                    head,
                    decls.as_slice(),
                    body.as_slice(),
                    closing,
                )?;
                Ok(())
            }
        },
        Decl::Forward(_) => match next_head(heads) {
            None => Ok(()),
            Some(head) => {
                add_forward(book, contents, head)?;
                Ok(())
            }
        },
        Decl::Constant { .. } => Ok(()),
        Decl::NamedType { .. } => Ok(()),
        Decl::Variables { .. } => Ok(()),
    }
}

// A procedure, which sees what is known behind its heading.
#[cycle(block)]
fn procedure<E: Imports, C: CheckExpr>(
    alloc: Global,
    checker: &C,
    scope: &mut Scope<'_, E>,
    book: &mut Notebook,
    contents: &mut Contents,
    aside: &mut Vec<Known>,
    head: Head,
    decls: &[Decl],
    body: &[Stmt],
    closing: &Ident,
) -> Result<(), AllocError>
    requires ready { IsReady (around_of E.types scope.old).scope (aside.old.items ++ (around_of E.types scope.old).known) head }
    requires fall { are_within (around_of E.types scope.old).scope (aside.old.items ++ (around_of E.types scope.old).known) ≡ true }
    requires coming { (around_of E.types scope.old).coming ≡ [] }
    ensures stays { OnOk result (whole (around_of E.types scope.new) aside.new ≡ whole (around_of E.types scope.old) aside.old) }
    ensures noted { (n : ℕ) (h : heading.Head) → IsKept n head h → IsBehind (aside.old.items ++ (around_of E.types scope.old).known) h → OnOk result (book.new ≡ book_after book.old (procedure_inside (whole (around_of E.types scope.old) aside.old) h decls.now body.now closing.now).notes) }
    ensures added { (n : ℕ) (h : heading.Head) → IsKept n head h → IsBehind (aside.old.items ++ (around_of E.types scope.old).known) h → OnOk result (contents_of contents.new ≡ spec.together (contents_of contents.old) (procedure_inside (whole (around_of E.types scope.old) aside.old) h decls.now body.now closing.now).contents) }
{
    scope.show(alloc, aside, head.behind)?;
    procedure_here(
        alloc, checker, scope, book, contents, head, decls, body, closing,
    )?;
    Ok(())
}

// A procedure, where it is known what is known behind its heading.
#[cycle(block)]
fn procedure_here<E: Imports, C: CheckExpr>(
    alloc: Global,
    checker: &C,
    scope: &mut Scope<'_, E>,
    book: &mut Notebook,
    contents: &mut Contents,
    head: Head,
    decls: &[Decl],
    body: &[Stmt],
    closing: &Ident,
) -> Result<(), AllocError>
    requires inside { head.inside.scope ≡ (around_of E.types scope.old).scope + 1 }
    requires coming { (around_of E.types scope.old).coming ≡ [] }
    ensures stays { OnOk result (around_of E.types scope.new ≡ around_of E.types scope.old) }
    ensures noted { (n : ℕ) (h : heading.Head) → IsKept n head h → (around_of E.types scope.old).known ≡ h.known → OnOk result (book.new ≡ book_after book.old (procedure_inside (around_of E.types scope.old) h decls.now body.now closing.now).notes) }
    ensures added { (n : ℕ) (h : heading.Head) → IsKept n head h → (around_of E.types scope.old).known ≡ h.known → OnOk result (contents_of contents.new ≡ spec.together (contents_of contents.old) (procedure_inside (around_of E.types scope.old) h decls.now body.now closing.now).contents) }
{
    let _ = scope.mark();
    let entered = open(alloc, scope, book, head, closing)?;
    let (opened, outside) = entered;
    let mut inner = Contents::new(alloc);
    block(alloc, checker, scope, book, &mut inner, decls, body)?;
    scope.leave_body(outside);
    add_procedure(alloc, &*scope, contents, opened, inner)?;
    Ok(())
}
