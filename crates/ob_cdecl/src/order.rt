//! Declarations in their order.

#![tactic(auto, using(ob_rules::proofs::BookLaws::after_none, ob_rules::proofs::BookLaws::after_joined))]

ghost use Rattle.std.specs.Prelude.{◌≡◌, OnOk};
ghost use Rattle.ob_cdecl_scopes.specs.Scopes.{around_of};
ghost use Rattle.ob_rules.specs.Books.{book_after};
ghost use Rattle.ob_rules.specs.Judged.{no_notes};
ghost use Rattle.ob_rules.specs.Declarations as spec;
ghost use Rattle.ob_cdecl.specs.Seen.{contents_of};
ghost use Rattle.ob_cdecl.specs.Growing.{Grows};
ghost use Rattle.ob_cdecl.specs.Order.{plain_declared, plain_in_order};

use crate::contents::Contents;
use crate::decls::constant_declared;
use crate::types::type_declared;
use crate::variables::variables_declared;
use ob_cdecl_scopes::{Imports, Scope};
use ob_cexpr_trait::CheckExpr;
use ob_rules::Notebook;
use ob_tree::Decl;
use std::alloc::{AllocError, Global};

// Nothing is said, and nothing added.
#[tactic(auto, using(crate::proofs::ContentsLaws::adds_nothing, crate::proofs::ContentsLaws::notes_nothing))]
fn say_nothing(book: &mut Notebook, contents: &mut Contents)
    ensures noted { book.new ≡ book_after book.old no_notes }
    ensures added { contents_of contents.new ≡ spec.together (contents_of contents.old) spec.no_contents }
{
    let _book = &*book;
    let _contents = &*contents;
}

// A declaration that is no procedure.
#[tactic(auto, using(crate::proofs::ContentsLaws::adds_nothing, crate::proofs::ContentsLaws::notes_nothing))]
fn plain_declared<E: Imports, C: CheckExpr>(
    alloc: Global,
    checker: &C,
    scope: &mut Scope<'_, E>,
    book: &mut Notebook,
    contents: &mut Contents,
    d: &Decl,
) -> Result<(), AllocError>
    ensures around { OnOk result (around_of E.types scope.new ≡ (plain_declared d.now (around_of E.types scope.old)).around) }
    ensures noted { OnOk result (book.new ≡ book_after book.old (plain_declared d.now (around_of E.types scope.old)).part.notes) }
    ensures added { OnOk result (contents_of contents.new ≡ spec.together (contents_of contents.old) (plain_declared d.now (around_of E.types scope.old)).part.contents) }
    ensures grows { OnOk result (Grows (around_of E.types scope.old) (around_of E.types scope.new)) }
{
    match d {
        Decl::Constant { name, value } => {
            constant_declared(alloc, checker, scope, book, contents, name, value)
        }
        Decl::NamedType { name, node } => {
            type_declared(alloc, checker, scope, book, contents, name, node)
        }
        Decl::Variables { names, node } => {
            variables_declared(
                alloc,
                checker,
                scope,
                book,
                contents,
                names.as_slice(),
                node,
            )
        }
        Decl::Procedure { .. } => {
            say_nothing(book, contents);
            Ok(())
        }
        Decl::Forward(_) => {
            say_nothing(book, contents);
            Ok(())
        }
    }
}

/// The declarations of a sequence but for its procedures, in turn: from here on what they declare is
/// known.
pub fn plain_in_order<E: Imports, C: CheckExpr>(
    alloc: Global,
    checker: &C,
    scope: &mut Scope<'_, E>,
    book: &mut Notebook,
    contents: &mut Contents,
    decls: &[Decl],
) -> Result<(), AllocError>
    ensures around { OnOk result (around_of E.types scope.new ≡ (plain_in_order decls.now (around_of E.types scope.old)).around) }
    ensures noted { OnOk result (book.new ≡ book_after book.old (plain_in_order decls.now (around_of E.types scope.old)).part.notes) }
    ensures added { OnOk result (contents_of contents.new ≡ spec.together (contents_of contents.old) (plain_in_order decls.now (around_of E.types scope.old)).part.contents) }
    ensures grows { OnOk result (Grows (around_of E.types scope.old) (around_of E.types scope.new)) }
{
    'declarations: for d in decls {
        plain_declared(alloc, checker, scope, book, contents, d)?;
    }
    Ok(())
}
