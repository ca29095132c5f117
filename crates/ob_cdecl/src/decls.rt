//! Constants, as they are declared.

#![tactic(auto, using(ob_rules::proofs::BookLaws::after_none, ob_rules::proofs::BookLaws::after_joined))]

ghost use Rattle.std.specs.Prelude.{◌≡◌, IfOk, OnOk};
ghost use Rattle.ob_cdecl_scopes.specs.Scopes.{around_of};
ghost use Rattle.ob_rules.specs.Books.{book_after};
ghost use Rattle.ob_rules.specs.Judged.{paired, ◌▷◌};
ghost use Rattle.ob_rules.specs.Expressions.{phrase_of, constant_value};
ghost use Rattle.ob_rules.specs.Declarations as spec;
ghost use Rattle.ob_cdecl.specs.Seen.{contents_of};

use crate::contents::Contents;
use ob_cdecl_scopes::{Imports, Scope};
use ob_cdecl_type::{check_mark, is_module_level};
use ob_cexpr_trait::{CheckExpr, start_of};
use ob_rules::{Entity, Notebook, Rule, Surroundings};
use ob_tree::{Expr, Ident, IdentDef, Mark, Pos};
use ob_types::Value;
use ob_types_trees::copy_value;
use std::alloc::{AllocError, Global};

/// From here on a name is known in the innermost scope, where it was not. Rule 1 where it was.
#[tactic(auto, using(ob_rules::proofs::BookLaws::after_none, ob_rules::proofs::BookLaws::after_joined, crate::proofs::Declaring::there, crate::proofs::Declaring::absent))]
pub fn declare_new<E: Imports>(
    alloc: Global,
    scope: &mut Scope<'_, E>,
    book: &mut Notebook,
    x: &Ident,
    what: Entity,
) -> Result<(), AllocError>
    ensures around { OnOk result (around_of E.types scope.new ≡ spec.declare (around_of E.types scope.old) x.now what) }
    ensures noted { OnOk result (book.new ≡ book_after book.old (spec.twice (around_of E.types scope.old) x.now)) }
{
    if scope.is_known_in_scope(&x.name) {
        book.breaks(Rule::DeclaredTwice, x.pos);
        return Ok(());
    }
    scope.declare(alloc, x.name, what)
}

// Rule 10.
fn no_nil(book: &mut Notebook, at: Pos, value: Value) -> Option<Value>
    ensures made { result ≡ (spec.no_nil at value).node }
    ensures noted { book.new ≡ book_after book.old (spec.no_nil at value).notes }
{
    match &value {
        Value::Nil => {
            book.breaks(Rule::NotConstant, at);
            None
        }
        Value::Bool(_) | Value::Char(_) | Value::Int(_) | Value::Set(_) | Value::Str(_) => Some(
            value,
        ),
    }
}

fn constant_of<E: Imports, C: CheckExpr>(
    alloc: Global,
    checker: &C,
    scope: &Scope<'_, E>,
    book: &mut Notebook,
    e: &Expr,
) -> Result<Option<Value>, AllocError>
    ensures made { IfOk result (λ r. r ≡ (constant_value (around_of E.types scope.now) (phrase_of e.now) ▷ spec.no_nil (phrase_of e.now).start).node) }
    ensures noted { OnOk result (book.new ≡ book_after book.old (constant_value (around_of E.types scope.now) (phrase_of e.now) ▷ spec.no_nil (phrase_of e.now).start).notes) }
{
    match checker.check_constant(alloc, scope, book, e)? {
        None => Ok(None),
        Some(value) => Ok(no_nil(book, start_of(e), value)),
    }
}

fn constant_entity(
    alloc: Global,
    mark: Option<Mark>,
    value: &Option<Value>,
) -> Result<Entity, AllocError>
    ensures { IfOk result (λ r. r ≡ spec.constant_entity (paired mark value.now)) }
{
    match mark {
        None => Ok(Entity::Unsound),
        Some(_) => match value {
            None => Ok(Entity::Unsound),
            Some(value) => {
                let value = copy_value(alloc, value)?;
                Ok(Entity::Constant(value))
            }
        },
    }
}

#[tactic(auto, using(crate::proofs::ContentsLaws::adds_nothing))]
fn hold_constant(
    contents: &mut Contents,
    level: bool,
    x: &Ident,
    mark: Option<Mark>,
    value: Option<Value>,
) -> Result<(), AllocError>
    ensures { OnOk result (contents_of contents.new ≡ spec.together (contents_of contents.old) (spec.constant_contents level x.now (paired mark value))) }
{
    if !level {
        return Ok(());
    }
    match mark {
        None => Ok(()),
        Some(mark) => match value {
            None => Ok(()),
            Some(value) => contents.add_constant(x.name, mark, value),
        },
    }
}

/// The declaration of a constant: from here on it is known.
pub fn constant_declared<E: Imports, C: CheckExpr>(
    alloc: Global,
    checker: &C,
    scope: &mut Scope<'_, E>,
    book: &mut Notebook,
    contents: &mut Contents,
    d: &IdentDef,
    e: &Expr,
) -> Result<(), AllocError>
    ensures around { OnOk result (around_of E.types scope.new ≡ (spec.constant_declared d.now (phrase_of e.now) (around_of E.types scope.old)).around) }
    ensures noted { OnOk result (book.new ≡ book_after book.old (spec.constant_declared d.now (phrase_of e.now) (around_of E.types scope.old)).part.notes) }
    ensures added { OnOk result (contents_of contents.new ≡ spec.together (contents_of contents.old) (spec.constant_declared d.now (phrase_of e.now) (around_of E.types scope.old)).part.contents) }
{
    let mark = check_mark(&*scope, book, false, d);
    let value = constant_of(alloc, checker, &*scope, book, e)?;
    let what = constant_entity(alloc, mark, &value)?;
    let level = is_module_level(&*scope);
    hold_constant(contents, level, &d.ident, mark, value)?;
    declare_new(alloc, scope, book, &d.ident, what)
}
