//! A name that stands alone, as a value: most values do. It is judged as a designator is, without
//! the steps for selectors.

ghost use Rattle.std.specs.Prelude.{◌≡◌, IfOk, OnOk, Some, None, false};
ghost use Rattle.ob_rules.specs.Books.{book_after};
ghost use Rattle.ob_rules.specs.Designators as designators;
ghost use Rattle.ob_rules.specs.Expressions as spec;
ghost use Rattle.ob_rules.specs.Judged.{no_notes, ◌▷◌};
ghost use Rattle.ob_rules.specs.Names as names;

use crate::values::value_if;
use ob_cexpr_designator::{front_of, variable_named};
use ob_cexpr_name::named;
use ob_rules::{Entity, Notebook, Surroundings, Valued};
use ob_tree::{Ident, Pos};
use ob_types::{TypeRef, Variable};
use ob_types_trees::copy_value;
use std::alloc::{AllocError, Global};

fn variable_value<S: Surroundings>(
    alloc: Global,
    here: &S,
    at: Pos,
    variable: &Variable,
    t: &TypeRef,
) -> Result<Option<Valued>, AllocError>
    ensures { IfOk result (λ r. record { node = r; notes = no_notes } ≡ (designators.of_variable (designators.variable_named (S.around here.now) at variable.now t.now false) ▷ λ m. spec.value_meant at m)) }
{
    match variable_named(alloc, here, at, variable, t, false)? {
        None => Ok(None),
        Some(place) => Ok(Some(Valued::Place(place))),
    }
}

fn other_value<S: Surroundings>(
    alloc: Global,
    here: &S,
    book: &mut Notebook,
    x: &Ident,
    entity: &Entity,
) -> Result<Option<Valued>, AllocError>
    ensures made { IfOk result (λ r. r ≡ (designators.front_of (S.around here.now) x.now entity.now None ▷ λ m. spec.value_meant x.now.«pos» m).node) }
    ensures noted { OnOk result (book.new ≡ book_after book.old (designators.front_of (S.around here.now) x.now entity.now None ▷ λ m. spec.value_meant x.now.«pos» m).notes) }
{
    let meant = front_of(alloc, here, book, x, entity, None)?;
    value_if(alloc, book, x.pos, meant)
}

fn entity_value<S: Surroundings>(
    alloc: Global,
    here: &S,
    book: &mut Notebook,
    x: &Ident,
    entity: &Entity,
) -> Result<Option<Valued>, AllocError>
    ensures made { IfOk result (λ r. r ≡ (designators.front_of (S.around here.now) x.now entity.now None ▷ λ m. spec.value_meant x.now.«pos» m).node) }
    ensures noted { OnOk result (book.new ≡ book_after book.old (designators.front_of (S.around here.now) x.now entity.now None ▷ λ m. spec.value_meant x.now.«pos» m).notes) }
{
    match entity {
        Entity::Variable(variable, t) => variable_value(alloc, here, x.pos, variable, t),
        Entity::Constant(value) => {
            let value = copy_value(alloc, value)?;
            Ok(Some(Valued::Constant(value)))
        }
        Entity::Procedure(_, _)
        | Entity::Forward(_, _)
        | Entity::Predeclared(_)
        | Entity::Module(_)
        | Entity::TypeName(_)
        | Entity::LeftOut
        | Entity::Unsound => other_value(alloc, here, book, x, entity),
    }
}

/// What a name comes to as a value, with no selector behind it. None where it breaks a rule, or its
/// declaration does.
#[inline(never)]
pub fn name_value<S: Surroundings>(
    alloc: Global,
    here: &S,
    book: &mut Notebook,
    x: &Ident,
) -> Result<Option<Valued>, AllocError>
    ensures made { IfOk result (λ r. r ≡ (names.named (S.around here.now) x.now ▷ λ k. designators.front_of (S.around here.now) x.now k None ▷ λ m. spec.value_meant x.now.«pos» m).node) }
    ensures noted { OnOk result (book.new ≡ book_after book.old (names.named (S.around here.now) x.now ▷ λ k. designators.front_of (S.around here.now) x.now k None ▷ λ m. spec.value_meant x.now.«pos» m).notes) }
{
    match named(here, book, x) {
        None => Ok(None),
        Some(entity) => entity_value(alloc, here, book, x, entity),
    }
}
