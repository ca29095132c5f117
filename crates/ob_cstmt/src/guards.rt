//! The guards of WITH.

ghost use Rattle.std.specs.Prelude.{◌≡◌, [], ◌∷◌, IfOk, OnOk};
ghost use Rattle.ob_rules.specs.Books.{book_after};
ghost use Rattle.ob_rules.specs.Names as names;
ghost use Rattle.ob_rules.specs.Statements as spec;
ghost use Rattle.ob_rules.specs.Designators as designators;
ghost use Rattle.ob_rules.specs.Phrases.{Dot};
ghost use Rattle.ob_rules.specs.declared.meant.Where.TheVariants.{InExpression};
ghost use Rattle.ob_cstmt_parts.specs.Seen.{test_in};

use ob_cexpr_name::{named, type_named, types};
use ob_cexpr_trait::CheckExpr;
use ob_cstmt_parts::{Test, first_of, guarded_if, tested_if};
use ob_rules::{Entity, Meant, Notebook, Place, Rule, Surroundings, Where};
use ob_tree::{Designator, Guard, Ident, List, Mention, Qualident, Selector};
use std::alloc::{AllocError, Global};

fn plain<S: Surroundings, C: CheckExpr>(
    alloc: Global,
    checker: &C,
    here: &S,
    book: &mut Notebook,
    x: &Ident,
) -> Result<Option<Meant>, AllocError>
    ensures made { IfOk result (λ r. r ≡ (designators.designates (S.around here.now) InExpression x.now []).node) }
    ensures noted { OnOk result (book.new ≡ book_after book.old (designators.designates (S.around here.now) InExpression x.now []).notes) }
{
    let designator = Designator {
        ident: Mention::of(alloc, x)?,
        selectors: List::new(alloc),
    };
    checker.check_designator(alloc, here, book, Where::InExpression, &designator)
}

fn qualified<S: Surroundings, C: CheckExpr>(
    alloc: Global,
    checker: &C,
    here: &S,
    book: &mut Notebook,
    unit: &Ident,
    x: &Ident,
) -> Result<Option<Meant>, AllocError>
    ensures made { IfOk result (λ r. r ≡ (designators.designates (S.around here.now) InExpression unit.now (Dot x.now.pos x.now ∷ [])).node) }
    ensures noted { OnOk result (book.new ≡ book_after book.old (designators.designates (S.around here.now) InExpression unit.now (Dot x.now.pos x.now ∷ [])).notes) }
{
    let mut selectors = List::new(alloc);
    selectors.push(Selector::Field {
        pos: x.pos,
        ident: Mention::of(alloc, x)?,
    })?;
    let designator = Designator {
        ident: Mention::of(alloc, unit)?,
        selectors,
    };
    checker.check_designator(alloc, here, book, Where::InExpression, &designator)
}

fn in_unit<S: Surroundings, C: CheckExpr>(
    alloc: Global,
    checker: &C,
    here: &S,
    book: &mut Notebook,
    unit: &Ident,
    x: &Ident,
    entity: &Entity,
) -> Result<Option<Meant>, AllocError>
    ensures made { IfOk result (λ r. r ≡ (spec.with_module (S.around here.now) unit.now x.now entity.now).node) }
    ensures noted { OnOk result (book.new ≡ book_after book.old (spec.with_module (S.around here.now) unit.now x.now entity.now).notes) }
{
    match entity {
        Entity::Module(_) => qualified(alloc, checker, here, book, unit, x),
        Entity::Variable(_, _)
        | Entity::TypeName(_)
        | Entity::Constant(_)
        | Entity::Procedure(_, _)
        | Entity::Forward(_, _)
        | Entity::Predeclared(_)
        | Entity::LeftOut
        | Entity::Unsound => {
            book.breaks(Rule::WrongKind, unit.pos);
            Ok(None)
        }
    }
}

fn in_named<S: Surroundings, C: CheckExpr>(
    alloc: Global,
    checker: &C,
    here: &S,
    book: &mut Notebook,
    unit: &Ident,
    x: &Ident,
) -> Result<Option<Meant>, AllocError>
    ensures made { IfOk result (λ r. r ≡ (spec.with_named (S.around here.now) unit.now x.now).node) }
    ensures noted { OnOk result (book.new ≡ book_after book.old (spec.with_named (S.around here.now) unit.now x.now).notes) }
{
    match named(here, book, unit) {
        None => Ok(None),
        Some(entity) => in_unit(alloc, checker, here, book, unit, x, entity),
    }
}

fn behind_unit<S: Surroundings, C: CheckExpr>(
    alloc: Global,
    checker: &C,
    here: &S,
    book: &mut Notebook,
    unit: &Ident,
    x: &Ident,
) -> Result<Option<Meant>, AllocError>
    ensures made { IfOk result (λ r. r ≡ (spec.with_qualified (S.around here.now) unit.now x.now (names.find_name (S.around here.now).known unit.now.name)).node) }
    ensures noted { OnOk result (book.new ≡ book_after book.old (spec.with_qualified (S.around here.now) unit.now x.now (names.find_name (S.around here.now).known unit.now.name)).notes) }
{
    match here.known(&unit.name) {
        None => {
            book.breaks(Rule::NotDeclared, unit.pos);
            Ok(None)
        }
        Some(known) => match &known.what {
            Entity::Variable(_, _) => {
                book.breaks(Rule::WrongKind, unit.pos);
                Ok(None)
            }
            Entity::Module(_)
            | Entity::TypeName(_)
            | Entity::Constant(_)
            | Entity::Procedure(_, _)
            | Entity::Forward(_, _)
            | Entity::Predeclared(_)
            | Entity::LeftOut
            | Entity::Unsound => in_named(alloc, checker, here, book, unit, x),
        },
    }
}

fn guarded_name<S: Surroundings, C: CheckExpr>(
    alloc: Global,
    checker: &C,
    here: &S,
    book: &mut Notebook,
    name: &Qualident,
) -> Result<Option<Meant>, AllocError>
    ensures made { IfOk result (λ r. r ≡ (spec.with_meant (S.around here.now) name.now.qualifier name.now.ident).node) }
    ensures noted { OnOk result (book.new ≡ book_after book.old (spec.with_meant (S.around here.now) name.now.qualifier name.now.ident).notes) }
{
    match &name.qualifier {
        None => plain(alloc, checker, here, book, &name.ident),
        Some(unit) => behind_unit(alloc, checker, here, book, unit, &name.ident),
    }
}

fn guarded_place<S: Surroundings, C: CheckExpr>(
    alloc: Global,
    checker: &C,
    here: &S,
    book: &mut Notebook,
    guard: &Guard,
) -> Result<Option<Place>, AllocError>
    ensures made { IfOk result (λ r. r ≡ (spec.with_variable (S.around here.now) guard.now).node) }
    ensures noted { OnOk result (book.new ≡ book_after book.old (spec.with_variable (S.around here.now) guard.now).notes) }
{
    let meant = guarded_name(alloc, checker, here, book, &guard.variable)?;
    Ok(guarded_if(types(here), book, first_of(&guard.variable), meant))
}

/// A guard of WITH. Rule 37, and those of its names.
pub fn check_guard<S: Surroundings, C: CheckExpr>(
    alloc: Global,
    checker: &C,
    here: &S,
    book: &mut Notebook,
    guard: &Guard,
) -> Result<Option<Test>, AllocError>
    ensures made { IfOk result (λ r. test_in r ≡ (spec.with_test (S.around here.now) guard.now).node) }
    ensures noted { OnOk result (book.new ≡ book_after book.old (spec.with_test (S.around here.now) guard.now).notes) }
{
    let place = guarded_place(alloc, checker, here, book, guard)?;
    let of = type_named(alloc, here, book, &guard.target)?;
    tested_if(
        alloc,
        types(here),
        book,
        first_of(&guard.variable),
        place,
        of,
    )
}
