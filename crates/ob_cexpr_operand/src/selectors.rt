//! One selector behind what stands before it.

ghost use Rattle.std.specs.Prelude.{◌≡◌, IfOk, OnOk};
ghost use Rattle.ob_rules.specs.Books.{book_after};
ghost use Rattle.ob_rules.specs.Judged as judged;
ghost use Rattle.ob_rules.specs.Names as names;
ghost use Rattle.ob_rules.specs.Names.{map_of};
ghost use Rattle.ob_rules.specs.Designators as spec;
ghost use Rattle.ob_rules.specs.declared.meant.Meant.{Meant as AMeant};
ghost use Rattle.ob_rules.specs.declared.meant.Meant.TheVariants as means;
ghost use Rattle.ob_rules.specs.declared.broken.Rule.TheVariants as rule;
ghost use Rattle.ob_cexpr_operand.specs.Plain.{plain};

use ob_cexpr_designator::{dereference, guard, index, select, super_call};
use ob_cexpr_name::type_named;
use ob_rules::{Meant, Notebook, Place, Rule, Surroundings, Valued};
use ob_tree::{Ident, Pos, Qualident};
use ob_types::TypeRef;
use std::alloc::{AllocError, Global};

/// A dot and a name. None where it breaks rule 2, 22 or 39.
#[inline(never)]
pub fn select_step<S: Surroundings>(
    alloc: Global,
    here: &S,
    book: &mut Notebook,
    start: Pos,
    at: Pos,
    x: &Ident,
    last: bool,
    meant: Meant,
) -> Result<Option<Meant>, AllocError>
    ensures made { IfOk result (λ r. r ≡ (spec.step_dot (S.around here.now) start at x.now last meant).node) }
    ensures noted { OnOk result (book.new ≡ book_after book.old (spec.step_dot (S.around here.now) start at x.now last meant).notes) }
{
    match meant {
        Meant::Place(place) => select(alloc, here, book, start, at, x, place, last),
        Meant::Constant(_)
        | Meant::Procedure(_, _)
        | Meant::Bound(_)
        | Meant::Out(_)
        | Meant::Predeclared(_)
        | Meant::Call(_)
        | Meant::Statement(_) => {
            book.breaks(Rule::UnfitSelector, at);
            Ok(None)
        }
    }
}

fn place_meant(place: Option<Place>) -> Option<Meant>
    ensures { result ≡ (judged.if_sound place (λ q. judged.sound (means.Place q))).node }
{
    match place {
        None => None,
        Some(place) => Some(Meant::Place(place)),
    }
}

fn index_place<S: Surroundings>(
    alloc: Global,
    here: &S,
    book: &mut Notebook,
    at: Pos,
    i: Option<Valued>,
    place: Place,
) -> Result<Option<Meant>, AllocError>
    ensures made { IfOk result (λ r. r ≡ (spec.step_index (map_of (S.around here.now)) at (plain i) (means.Place place)).node) }
    ensures noted { OnOk result (book.new ≡ book_after book.old (spec.step_index (map_of (S.around here.now)) at (plain i) (means.Place place)).notes) }
{
    let place = index(alloc, here, book, at, place, i)?;
    Ok(place_meant(place))
}

/// An index that is judged, and noted, already. None where it breaks rule 22.
#[inline(never)]
pub fn index_step<S: Surroundings>(
    alloc: Global,
    here: &S,
    book: &mut Notebook,
    at: Pos,
    i: Option<Valued>,
    meant: Meant,
) -> Result<Option<Meant>, AllocError>
    ensures made { IfOk result (λ r. r ≡ (spec.step_index (map_of (S.around here.now)) at (plain i) meant).node) }
    ensures noted { OnOk result (book.new ≡ book_after book.old (spec.step_index (map_of (S.around here.now)) at (plain i) meant).notes) }
{
    match meant {
        Meant::Place(place) => index_place(alloc, here, book, at, i, place),
        Meant::Constant(_)
        | Meant::Procedure(_, _)
        | Meant::Bound(_)
        | Meant::Out(_)
        | Meant::Predeclared(_)
        | Meant::Call(_)
        | Meant::Statement(_) => {
            book.breaks(Rule::UnfitSelector, at);
            Ok(None)
        }
    }
}

fn dereference_place<S: Surroundings>(
    alloc: Global,
    here: &S,
    book: &mut Notebook,
    at: Pos,
    place: Place,
) -> Result<Option<Meant>, AllocError>
    ensures made { IfOk result (λ r. r ≡ (spec.step_up (S.around here.now) at (means.Place place)).node) }
    ensures noted { OnOk result (book.new ≡ book_after book.old (spec.step_up (S.around here.now) at (means.Place place)).notes) }
{
    let place = dereference(alloc, here, book, at, place)?;
    Ok(place_meant(place))
}

/// `^`: a dereference, or a super call. None where it breaks rule 22 or 40.
#[inline(never)]
pub fn up_step<S: Surroundings>(
    alloc: Global,
    here: &S,
    book: &mut Notebook,
    at: Pos,
    meant: Meant,
) -> Result<Option<Meant>, AllocError>
    ensures made { IfOk result (λ r. r ≡ (spec.step_up (S.around here.now) at meant).node) }
    ensures noted { OnOk result (book.new ≡ book_after book.old (spec.step_up (S.around here.now) at meant).notes) }
{
    match meant {
        Meant::Place(place) => dereference_place(alloc, here, book, at, place),
        Meant::Bound(chosen) => super_call(alloc, here, book, at, chosen),
        Meant::Constant(_)
        | Meant::Procedure(_, _)
        | Meant::Out(_)
        | Meant::Predeclared(_)
        | Meant::Call(_)
        | Meant::Statement(_) => {
            book.breaks(Rule::UnfitSelector, at);
            Ok(None)
        }
    }
}

/// A guard of the type of that name behind a variable. None where it breaks rule 23, or the name
/// breaks a rule.
pub fn guard_named<S: Surroundings>(
    alloc: Global,
    here: &S,
    book: &mut Notebook,
    at: Pos,
    place: Place,
    name: &Qualident,
) -> Result<Option<Meant>, AllocError>
    ensures made { IfOk result (λ r. r ≡ (judged.◌▷◌ (names.type_named (S.around here.now) name.now) (λ t. spec.guard (map_of (S.around here.now)) at place t)).node) }
    ensures noted { OnOk result (book.new ≡ book_after book.old (judged.◌▷◌ (names.type_named (S.around here.now) name.now) (λ t. spec.guard (map_of (S.around here.now)) at place t)).notes) }
{
    match type_named(alloc, here, book, name)? {
        None => Ok(None),
        Some(t) => guard(alloc, here, book, at, place, t),
    }
}

/// A guard of the type of that name behind what is no variable, which breaks rule 23.
pub fn guard_misfit<S: Surroundings>(
    alloc: Global,
    here: &S,
    book: &mut Notebook,
    at: Pos,
    name: &Qualident,
) -> Result<Option<Meant>, AllocError>
    ensures made { IfOk result (λ r. r ≡ (judged.◌▷◌ (names.type_named (S.around here.now) name.now) (λ t. judged.breaks {A = AMeant} rule.UnfitTypeTest at)).node) }
    ensures noted { OnOk result (book.new ≡ book_after book.old (judged.◌▷◌ (names.type_named (S.around here.now) name.now) (λ t. judged.breaks {A = AMeant} rule.UnfitTypeTest at)).notes) }
{
    match type_named(alloc, here, book, name)? {
        None => Ok(None),
        Some(_) => {
            book.breaks(Rule::UnfitTypeTest, at);
            Ok(None)
        }
    }
}
