//! Assignments.

ghost use Rattle.std.specs.Prelude.{◌≡◌, IfOk, OnOk, None};
ghost use Rattle.std.specs.Option.{option_copied};
ghost use Rattle.ob_rules.specs.Books.{book_after};
ghost use Rattle.ob_rules.specs.Designators as designators;
ghost use Rattle.ob_rules.specs.Judged.{if_sound, no_notes, paired, ◌▷◌};
ghost use Rattle.ob_rules.specs.Names as names;
ghost use Rattle.ob_rules.specs.Statements as spec;
ghost use Rattle.ob_cstmt_parts.specs.Seen.{stmt_in};

use ob_cexpr_designator::{front_of, variable_named};
use ob_cexpr_name::{fits, has_text, is_array, named, record_of, text_tree, tree_of};
use ob_rules::{Entity, Meant, Notebook, Place, Rule, Surroundings, Valued};
use ob_tree::{Ident, Pos, QName};
use ob_types::{Assigned, Types};
use ob_types_trees::{ExprTree, StmtTree, copy_name};
use std::alloc::{AllocError, Global};

// Rule 26: only a variable is assigned to, and none that may only be read.
fn target(book: &mut Notebook, start: Pos, meant: Meant) -> Option<Place>
    ensures made { result ≡ (spec.target start meant).node }
    ensures noted { book.new ≡ book_after book.old (spec.target start meant).notes }
{
    match meant {
        Meant::Place(place) => book.unless(place.read_only, Rule::NotChangeable, start, place),
        Meant::Constant(_)
        | Meant::Procedure(_, _)
        | Meant::Bound(_)
        | Meant::Out(_)
        | Meant::Predeclared(_)
        | Meant::Call(_)
        | Meant::Statement(_) => {
            book.breaks(Rule::NotChangeable, start);
            None
        }
    }
}

/// What is assigned to, where its designator is sound. Rule 26 where it is no variable, or one that
/// may only be read. Takes no memory.
pub fn target_if(book: &mut Notebook, start: Pos, meant: Option<Meant>) -> Option<Place>
    ensures made { result ≡ (if_sound meant (λ m. spec.target start m)).node }
    ensures noted { book.new ≡ book_after book.old (if_sound meant (λ m. spec.target start m)).notes }
{
    match meant {
        None => None,
        Some(meant) => target(book, start, meant),
    }
}

fn place_target(book: &mut Notebook, start: Pos, place: Option<Place>) -> Option<Place>
    ensures made { result ≡ (designators.of_variable (record { node = place; notes = no_notes }) ▷ λ m. spec.target start m).node }
    ensures noted { book.new ≡ book_after book.old (designators.of_variable (record { node = place; notes = no_notes }) ▷ λ m. spec.target start m).notes }
{
    match place {
        None => None,
        Some(place) => book.unless(place.read_only, Rule::NotChangeable, start, place),
    }
}

fn other_target<S: Surroundings>(
    alloc: Global,
    here: &S,
    book: &mut Notebook,
    x: &Ident,
    entity: &Entity,
) -> Result<Option<Place>, AllocError>
    ensures made { IfOk result (λ r. r ≡ (designators.front_of (S.around here.now) x.now entity.now None ▷ λ m. spec.target x.now.«pos» m).node) }
    ensures noted { OnOk result (book.new ≡ book_after book.old (designators.front_of (S.around here.now) x.now entity.now None ▷ λ m. spec.target x.now.«pos» m).notes) }
{
    let meant = front_of(alloc, here, book, x, entity, None)?;
    Ok(target_if(book, x.pos, meant))
}

fn entity_target<S: Surroundings>(
    alloc: Global,
    here: &S,
    book: &mut Notebook,
    x: &Ident,
    entity: &Entity,
) -> Result<Option<Place>, AllocError>
    ensures made { IfOk result (λ r. r ≡ (designators.front_of (S.around here.now) x.now entity.now None ▷ λ m. spec.target x.now.«pos» m).node) }
    ensures noted { OnOk result (book.new ≡ book_after book.old (designators.front_of (S.around here.now) x.now entity.now None ▷ λ m. spec.target x.now.«pos» m).notes) }
{
    match entity {
        Entity::Variable(variable, t) => {
            let place = variable_named(alloc, here, x.pos, variable, t, false)?;
            Ok(place_target(book, x.pos, place))
        }
        Entity::Constant(_)
        | Entity::Procedure(_, _)
        | Entity::Forward(_, _)
        | Entity::Predeclared(_)
        | Entity::Module(_)
        | Entity::TypeName(_)
        | Entity::LeftOut
        | Entity::Unsound => other_target(alloc, here, book, x, entity),
    }
}

/// What is assigned to where a name stands with no selector behind it. Rule 26, and those of the
/// name.
pub fn name_target<S: Surroundings>(
    alloc: Global,
    here: &S,
    book: &mut Notebook,
    x: &Ident,
) -> Result<Option<Place>, AllocError>
    ensures made { IfOk result (λ r. r ≡ (names.named (S.around here.now) x.now ▷ λ k. designators.front_of (S.around here.now) x.now k None ▷ λ m. spec.target x.now.«pos» m).node) }
    ensures noted { OnOk result (book.new ≡ book_after book.old (names.named (S.around here.now) x.now ▷ λ k. designators.front_of (S.around here.now) x.now k None ▷ λ m. spec.target x.now.«pos» m).notes) }
{
    match named(here, book, x) {
        None => Ok(None),
        Some(entity) => entity_target(alloc, here, book, x, entity),
    }
}

fn assigned_as(text: bool, record: Option<&QName>, array: bool) -> Result<Assigned, AllocError>
    ensures { IfOk result (λ r. r ≡ spec.assigned_as text (option_copied record.entry) array) }
{
    if text {
        return Ok(Assigned::Text);
    }
    match record {
        Some(name) => {
            let name = copy_name(name)?;
            Ok(Assigned::Record(name))
        }
        None => Ok(if array {
            Assigned::Array
        } else {
            Assigned::Scalar
        }),
    }
}

fn assignment_of<T: Types>(types: &T, place: &Place, x: &Valued) -> Result<Assigned, AllocError>
    ensures { IfOk result (λ r. r ≡ spec.assignment_of (T.types types.now) place.now x.now) }
{
    let array = is_array(types, &place.of);
    let text = array && has_text(x);
    assigned_as(text, record_of(types, &place.of), array)
}

fn assigned_tree(alloc: Global, array: bool, x: Valued) -> Result<ExprTree, AllocError>
    ensures { IfOk result (λ r. r.inner ≡ spec.assigned_tree array x) }
{
    if array {
        text_tree(alloc, x)
    } else {
        Ok(tree_of(x))
    }
}

// Rule 31: the value is assignable.
fn assigns<T: Types>(
    alloc: Global,
    types: &T,
    book: &mut Notebook,
    at: Pos,
    place: Place,
    x: Valued,
) -> Result<Option<StmtTree>, AllocError>
    ensures made { IfOk result (λ r. stmt_in r ≡ (spec.assigns (T.types types.now) at place x).node) }
    ensures noted { OnOk result (book.new ≡ book_after book.old (spec.assigns (T.types types.now) at place x).notes) }
{
    if !fits(types, &place.of, &x) {
        book.breaks(Rule::NotAssignable, at);
        return Ok(None);
    }
    let assigned = assignment_of(types, &place, &x)?;
    let value = assigned_tree(alloc, is_array(types, &place.of), x)?;
    let designator = place.into_designator();
    Ok(Some(StmtTree::assign(designator, assigned, value, at)))
}

/// An assignment of its parts, where both are sound. Rule 31 where the value does not fit.
pub fn assigns_if<T: Types>(
    alloc: Global,
    types: &T,
    book: &mut Notebook,
    at: Pos,
    place: Option<Place>,
    x: Option<Valued>,
) -> Result<Option<StmtTree>, AllocError>
    ensures made { IfOk result (λ r. stmt_in r ≡ (if_sound (paired place x) (λ p. spec.assigns (T.types types.now) at p.0 p.1)).node) }
    ensures noted { OnOk result (book.new ≡ book_after book.old (if_sound (paired place x) (λ p. spec.assigns (T.types types.now) at p.0 p.1)).notes) }
{
    match place {
        None => Ok(None),
        Some(place) => match x {
            None => Ok(None),
            Some(x) => assigns(alloc, types, book, at, place, x),
        },
    }
}
