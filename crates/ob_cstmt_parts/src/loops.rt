//! FOR.

ghost use Rattle.std.specs.Prelude.{◌≡◌, IfOk, OnOk};
ghost use Rattle.ob_rules.specs.Books.{book_after};
ghost use Rattle.ob_rules.specs.Judged.{if_sound, ◌▷◌};
ghost use Rattle.ob_rules.specs.Names as names;
ghost use Rattle.ob_rules.specs.Shapes as shapes;
ghost use Rattle.ob_rules.specs.Statements as spec;
ghost use Rattle.ob_cstmt_parts.specs.Seen.{expr_in, for_node, for_parts_node, stmt_in, stmts_in};

use ob_cexpr_designator::variable_named;
use ob_cexpr_name::{basic_of, fits, named, tree_of, types};
use ob_rules::{Entity, Notebook, Place, Rule, Surroundings, Valued};
use ob_tree::{Ident, Pos};
use ob_types::{Basic, Types, Value, Width};
use ob_types_trees::{ExprTree, StmtTree, StmtTrees};
use std::alloc::{AllocError, Global};

fn width_of(basic: Option<Basic>) -> Option<Width>
    ensures { result ≡ shapes.width_of basic }
{
    match basic {
        Some(Basic::ShortInt) => Some(Width::ShortInt),
        Some(Basic::Integer) => Some(Width::Integer),
        Some(Basic::LongInt) => Some(Width::LongInt),
        _ => None,
    }
}

// Rule 34: it is an integer variable.
fn integer_place<T: Types>(
    types: &T,
    book: &mut Notebook,
    at: Pos,
    place: Option<Place>,
) -> Option<Place>
    ensures made { result ≡ (if_sound place (λ p. spec.integer_place (T.types types.now) at p)).node }
    ensures noted { book.new ≡ book_after book.old (if_sound place (λ p. spec.integer_place (T.types types.now) at p)).notes }
{
    match place {
        None => None,
        Some(place) => {
            let fit = width_of(basic_of(types, &place.of)).is_some();
            book.wants(fit, Rule::UnfitFor, at, place)
        }
    }
}

fn entity_variable<S: Surroundings>(
    alloc: Global,
    here: &S,
    book: &mut Notebook,
    at: Pos,
    x: &Ident,
    entity: &Entity,
) -> Result<Option<Place>, AllocError>
    ensures made { IfOk result (λ r. r ≡ (spec.for_variable (S.around here.now) at x.now entity.now).node) }
    ensures noted { OnOk result (book.new ≡ book_after book.old (spec.for_variable (S.around here.now) at x.now entity.now).notes) }
{
    match entity {
        Entity::Variable(variable, of) => {
            let place = variable_named(alloc, here, x.pos, variable, of, false)?;
            Ok(integer_place(types(here), book, at, place))
        }
        Entity::TypeName(_) | Entity::Module(_) => {
            book.breaks(Rule::WrongKind, x.pos);
            Ok(None)
        }
        Entity::Constant(_)
        | Entity::Procedure(_, _)
        | Entity::Forward(_, _)
        | Entity::Predeclared(_)
        | Entity::LeftOut
        | Entity::Unsound => {
            book.breaks(Rule::UnfitFor, at);
            Ok(None)
        }
    }
}

/// The variable of FOR. Rules 34 and 3, and those of the name.
pub fn for_variable<S: Surroundings>(
    alloc: Global,
    here: &S,
    book: &mut Notebook,
    at: Pos,
    x: &Ident,
) -> Result<Option<Place>, AllocError>
    ensures made { IfOk result (λ r. r ≡ (names.named (S.around here.now) x.now ▷ λ e. spec.for_variable (S.around here.now) at x.now e).node) }
    ensures noted { OnOk result (book.new ≡ book_after book.old (names.named (S.around here.now) x.now ▷ λ e. spec.for_variable (S.around here.now) at x.now e).notes) }
{
    match named(here, book, x) {
        None => Ok(None),
        Some(entity) => entity_variable(alloc, here, book, at, x, entity),
    }
}

/// A bound of FOR of its value. Rule 34 where the variable does not take it. Takes no memory.
pub fn for_bound<T: Types>(
    types: &T,
    book: &mut Notebook,
    at: Pos,
    place: &Place,
    x: Valued,
) -> Option<ExprTree>
    ensures made { expr_in result ≡ (spec.for_bound (T.types types.now) at place.now x).node }
    ensures noted { book.new ≡ book_after book.old (spec.for_bound (T.types types.now) at place.now x).notes }
{
    if fits(types, &place.of, &x) {
        Some(tree_of(x))
    } else {
        book.breaks(Rule::UnfitFor, at);
        None
    }
}

/// The step of FOR. Rule 34 where it is no integer, or 0. Takes no memory.
pub fn step_value(book: &mut Notebook, at: Pos, value: &Value) -> Option<i32>
    ensures made { result ≡ (spec.step_value at value.now).node }
    ensures noted { book.new ≡ book_after book.old (spec.step_value at value.now).notes }
{
    match value {
        Value::Int(n) => book.unless(*n == 0, Rule::UnfitFor, at, *n),
        _ => {
            book.breaks(Rule::UnfitFor, at);
            None
        }
    }
}

fn width_or_long(width: Option<Width>) -> Width
    ensures { result ≡ spec.width_or_long width }
{
    match width {
        None => Width::LongInt,
        Some(width) => width,
    }
}

fn for_made<T: Types>(
    types: &T,
    at: Pos,
    place: Place,
    start: Option<ExprTree>,
    end: Option<ExprTree>,
    step: Option<i32>,
    body: Option<StmtTrees>,
) -> Option<StmtTree>
    ensures { stmt_in result ≡ for_node (T.types types.now) at place (expr_in start) (expr_in end) step (stmts_in body) }
{
    let start = start?;
    let end = end?;
    let step = step?;
    let body = body?;
    let width = width_or_long(width_of(basic_of(types, &place.of)));
    let (_, variable) = place.into_rooted();
    Some(StmtTree::for_loop(variable, width, start, end, step, body, at))
}

/// FOR of its parts, where they are sound. Takes no memory.
pub fn for_if<T: Types>(
    types: &T,
    at: Pos,
    place: Option<Place>,
    start: Option<ExprTree>,
    end: Option<ExprTree>,
    step: Option<i32>,
    body: Option<StmtTrees>,
) -> Option<StmtTree>
    ensures { stmt_in result ≡ for_parts_node (T.types types.now) at place (expr_in start) (expr_in end) step (stmts_in body) }
{
    match place {
        None => None,
        Some(place) => for_made(types, at, place, start, end, step, body),
    }
}
