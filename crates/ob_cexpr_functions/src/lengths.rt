//! LEN.

ghost use Rattle.std.specs.Prelude.{◌≡◌, IfOk, OnOk, nat_eq, pos};
ghost use Rattle.ob_types.specs.declared.value.Value.TheVariants as literal;
ghost use Rattle.ob_rules.specs.declared.meant.Meant.TheVariants as means;
ghost use Rattle.ob_rules.specs.Judged as judged;
ghost use Rattle.ob_rules.specs.Values as values;
ghost use Rattle.std.specs.Option.{option_map};
ghost use Rattle.ob_rules.specs.Books.{book_after};
ghost use Rattle.ob_rules.specs.Operators.{and_so};
ghost use Rattle.ob_rules.specs.Shapes as shapes;
ghost use Rattle.ob_rules.specs.Predeclared as spec;

use ob_cexpr_name::array_of;
use ob_cexpr_operator::unfit;
use ob_rules::{Computed, Meant, Notebook, Place, Valued};
use ob_tree::Pos;
use ob_types::{Basic, ExprType, TypeRef, Types, Value};
use ob_types_trees::ExprTree;
use std::alloc::AllocError;

// The array behind so many indices.
fn dimension<'a, T: Types>(
    types: &'a T,
    left: u32,
    t: &'a TypeRef,
) -> Option<(Option<u32>, &'a TypeRef)>
    ensures { option_map (λ a. (a.0, a.1.now)) result ≡ spec.dimension (T.types types.now) left t.now }
{
    let mut of = t;
    'dimensions: for _ in 0..left {
        match array_of(types, of) {
            None => return None,
            Some((_, element)) => of = element,
        }
    }
    array_of(types, of)
}

fn dimension_length<T: Types>(types: &T, number: u32, place: &Place) -> Option<Option<u32>>
    ensures { result ≡ option_map (λ a. a.0) (spec.dimension (T.types types.now) number place.now.of) }
{
    match dimension(types, number, &place.of) {
        None => None,
        Some((length, _)) => Some(length),
    }
}

fn length_constant(
    book: &mut Notebook,
    length: u32,
    place: Place,
) -> Result<Option<Meant>, AllocError>
    ensures made { IfOk result (λ r. r ≡ (judged.names_length place.designator.inner (judged.sound (means.Call (values.constant (literal.Int (pos length)))))).node) }
    ensures noted { OnOk result (book.new ≡ book_after book.old (judged.names_length place.designator.inner (judged.sound (means.Call (values.constant (literal.Int (pos length)))))).notes) }
{
    if length > 2147483647 {
        return Err(AllocError);
    }
    let designator = place.into_designator();
    book.name_length(designator)?;
    Ok(Some(Meant::Call(Valued::Constant(Value::Int(length as i32)))))
}

fn length_of(
    book: &mut Notebook,
    at: Pos,
    length: Option<u32>,
    first: bool,
    place: Place,
) -> Result<Option<Meant>, AllocError>
    ensures made { IfOk result (λ r. r ≡ (spec.if_fit at (spec.length_of length first place)).node) }
    ensures noted { OnOk result (book.new ≡ book_after book.old (spec.if_fit at (spec.length_of length first place)).notes) }
{
    match length {
        Some(length) => length_constant(book, length, place),
        None => {
            if first {
                let designator = place.into_designator();
                Ok(Some(Meant::Call(Valued::Node(Computed {
                    tree: ExprTree::length(designator),
                    of: ExprType::Of(TypeRef::Basic(Basic::LongInt)),
                }))))
            } else {
                Ok(unfit(book, at))
            }
        }
    }
}

fn length_if(
    book: &mut Notebook,
    at: Pos,
    length: Option<Option<u32>>,
    first: bool,
    place: Place,
) -> Result<Option<Meant>, AllocError>
    ensures made { IfOk result (λ r. r ≡ (spec.if_fit at (and_so length (λ l. spec.length_of l first place))).node) }
    ensures noted { OnOk result (book.new ≡ book_after book.old (spec.if_fit at (and_so length (λ l. spec.length_of l first place))).notes) }
{
    match length {
        None => Ok(unfit(book, at)),
        Some(length) => length_of(book, at, length, first, place),
    }
}

#[tactic(auto, using(crate::proofs::LengthLaws::length_at))]
fn len_at<T: Types>(
    types: &T,
    book: &mut Notebook,
    at: Pos,
    number: u32,
    place: Place,
) -> Result<Option<Meant>, AllocError>
    ensures made { IfOk result (λ r. r ≡ (spec.if_fit at (spec.len_at (T.types types.now) number place)).node) }
    ensures noted { OnOk result (book.new ≡ book_after book.old (spec.if_fit at (spec.len_at (T.types types.now) number place)).notes) }
{
    let length = dimension_length(types, number, &place);
    length_if(book, at, length, number == 0, place)
}

fn len_of<T: Types>(
    types: &T,
    book: &mut Notebook,
    at: Pos,
    number: i32,
    place: Place,
) -> Result<Option<Meant>, AllocError>
    ensures made { IfOk result (λ r. r ≡ (spec.if_fit at (spec.len_of (T.types types.now) number place)).node) }
    ensures noted { OnOk result (book.new ≡ book_after book.old (spec.if_fit at (spec.len_of (T.types types.now) number place)).notes) }
{
    if number >= 0 {
        len_at(types, book, at, number as u32, place)
    } else {
        Ok(unfit(book, at))
    }
}

/// LEN of the first dimension.
pub fn len_first<T: Types>(
    types: &T,
    book: &mut Notebook,
    at: Pos,
    place: Option<Place>,
) -> Result<Option<Meant>, AllocError>
    ensures made { IfOk result (λ r. r ≡ (spec.if_fit at (and_so place (λ p. spec.len_at (T.types types.now) 0 p))).node) }
    ensures noted { OnOk result (book.new ≡ book_after book.old (spec.if_fit at (and_so place (λ p. spec.len_at (T.types types.now) 0 p))).notes) }
{
    match place {
        None => Ok(unfit(book, at)),
        Some(place) => len_at(types, book, at, 0, place),
    }
}

/// LEN of that dimension, whose number is to be constant.
pub fn len<T: Types>(
    types: &T,
    book: &mut Notebook,
    at: Pos,
    place: Option<Place>,
    number: Option<i32>,
) -> Result<Option<Meant>, AllocError>
    ensures made { IfOk result (λ r. r ≡ (spec.if_fit at (and_so place (λ p. and_so number (λ z. spec.len_of (T.types types.now) z p)))).node) }
    ensures noted { OnOk result (book.new ≡ book_after book.old (spec.if_fit at (and_so place (λ p. and_so number (λ z. spec.len_of (T.types types.now) z p)))).notes) }
{
    match place {
        None => Ok(unfit(book, at)),
        Some(place) => match number {
            None => Ok(unfit(book, at)),
            Some(number) => len_of(types, book, at, number, place),
        },
    }
}
