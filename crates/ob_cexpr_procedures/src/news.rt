//! NEW.

ghost use Rattle.std.specs.Prelude.{◌≡◌, IfOk, OnOk, Some, None};
ghost use Rattle.ob_rules.specs.Books.{book_after};
ghost use Rattle.ob_rules.specs.Operators.{and_so};
ghost use Rattle.ob_rules.specs.Shapes as shapes;
ghost use Rattle.ob_rules.specs.Values as values;
ghost use Rattle.ob_rules.specs.Predeclared as spec;

use crate::updates::place_of;
use ob_cexpr_name::{array_of, is_held, pointed, record_of, tree_of, width};
use ob_cexpr_operator::unfit;
use ob_rules::{Meant, Notebook, Place, Valued};
use ob_tree::{Pos, QName};
use ob_types::{Made, TypeRef, Types, Width};
use ob_types_trees::{StmtTree, copy_name, copy_type};
use std::alloc::AllocError;

fn pointed_type<T: Types>(types: &T, t: &TypeRef) -> Result<Option<TypeRef>, AllocError>
    ensures { IfOk result (λ r. r ≡ shapes.pointed (T.types types.now) t.now) }
{
    match pointed(types, t) {
        None => Ok(None),
        Some(t) => {
            let t = copy_type(t)?;
            Ok(Some(t))
        }
    }
}

fn record_name<T: Types>(types: &T, t: &TypeRef) -> Result<Option<QName>, AllocError>
    ensures { IfOk result (λ r. r ≡ shapes.record_of (T.types types.now) t.now) }
{
    match record_of(types, t) {
        None => Ok(None),
        Some(name) => {
            let name = copy_name(name)?;
            Ok(Some(name))
        }
    }
}

fn array_parts<T: Types>(
    types: &T,
    t: &TypeRef,
) -> Result<Option<(Option<u32>, TypeRef)>, AllocError>
    ensures { IfOk result (λ r. r ≡ shapes.array_of (T.types types.now) t.now) }
{
    match array_of(types, t) {
        None => Ok(None),
        Some((length, of)) => {
            let of = copy_type(of)?;
            Ok(Some((length, of)))
        }
    }
}

fn new_array(
    book: &mut Notebook,
    at: Pos,
    array: Option<(Option<u32>, TypeRef)>,
    place: Place,
    base: TypeRef,
) -> Option<Meant>
    ensures made { result ≡ (spec.if_fit at (spec.new_fixed None array place base at)).node }
    ensures noted { book.new ≡ book_after book.old (spec.if_fit at (spec.new_fixed None array place base at)).notes }
{
    match array {
        None => unfit(book, at),
        Some((None, _)) => unfit(book, at),
        Some((Some(_), _)) => {
            let designator = place.into_designator();
            Some(Meant::Statement(StmtTree::new(designator, Made::Array(base), at)))
        }
    }
}

fn new_fixed<T: Types>(
    types: &T,
    book: &mut Notebook,
    at: Pos,
    place: Place,
    base: TypeRef,
) -> Result<Option<Meant>, AllocError>
    ensures made { IfOk result (λ r. r ≡ (spec.if_fit at (spec.new_fixed (shapes.record_of (T.types types.now) base) (shapes.array_of (T.types types.now) base) place base at)).node) }
    ensures noted { OnOk result (book.new ≡ book_after book.old (spec.if_fit at (spec.new_fixed (shapes.record_of (T.types types.now) base) (shapes.array_of (T.types types.now) base) place base at)).notes) }
{
    match record_name(types, &base)? {
        Some(name) => {
            let designator = place.into_designator();
            Ok(Some(Meant::Statement(StmtTree::new(designator, Made::Record(name), at))))
        }
        None => {
            let array = array_parts(types, &base)?;
            Ok(new_array(book, at, array, place, base))
        }
    }
}

fn new_to<T: Types>(
    types: &T,
    book: &mut Notebook,
    at: Pos,
    place: Place,
    base: Option<TypeRef>,
) -> Result<Option<Meant>, AllocError>
    ensures made { IfOk result (λ r. r ≡ (spec.if_fit at (and_so base (λ b. spec.if_held (shapes.is_held (T.types types.now) b) (spec.new_fixed (shapes.record_of (T.types types.now) b) (shapes.array_of (T.types types.now) b) place b at)))).node) }
    ensures noted { OnOk result (book.new ≡ book_after book.old (spec.if_fit at (and_so base (λ b. spec.if_held (shapes.is_held (T.types types.now) b) (spec.new_fixed (shapes.record_of (T.types types.now) b) (shapes.array_of (T.types types.now) b) place b at)))).notes) }
{
    match base {
        None => Ok(unfit(book, at)),
        Some(base) => {
            if is_held(types, &base) {
                new_fixed(types, book, at, place, base)
            } else {
                Ok(None)
            }
        }
    }
}

fn new_one_of<T: Types>(
    types: &T,
    book: &mut Notebook,
    at: Pos,
    place: Option<Place>,
) -> Result<Option<Meant>, AllocError>
    ensures made { IfOk result (λ r. r ≡ (spec.if_fit at (and_so place (λ p. and_so (shapes.pointed (T.types types.now) p.of) (λ b. spec.if_held (shapes.is_held (T.types types.now) b) (spec.new_fixed (shapes.record_of (T.types types.now) b) (shapes.array_of (T.types types.now) b) p b at))))).node) }
    ensures noted { OnOk result (book.new ≡ book_after book.old (spec.if_fit at (and_so place (λ p. and_so (shapes.pointed (T.types types.now) p.of) (λ b. spec.if_held (shapes.is_held (T.types types.now) b) (spec.new_fixed (shapes.record_of (T.types types.now) b) (shapes.array_of (T.types types.now) b) p b at))))).notes) }
{
    match place {
        None => Ok(unfit(book, at)),
        Some(place) => {
            let base = pointed_type(types, &place.of)?;
            let made = new_to(types, book, at, place, base)?;
            Ok(made)
        }
    }
}

/// NEW of a pointer to a record or to an array of a fixed length.
pub fn new_one<T: Types>(
    types: &T,
    book: &mut Notebook,
    at: Pos,
    x: Valued,
) -> Result<Option<Meant>, AllocError>
    ensures made { IfOk result (λ r. r ≡ (spec.if_fit at (spec.new_one (T.types types.now) at x)).node) }
    ensures noted { OnOk result (book.new ≡ book_after book.old (spec.if_fit at (spec.new_one (T.types types.now) at x)).notes) }
{
    new_one_of(types, book, at, place_of(x))
}

fn new_elements(
    book: &mut Notebook,
    at: Pos,
    array: Option<(Option<u32>, TypeRef)>,
    place: Place,
    n: Valued,
) -> Option<Meant>
    ensures made { result ≡ (spec.if_fit at (and_so array (λ a. spec.new_elements a.0 a.1 place n at))).node }
    ensures noted { book.new ≡ book_after book.old (spec.if_fit at (and_so array (λ a. spec.new_elements a.0 a.1 place n at))).notes }
{
    match array {
        None => unfit(book, at),
        Some((Some(_), _)) => unfit(book, at),
        Some((None, element)) => {
            let designator = place.into_designator();
            Some(Meant::Statement(StmtTree::new_open_array(designator, element, tree_of(n), at)))
        }
    }
}

fn new_many_to<T: Types>(
    types: &T,
    book: &mut Notebook,
    at: Pos,
    place: Place,
    base: Option<TypeRef>,
    n: Valued,
) -> Result<Option<Meant>, AllocError>
    ensures made { IfOk result (λ r. r ≡ (spec.if_fit at (and_so base (λ b. spec.if_held (shapes.is_held (T.types types.now) b) (and_so (shapes.array_of (T.types types.now) b) (λ a. spec.new_elements a.0 a.1 place n at))))).node) }
    ensures noted { OnOk result (book.new ≡ book_after book.old (spec.if_fit at (and_so base (λ b. spec.if_held (shapes.is_held (T.types types.now) b) (and_so (shapes.array_of (T.types types.now) b) (λ a. spec.new_elements a.0 a.1 place n at))))).notes) }
{
    match base {
        None => Ok(unfit(book, at)),
        Some(base) => {
            if is_held(types, &base) {
                let array = array_parts(types, &base)?;
                Ok(new_elements(book, at, array, place, n))
            } else {
                Ok(None)
            }
        }
    }
}

fn new_many_of<T: Types>(
    types: &T,
    book: &mut Notebook,
    at: Pos,
    place: Option<Place>,
    width: Option<Width>,
    n: Valued,
) -> Result<Option<Meant>, AllocError>
    ensures made { IfOk result (λ r. r ≡ (spec.if_fit at (and_so place (λ p. and_so width (λ w. and_so (shapes.pointed (T.types types.now) p.of) (λ b. spec.if_held (shapes.is_held (T.types types.now) b) (and_so (shapes.array_of (T.types types.now) b) (λ a. spec.new_elements a.0 a.1 p n at))))))).node) }
    ensures noted { OnOk result (book.new ≡ book_after book.old (spec.if_fit at (and_so place (λ p. and_so width (λ w. and_so (shapes.pointed (T.types types.now) p.of) (λ b. spec.if_held (shapes.is_held (T.types types.now) b) (and_so (shapes.array_of (T.types types.now) b) (λ a. spec.new_elements a.0 a.1 p n at))))))).notes) }
{
    match place {
        None => Ok(unfit(book, at)),
        Some(place) => match width {
            None => Ok(unfit(book, at)),
            Some(_) => {
                let base = pointed_type(types, &place.of)?;
                new_many_to(types, book, at, place, base, n)
            }
        },
    }
}

/// NEW of a pointer to an open array, with its length.
pub fn new_many<T: Types>(
    types: &T,
    book: &mut Notebook,
    at: Pos,
    x: Valued,
    n: Valued,
) -> Result<Option<Meant>, AllocError>
    ensures made { IfOk result (λ r. r ≡ (spec.if_fit at (spec.new_many (T.types types.now) at x n)).node) }
    ensures noted { OnOk result (book.new ≡ book_after book.old (spec.if_fit at (spec.new_many (T.types types.now) at x n)).notes) }
{
    let width = width(types, &n);
    new_many_of(types, book, at, place_of(x), width, n)
}
