//! Operations that predeclared functions are.

ghost use Rattle.std.specs.Prelude.{◌≡◌, ◌&&◌, IfOk, OnOk, Some, None};
ghost use Rattle.ob_types.specs.declared.typed.Unary.TheVariants as unary;
ghost use Rattle.ob_types.specs.declared.typed.Binary.TheVariants as binary;
ghost use Rattle.ob_rules.specs.Books.{book_after};
ghost use Rattle.ob_rules.specs.Operators as operators;
ghost use Rattle.ob_rules.specs.Operators.{and_so};
ghost use Rattle.ob_rules.specs.Values as values;
ghost use Rattle.ob_rules.specs.Predeclared as spec;

use ob_cexpr_name::{is_integer, width};
use ob_cexpr_operator::{dyadic, monadic, unfit};
use ob_rules::{Meant, Notebook, Valued};
use ob_tree::Pos;
use ob_types::{Binary, Types, Unary, Width};
use std::alloc::{AllocError, Global};

fn monadic_value(
    alloc: Global,
    book: &mut Notebook,
    op: Unary,
    at: Pos,
    x: Valued,
) -> Result<Option<Meant>, AllocError>
    ensures made { IfOk result (λ r. r ≡ (spec.if_fit at (spec.value (operators.monadic op at x))).node) }
    ensures noted { OnOk result (book.new ≡ book_after book.old (spec.if_fit at (spec.value (operators.monadic op at x))).notes) }
{
    match monadic(alloc, book, op, at, x)? {
        None => Ok(None),
        Some(value) => Ok(Some(Meant::Call(value))),
    }
}

fn dyadic_value(
    alloc: Global,
    book: &mut Notebook,
    op: Binary,
    at: Pos,
    x: Valued,
    n: Valued,
) -> Result<Option<Meant>, AllocError>
    ensures made { IfOk result (λ r. r ≡ (spec.if_fit at (spec.value (operators.dyadic op at x n))).node) }
    ensures noted { OnOk result (book.new ≡ book_after book.old (spec.if_fit at (spec.value (operators.dyadic op at x n))).notes) }
{
    match dyadic(alloc, book, op, at, x, n)? {
        None => Ok(None),
        Some(value) => Ok(Some(Meant::Call(value))),
    }
}

/// The operation on one value, where it fits.
pub fn unary_if(
    alloc: Global,
    book: &mut Notebook,
    fits: bool,
    op: Unary,
    at: Pos,
    x: Valued,
) -> Result<Option<Meant>, AllocError>
    ensures made { IfOk result (λ r. r ≡ (spec.if_fit at (and_so (spec.if_is fits op) (λ o. spec.value (operators.monadic o at x)))).node) }
    ensures noted { OnOk result (book.new ≡ book_after book.old (spec.if_fit at (and_so (spec.if_is fits op) (λ o. spec.value (operators.monadic o at x)))).notes) }
{
    if fits {
        monadic_value(alloc, book, op, at, x)
    } else {
        Ok(unfit(book, at))
    }
}

fn abs_of(
    alloc: Global,
    book: &mut Notebook,
    width: Option<Width>,
    at: Pos,
    x: Valued,
) -> Result<Option<Meant>, AllocError>
    ensures made { IfOk result (λ r. r ≡ (spec.if_fit at (and_so width (λ w. spec.value (operators.monadic (unary.Abs w) at x)))).node) }
    ensures noted { OnOk result (book.new ≡ book_after book.old (spec.if_fit at (and_so width (λ w. spec.value (operators.monadic (unary.Abs w) at x)))).notes) }
{
    match width {
        None => Ok(unfit(book, at)),
        Some(width) => monadic_value(alloc, book, Unary::Abs(width), at, x),
    }
}

/// ABS.
pub fn abs<T: Types>(
    alloc: Global,
    types: &T,
    book: &mut Notebook,
    at: Pos,
    x: Valued,
) -> Result<Option<Meant>, AllocError>
    ensures made { IfOk result (λ r. r ≡ (spec.if_fit at (spec.on_width (T.types types.now) (λ w. unary.Abs w) at x)).node) }
    ensures noted { OnOk result (book.new ≡ book_after book.old (spec.if_fit at (spec.on_width (T.types types.now) (λ w. unary.Abs w) at x)).notes) }
{
    let width = width(types, &x);
    abs_of(alloc, book, width, at, x)
}

fn longer(width: Width) -> Option<Width>
    ensures { result ≡ spec.longer width }
{
    match width {
        Width::ShortInt => Some(Width::Integer),
        Width::Integer => Some(Width::LongInt),
        Width::LongInt => None,
    }
}

fn shorter(width: Width) -> Option<Width>
    ensures { result ≡ spec.shorter width }
{
    match width {
        Width::ShortInt => None,
        Width::Integer => Some(Width::ShortInt),
        Width::LongInt => Some(Width::Integer),
    }
}

fn long_of(
    alloc: Global,
    book: &mut Notebook,
    width: Option<Width>,
    at: Pos,
    x: Valued,
) -> Result<Option<Meant>, AllocError>
    ensures made { IfOk result (λ r. r ≡ (spec.if_fit at (and_so width (λ w. and_so (spec.longer w) (λ l. spec.value (operators.monadic (unary.Long l) at x))))).node) }
    ensures noted { OnOk result (book.new ≡ book_after book.old (spec.if_fit at (and_so width (λ w. and_so (spec.longer w) (λ l. spec.value (operators.monadic (unary.Long l) at x))))).notes) }
{
    match width {
        None => Ok(unfit(book, at)),
        Some(width) => match longer(width) {
            None => Ok(unfit(book, at)),
            Some(target) => monadic_value(alloc, book, Unary::Long(target), at, x),
        },
    }
}

/// LONG.
pub fn long<T: Types>(
    alloc: Global,
    types: &T,
    book: &mut Notebook,
    at: Pos,
    x: Valued,
) -> Result<Option<Meant>, AllocError>
    ensures made { IfOk result (λ r. r ≡ (spec.if_fit at (and_so (values.width (T.types types.now) x) (λ w. and_so (spec.longer w) (λ l. spec.value (operators.monadic (unary.Long l) at x))))).node) }
    ensures noted { OnOk result (book.new ≡ book_after book.old (spec.if_fit at (and_so (values.width (T.types types.now) x) (λ w. and_so (spec.longer w) (λ l. spec.value (operators.monadic (unary.Long l) at x))))).notes) }
{
    let width = width(types, &x);
    long_of(alloc, book, width, at, x)
}

fn short_of(
    alloc: Global,
    book: &mut Notebook,
    width: Option<Width>,
    at: Pos,
    x: Valued,
) -> Result<Option<Meant>, AllocError>
    ensures made { IfOk result (λ r. r ≡ (spec.if_fit at (and_so width (λ w. and_so (spec.shorter w) (λ l. spec.value (operators.monadic (unary.Short l) at x))))).node) }
    ensures noted { OnOk result (book.new ≡ book_after book.old (spec.if_fit at (and_so width (λ w. and_so (spec.shorter w) (λ l. spec.value (operators.monadic (unary.Short l) at x))))).notes) }
{
    match width {
        None => Ok(unfit(book, at)),
        Some(width) => match shorter(width) {
            None => Ok(unfit(book, at)),
            Some(target) => monadic_value(alloc, book, Unary::Short(target), at, x),
        },
    }
}

/// SHORT.
pub fn short<T: Types>(
    alloc: Global,
    types: &T,
    book: &mut Notebook,
    at: Pos,
    x: Valued,
) -> Result<Option<Meant>, AllocError>
    ensures made { IfOk result (λ r. r ≡ (spec.if_fit at (and_so (values.width (T.types types.now) x) (λ w. and_so (spec.shorter w) (λ l. spec.value (operators.monadic (unary.Short l) at x))))).node) }
    ensures noted { OnOk result (book.new ≡ book_after book.old (spec.if_fit at (and_so (values.width (T.types types.now) x) (λ w. and_so (spec.shorter w) (λ l. spec.value (operators.monadic (unary.Short l) at x))))).notes) }
{
    let width = width(types, &x);
    short_of(alloc, book, width, at, x)
}

fn ash_if(
    alloc: Global,
    book: &mut Notebook,
    fits: bool,
    at: Pos,
    x: Valued,
    n: Valued,
) -> Result<Option<Meant>, AllocError>
    ensures made { IfOk result (λ r. r ≡ (spec.if_fit at (and_so (spec.if_is fits binary.Ash) (λ o. spec.value (operators.dyadic o at x n)))).node) }
    ensures noted { OnOk result (book.new ≡ book_after book.old (spec.if_fit at (and_so (spec.if_is fits binary.Ash) (λ o. spec.value (operators.dyadic o at x n)))).notes) }
{
    if fits {
        dyadic_value(alloc, book, Binary::Ash, at, x, n)
    } else {
        Ok(unfit(book, at))
    }
}

/// ASH.
pub fn ash<T: Types>(
    alloc: Global,
    types: &T,
    book: &mut Notebook,
    at: Pos,
    x: Valued,
    n: Valued,
) -> Result<Option<Meant>, AllocError>
    ensures made { IfOk result (λ r. r ≡ (spec.if_fit at (and_so (spec.if_is (values.is_integer (T.types types.now) x && values.is_integer (T.types types.now) n) binary.Ash) (λ o. spec.value (operators.dyadic o at x n)))).node) }
    ensures noted { OnOk result (book.new ≡ book_after book.old (spec.if_fit at (and_so (spec.if_is (values.is_integer (T.types types.now) x && values.is_integer (T.types types.now) n) binary.Ash) (λ o. spec.value (operators.dyadic o at x n)))).notes) }
{
    let fits = is_integer(types, &x) && is_integer(types, &n);
    ash_if(alloc, book, fits, at, x, n)
}
