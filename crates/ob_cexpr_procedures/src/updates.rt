//! Statements that predeclared procedures are, but NEW.

ghost use Rattle.std.specs.Prelude.{◌≡◌, ◌&&◌, IfOk, OnOk, Some, None};
ghost use Rattle.ob_types.specs.declared.typed.TypedStmt.TheVariants as stmt;
ghost use Rattle.ob_rules.specs.declared.meant.Meant.TheVariants as means;
ghost use Rattle.ob_rules.specs.Books.{book_after};
ghost use Rattle.ob_rules.specs.Judged as judged;
ghost use Rattle.ob_rules.specs.Operators.{and_so};
ghost use Rattle.ob_rules.specs.Values as values;
ghost use Rattle.ob_rules.specs.Predeclared as spec;
ghost use Rattle.ob_cexpr_procedures.specs.Updates.{update_of};

use ob_cexpr_name::{array_type, has_text, is, is_char_array, text_tree, tree_of, width};
use ob_cexpr_operator::unfit;
use ob_rules::{Meant, Notebook, Place, Valued};
use ob_tree::Pos;
use ob_types::{Basic, Types, Update, Value, Width};
use ob_types_trees::StmtTree;
use std::alloc::{AllocError, Global};

/// The variable that it is.
pub fn place_of(x: Valued) -> Option<Place>
    ensures { result ≡ values.place_in x }
{
    match x {
        Valued::Place(place) => Some(place),
        Valued::Constant(_) | Valued::Node(_) => None,
    }
}

fn constant_number(value: &Value) -> Option<i32>
    ensures { result ≡ spec.number_in (Some value.now) }
{
    match value {
        Value::Int(n) => Some(*n),
        Value::Bool(_) | Value::Char(_) | Value::Set(_) | Value::Str(_) | Value::Nil => None,
    }
}

/// The integer constant that it is.
pub fn number_of(x: &Valued) -> Option<i32>
    ensures { result ≡ spec.number_in (values.constant_in x.now) }
{
    match x {
        Valued::Constant(value) => constant_number(value),
        Valued::Place(_) | Valued::Node(_) => None,
    }
}

fn update_by(more: bool, width: Width) -> Update
    ensures { result ≡ update_of more width }
{
    if more {
        Update::Inc(width)
    } else {
        Update::Dec(width)
    }
}

fn step_by(
    book: &mut Notebook,
    more: bool,
    at: Pos,
    place: Option<Place>,
    width: Option<Width>,
    by: Option<Width>,
    n: Valued,
) -> Option<Meant>
    ensures made { result ≡ (spec.if_fit at (and_so place (λ p. and_so width (λ w. and_so by (λ k. spec.does (stmt.Update (update_of more w) p.designator.inner (values.tree n) at)))))).node }
    ensures noted { book.new ≡ book_after book.old (spec.if_fit at (and_so place (λ p. and_so width (λ w. and_so by (λ k. spec.does (stmt.Update (update_of more w) p.designator.inner (values.tree n) at)))))).notes }
{
    match place {
        None => unfit(book, at),
        Some(place) => match width {
            None => unfit(book, at),
            Some(width) => match by {
                None => unfit(book, at),
                Some(_) => {
                    let designator = place.into_designator();
                    let op = update_by(more, width);
                    let tree = StmtTree::update(op, designator, tree_of(n), at);
                    Some(Meant::Statement(tree))
                }
            },
        },
    }
}

/// INC, or else DEC.
pub fn step<T: Types>(
    types: &T,
    book: &mut Notebook,
    more: bool,
    at: Pos,
    x: Valued,
    n: Valued,
) -> Option<Meant>
    ensures made { result ≡ (spec.if_fit at (spec.step (T.types types.now) (update_of more) at x n)).node }
    ensures noted { book.new ≡ book_after book.old (spec.if_fit at (spec.step (T.types types.now) (update_of more) at x n)).notes }
{
    let its = width(types, &x);
    let by = width(types, &n);
    step_by(book, more, at, place_of(x), its, by, n)
}

fn element_by(
    book: &mut Notebook,
    op: Update,
    at: Pos,
    place: Option<Place>,
    by: Option<Width>,
    set: bool,
    n: Valued,
) -> Option<Meant>
    ensures made { result ≡ (spec.if_fit at (and_so place (λ p. and_so by (λ k. and_so (spec.if_is set op) (λ o. spec.does (stmt.Update o p.designator.inner (values.tree n) at)))))).node }
    ensures noted { book.new ≡ book_after book.old (spec.if_fit at (and_so place (λ p. and_so by (λ k. and_so (spec.if_is set op) (λ o. spec.does (stmt.Update o p.designator.inner (values.tree n) at)))))).notes }
{
    match place {
        None => unfit(book, at),
        Some(place) => match by {
            None => unfit(book, at),
            Some(_) => {
                if set {
                    let designator = place.into_designator();
                    let tree = StmtTree::update(op, designator, tree_of(n), at);
                    Some(Meant::Statement(tree))
                } else {
                    unfit(book, at)
                }
            }
        },
    }
}

/// INCL or EXCL.
pub fn element_step<T: Types>(
    types: &T,
    book: &mut Notebook,
    op: Update,
    at: Pos,
    x: Valued,
    n: Valued,
) -> Option<Meant>
    ensures made { result ≡ (spec.if_fit at (spec.element_step (T.types types.now) op at x n)).node }
    ensures noted { book.new ≡ book_after book.old (spec.if_fit at (spec.element_step (T.types types.now) op at x n)).notes }
{
    let set = is(types, Basic::Set, &x);
    let by = width(types, &n);
    element_by(book, op, at, place_of(x), by, set, n)
}

/// ASSERT with that number.
pub fn assert<T: Types>(
    types: &T,
    book: &mut Notebook,
    at: Pos,
    x: Valued,
    number: i32,
) -> Option<Meant>
    ensures made { result ≡ (spec.if_fit at (spec.if_is (values.is (T.types types.now) Basic.Boolean x) (judged.sound (means.Statement (record { inner = stmt.Assert (values.tree x) number at }))))).node }
    ensures noted { book.new ≡ book_after book.old (spec.if_fit at (spec.if_is (values.is (T.types types.now) Basic.Boolean x) (judged.sound (means.Statement (record { inner = stmt.Assert (values.tree x) number at }))))).notes }
{
    if is(types, Basic::Boolean, &x) {
        Some(Meant::Statement(StmtTree::assert(tree_of(x), number, at)))
    } else {
        unfit(book, at)
    }
}

/// ASSERT with a number that is to be constant.
pub fn assert_with<T: Types>(
    types: &T,
    book: &mut Notebook,
    at: Pos,
    x: Valued,
    number: Option<i32>,
) -> Option<Meant>
    ensures made { result ≡ (spec.if_fit at (and_so number (λ z. spec.if_is (values.is (T.types types.now) Basic.Boolean x) (judged.sound (means.Statement (record { inner = stmt.Assert (values.tree x) z at })))))).node }
    ensures noted { book.new ≡ book_after book.old (spec.if_fit at (and_so number (λ z. spec.if_is (values.is (T.types types.now) Basic.Boolean x) (judged.sound (means.Statement (record { inner = stmt.Assert (values.tree x) z at })))))).notes }
{
    match number {
        None => unfit(book, at),
        Some(number) => assert(types, book, at, x, number),
    }
}

/// HALT.
pub fn halt(book: &mut Notebook, at: Pos, number: Option<i32>) -> Option<Meant>
    ensures made { result ≡ (spec.if_fit at (and_so number (λ z. spec.does (stmt.Halt z at)))).node }
    ensures noted { book.new ≡ book_after book.old (spec.if_fit at (and_so number (λ z. spec.does (stmt.Halt z at)))).notes }
{
    match number {
        None => unfit(book, at),
        Some(number) => Some(Meant::Statement(StmtTree::halt(number, at))),
    }
}

#[tactic(auto, using(ob_cexpr_operator::proofs::PointedLaws::no_chars, ob_cexpr_operator::proofs::PointedLaws::some_chars))]
fn is_chars<T: Types>(types: &T, x: &Valued) -> bool
    ensures { result ≡ values.is_chars (T.types types.now) x.now }
{
    match array_type(x) {
        None => false,
        Some(t) => is_char_array(types, t),
    }
}

fn is_text<T: Types>(types: &T, x: &Valued) -> bool
    ensures { result ≡ spec.is_text (T.types types.now) x.now }
{
    is_chars(types, x) || has_text(x)
}

fn copy_to(
    alloc: Global,
    book: &mut Notebook,
    fits: bool,
    at: Pos,
    x: Valued,
    place: Option<Place>,
) -> Result<Option<Meant>, AllocError>
    ensures made { IfOk result (λ r. r ≡ (spec.if_fit at (and_so place (λ p. spec.if_is fits (judged.sound (means.Statement (record { inner = stmt.Copy (values.text_tree x) p.designator.inner at })))))).node) }
    ensures noted { OnOk result (book.new ≡ book_after book.old (spec.if_fit at (and_so place (λ p. spec.if_is fits (judged.sound (means.Statement (record { inner = stmt.Copy (values.text_tree x) p.designator.inner at })))))).notes) }
{
    match place {
        None => Ok(unfit(book, at)),
        Some(place) => {
            if fits {
                let designator = place.into_designator();
                let source = text_tree(alloc, x)?;
                Ok(Some(Meant::Statement(StmtTree::copy(source, designator, at))))
            } else {
                Ok(unfit(book, at))
            }
        }
    }
}

/// COPY.
pub fn copy<T: Types>(
    alloc: Global,
    types: &T,
    book: &mut Notebook,
    at: Pos,
    x: Valued,
    y: Valued,
) -> Result<Option<Meant>, AllocError>
    ensures made { IfOk result (λ r. r ≡ (spec.if_fit at (and_so (values.place_in y) (λ p. spec.if_is (spec.is_text (T.types types.now) x && values.is_chars (T.types types.now) y) (judged.sound (means.Statement (record { inner = stmt.Copy (values.text_tree x) p.designator.inner at })))))).node) }
    ensures noted { OnOk result (book.new ≡ book_after book.old (spec.if_fit at (and_so (values.place_in y) (λ p. spec.if_is (spec.is_text (T.types types.now) x && values.is_chars (T.types types.now) y) (judged.sound (means.Statement (record { inner = stmt.Copy (values.text_tree x) p.designator.inner at })))))).notes) }
{
    let fits = is_text(types, &x) && is_chars(types, &y);
    copy_to(alloc, book, fits, at, x, place_of(y))
}
