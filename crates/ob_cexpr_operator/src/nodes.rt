//! Nodes of operations, constants at once.

ghost use Rattle.std.specs.Prelude.{◌≡◌, IfOk, OnOk, Some};
ghost use Rattle.ob_types.specs.TypedKinds.{unary_type, binary_type, of_basic};
ghost use Rattle.ob_types.specs.declared.types.Basic.TheVariants as basics;
ghost use Rattle.ob_types.specs.declared.typed.TypedExpr.TheVariants as e;
ghost use Rattle.ob_rules.specs.Books.{book_after};
ghost use Rattle.ob_rules.specs.Operators as spec;
ghost use Rattle.ob_rules.specs.Values as values;

use ob_cexpr_name::{text_tree, tree_of};
use ob_const::{fold_logical, fold_one, fold_texts, fold_two};
use ob_rules::{Computed, Notebook, Rule, Valued};
use ob_tree::Pos;
use ob_types::{Basic, Binary, Comparison, Connective, ExprType, TypeRef, Unary, Value};
use ob_types_assign::{basic_of_binary, basic_of_unary};
use ob_types_trees::ExprTree;
use std::alloc::{AllocError, Global};

// The constant; rule 11 where there is none.
fn folded(book: &mut Notebook, at: Pos, value: Option<Value>) -> Option<Valued>
    ensures made { result ≡ (spec.folded at value).node }
    ensures noted { book.new ≡ book_after book.old (spec.folded at value).notes }
{
    match value {
        None => {
            book.breaks(Rule::ConstantOutOfRange, at);
            None
        }
        Some(value) => Some(Valued::Constant(value)),
    }
}

fn computed(tree: ExprTree, basic: Basic) -> Valued
    ensures { result ≡ values.computed tree.inner (of_basic basic) }
{
    Valued::Node(Computed {
        tree,
        of: ExprType::Of(TypeRef::Basic(basic)),
    })
}

fn unary_node(alloc: Global, op: Unary, at: Pos, x: Valued) -> Result<Option<Valued>, AllocError>
    ensures { IfOk result (λ r. r ≡ Some (values.computed (e.Unary op (values.tree x) at) (unary_type op))) }
{
    let tree = ExprTree::unary(alloc, op, tree_of(x), at)?;
    Ok(Some(computed(tree, basic_of_unary(op))))
}

/// An operation on one value, a constant's at once. Rule 11.
pub fn monadic(
    alloc: Global,
    book: &mut Notebook,
    op: Unary,
    at: Pos,
    x: Valued,
) -> Result<Option<Valued>, AllocError>
    ensures made { IfOk result (λ r. r ≡ (spec.monadic op at x).node) }
    ensures noted { OnOk result (book.new ≡ book_after book.old (spec.monadic op at x).notes) }
{
    match x {
        Valued::Constant(value) => Ok(folded(book, at, fold_one(op, &value))),
        Valued::Place(place) => unary_node(alloc, op, at, Valued::Place(place)),
        Valued::Node(node) => unary_node(alloc, op, at, Valued::Node(node)),
    }
}

fn binary_node(
    alloc: Global,
    op: Binary,
    at: Pos,
    a: Valued,
    b: Valued,
) -> Result<Option<Valued>, AllocError>
    ensures { IfOk result (λ r. r ≡ Some (values.computed (e.Binary op (values.tree a) (values.tree b) at) (binary_type op))) }
{
    let tree = ExprTree::binary(alloc, op, tree_of(a), tree_of(b), at)?;
    Ok(Some(computed(tree, basic_of_binary(op))))
}

fn with_constant(
    alloc: Global,
    book: &mut Notebook,
    op: Binary,
    at: Pos,
    a: Value,
    b: Valued,
) -> Result<Option<Valued>, AllocError>
    ensures made { IfOk result (λ r. r ≡ (spec.dyadic op at (values.constant a) b).node) }
    ensures noted { OnOk result (book.new ≡ book_after book.old (spec.dyadic op at (values.constant a) b).notes) }
{
    match b {
        Valued::Constant(value) => Ok(folded(book, at, fold_two(op, &a, &value))),
        Valued::Place(place) => {
            binary_node(alloc, op, at, Valued::Constant(a), Valued::Place(place))
        }
        Valued::Node(node) => binary_node(alloc, op, at, Valued::Constant(a), Valued::Node(node)),
    }
}

/// An operation on two values, that of constants at once. Rule 11.
pub fn dyadic(
    alloc: Global,
    book: &mut Notebook,
    op: Binary,
    at: Pos,
    a: Valued,
    b: Valued,
) -> Result<Option<Valued>, AllocError>
    ensures made { IfOk result (λ r. r ≡ (spec.dyadic op at a b).node) }
    ensures noted { OnOk result (book.new ≡ book_after book.old (spec.dyadic op at a b).notes) }
{
    match a {
        Valued::Constant(value) => with_constant(alloc, book, op, at, value, b),
        Valued::Place(place) => binary_node(alloc, op, at, Valued::Place(place), b),
        Valued::Node(node) => binary_node(alloc, op, at, Valued::Node(node), b),
    }
}

fn logical_node(
    alloc: Global,
    op: Connective,
    a: Valued,
    b: Valued,
) -> Result<Option<Valued>, AllocError>
    ensures { IfOk result (λ r. r ≡ Some (values.computed (e.Logical op (values.tree a) (values.tree b)) (of_basic basics.Boolean))) }
{
    let tree = ExprTree::logical(alloc, op, tree_of(a), tree_of(b))?;
    Ok(Some(computed(tree, Basic::Boolean)))
}

fn with_truth(
    alloc: Global,
    book: &mut Notebook,
    op: Connective,
    at: Pos,
    a: Value,
    b: Valued,
) -> Result<Option<Valued>, AllocError>
    ensures made { IfOk result (λ r. r ≡ (spec.logical op at (values.constant a) b).node) }
    ensures noted { OnOk result (book.new ≡ book_after book.old (spec.logical op at (values.constant a) b).notes) }
{
    match b {
        Valued::Constant(value) => Ok(folded(book, at, fold_logical(op, &a, &value))),
        Valued::Place(place) => logical_node(alloc, op, Valued::Constant(a), Valued::Place(place)),
        Valued::Node(node) => logical_node(alloc, op, Valued::Constant(a), Valued::Node(node)),
    }
}

/// `&` or `OR`, of constants at once. Rule 11.
pub fn logical(
    alloc: Global,
    book: &mut Notebook,
    op: Connective,
    at: Pos,
    a: Valued,
    b: Valued,
) -> Result<Option<Valued>, AllocError>
    ensures made { IfOk result (λ r. r ≡ (spec.logical op at a b).node) }
    ensures noted { OnOk result (book.new ≡ book_after book.old (spec.logical op at a b).notes) }
{
    match a {
        Valued::Constant(value) => with_truth(alloc, book, op, at, value, b),
        Valued::Place(place) => logical_node(alloc, op, Valued::Place(place), b),
        Valued::Node(node) => logical_node(alloc, op, Valued::Node(node), b),
    }
}

fn texts_node(
    alloc: Global,
    comparison: Comparison,
    at: Pos,
    a: Valued,
    b: Valued,
) -> Result<Option<Valued>, AllocError>
    ensures { IfOk result (λ r. r ≡ Some (values.computed (e.CompareTexts comparison (values.text_tree a) (values.text_tree b) at) (of_basic basics.Boolean))) }
{
    let left = text_tree(alloc, a)?;
    let right = text_tree(alloc, b)?;
    let tree = ExprTree::compare_texts(alloc, comparison, left, right, at)?;
    Ok(Some(computed(tree, Basic::Boolean)))
}

fn with_text(
    alloc: Global,
    book: &mut Notebook,
    comparison: Comparison,
    at: Pos,
    a: Value,
    b: Valued,
) -> Result<Option<Valued>, AllocError>
    ensures made { IfOk result (λ r. r ≡ (spec.texts comparison at (values.constant a) b).node) }
    ensures noted { OnOk result (book.new ≡ book_after book.old (spec.texts comparison at (values.constant a) b).notes) }
{
    match b {
        Valued::Constant(value) => Ok(folded(book, at, fold_texts(comparison, &a, &value))),
        Valued::Place(place) => {
            texts_node(
                alloc,
                comparison,
                at,
                Valued::Constant(a),
                Valued::Place(place),
            )
        }
        Valued::Node(node) => {
            texts_node(
                alloc,
                comparison,
                at,
                Valued::Constant(a),
                Valued::Node(node),
            )
        }
    }
}

/// A relation of strings and character arrays, of constants at once. Rule 11.
pub fn texts(
    alloc: Global,
    book: &mut Notebook,
    comparison: Comparison,
    at: Pos,
    a: Valued,
    b: Valued,
) -> Result<Option<Valued>, AllocError>
    ensures made { IfOk result (λ r. r ≡ (spec.texts comparison at a b).node) }
    ensures noted { OnOk result (book.new ≡ book_after book.old (spec.texts comparison at a b).notes) }
{
    match a {
        Valued::Constant(value) => with_text(alloc, book, comparison, at, value, b),
        Valued::Place(place) => texts_node(alloc, comparison, at, Valued::Place(place), b),
        Valued::Node(node) => texts_node(alloc, comparison, at, Valued::Node(node), b),
    }
}

/// The value itself, which is no variable.
pub fn only_value(x: Valued) -> Valued
    ensures { result ≡ spec.only_value x }
{
    match x {
        Valued::Place(place) => {
            let (designator, of) = place.into_typed();
            Valued::Node(Computed {
                tree: ExprTree::designator(designator),
                of: ExprType::Of(of),
            })
        }
        Valued::Constant(value) => Valued::Constant(value),
        Valued::Node(node) => Valued::Node(node),
    }
}
