//! Sets and their elements.

ghost use Rattle.std.specs.Prelude.{◌≡◌, IfOk, OnOk, Some, None};
ghost use Rattle.ob_types.specs.declared.typed.TypedExpr.TheVariants as e;
ghost use Rattle.ob_types.specs.declared.typed.Unary.TheVariants as unary;
ghost use Rattle.ob_types.specs.declared.typed.Binary.TheVariants as binary;
ghost use Rattle.ob_types.specs.declared.value.Value.TheVariants as literal;
ghost use Rattle.ob_rules.specs.Books.{book_after};
ghost use Rattle.ob_rules.specs.Constants as constants;
ghost use Rattle.ob_rules.specs.Operators as spec;
ghost use Rattle.ob_rules.specs.Values as values;

use ob_cexpr_name::{is_integer, tree_of};
use ob_const::{fold_one, fold_two};
use ob_rules::{Computed, ElementOf, Notebook, Rule, Valued};
use ob_tree::Pos;
use ob_types::{Basic, Binary, ExprType, TypeRef, Types, Unary, Value};
use ob_types_trees::ExprTree;
use std::alloc::{AllocError, Global};

// A constant element; rule 11 where it is none.
fn element_folded(
    book: &mut Notebook,
    at: Pos,
    node: ExprTree,
    constant: Option<Value>,
) -> Option<ElementOf>
    ensures made { result ≡ (spec.element_folded at node.inner constant).node }
    ensures noted { book.new ≡ book_after book.old (spec.element_folded at node.inner constant).notes }
{
    match constant {
        None => {
            book.breaks(Rule::ConstantOutOfRange, at);
            None
        }
        Some(constant) => Some(ElementOf {
            at,
            node,
            constant: Some(constant),
        }),
    }
}

fn single_node(alloc: Global, at: Pos, x: Valued) -> Result<ExprTree, AllocError>
    ensures { IfOk result (λ r. r.inner ≡ e.Unary unary.Element (values.tree x) at) }
{
    ExprTree::unary(alloc, Unary::Element, tree_of(x), at)
}

fn computed_single(alloc: Global, at: Pos, x: Valued) -> Result<Option<ElementOf>, AllocError>
    ensures { IfOk result (λ r. r ≡ Some (spec.element_as at (e.Unary unary.Element (values.tree x) at) None)) }
{
    let node = single_node(alloc, at, x)?;
    Ok(Some(ElementOf {
        at,
        node,
        constant: None,
    }))
}

fn single(
    alloc: Global,
    book: &mut Notebook,
    at: Pos,
    x: Valued,
) -> Result<Option<ElementOf>, AllocError>
    ensures made { IfOk result (λ r. r ≡ (spec.single at (e.Unary unary.Element (values.tree x) at) (values.constant_in x)).node) }
    ensures noted { OnOk result (book.new ≡ book_after book.old (spec.single at (e.Unary unary.Element (values.tree x) at) (values.constant_in x)).notes) }
{
    match x {
        Valued::Constant(value) => {
            let set = fold_one(Unary::Element, &value);
            let node = single_node(alloc, at, Valued::Constant(value))?;
            Ok(element_folded(book, at, node, set))
        }
        Valued::Place(place) => computed_single(alloc, at, Valued::Place(place)),
        Valued::Node(node) => computed_single(alloc, at, Valued::Node(node)),
    }
}

fn range_node(alloc: Global, at: Pos, a: Valued, b: Valued) -> Result<ExprTree, AllocError>
    ensures { IfOk result (λ r. r.inner ≡ e.Binary binary.Range (values.tree a) (values.tree b) at) }
{
    ExprTree::binary(alloc, Binary::Range, tree_of(a), tree_of(b), at)
}

fn computed_range(
    alloc: Global,
    at: Pos,
    a: Valued,
    b: Valued,
) -> Result<Option<ElementOf>, AllocError>
    ensures { IfOk result (λ r. r ≡ Some (spec.element_as at (e.Binary binary.Range (values.tree a) (values.tree b) at) None)) }
{
    let node = range_node(alloc, at, a, b)?;
    Ok(Some(ElementOf {
        at,
        node,
        constant: None,
    }))
}

fn range_from(
    alloc: Global,
    book: &mut Notebook,
    at: Pos,
    a: Value,
    b: Valued,
) -> Result<Option<ElementOf>, AllocError>
    ensures made { IfOk result (λ r. r ≡ (spec.ranged at (e.Binary binary.Range (e.Constant a) (values.tree b) at) (Some a) (values.constant_in b)).node) }
    ensures noted { OnOk result (book.new ≡ book_after book.old (spec.ranged at (e.Binary binary.Range (e.Constant a) (values.tree b) at) (Some a) (values.constant_in b)).notes) }
{
    match b {
        Valued::Constant(value) => {
            let set = fold_two(Binary::Range, &a, &value);
            let node = range_node(alloc, at, Valued::Constant(a), Valued::Constant(value))?;
            Ok(element_folded(book, at, node, set))
        }
        Valued::Place(place) => {
            computed_range(alloc, at, Valued::Constant(a), Valued::Place(place))
        }
        Valued::Node(node) => computed_range(alloc, at, Valued::Constant(a), Valued::Node(node)),
    }
}

fn ranged(
    alloc: Global,
    book: &mut Notebook,
    at: Pos,
    a: Valued,
    b: Valued,
) -> Result<Option<ElementOf>, AllocError>
    ensures made { IfOk result (λ r. r ≡ (spec.ranged at (e.Binary binary.Range (values.tree a) (values.tree b) at) (values.constant_in a) (values.constant_in b)).node) }
    ensures noted { OnOk result (book.new ≡ book_after book.old (spec.ranged at (e.Binary binary.Range (values.tree a) (values.tree b) at) (values.constant_in a) (values.constant_in b)).notes) }
{
    match a {
        Valued::Constant(value) => range_from(alloc, book, at, value, b),
        Valued::Place(place) => computed_range(alloc, at, Valued::Place(place), b),
        Valued::Node(node) => computed_range(alloc, at, Valued::Node(node), b),
    }
}

/// An element of a set, or a range of them. Rules 21 and 11.
pub fn element<T: Types>(
    alloc: Global,
    types: &T,
    book: &mut Notebook,
    at: Pos,
    low: Valued,
    high: Option<Valued>,
) -> Result<Option<ElementOf>, AllocError>
    ensures made { IfOk result (λ r. r ≡ (spec.element (T.types types.now) at low high).node) }
    ensures noted { OnOk result (book.new ≡ book_after book.old (spec.element (T.types types.now) at low high).notes) }
{
    match high {
        None => {
            if is_integer(types, &low) {
                single(alloc, book, at, low)
            } else {
                book.breaks(Rule::UnfitOperands, at);
                Ok(None)
            }
        }
        Some(high) => {
            if is_integer(types, &low) && is_integer(types, &high) {
                ranged(alloc, book, at, low, high)
            } else {
                book.breaks(Rule::UnfitOperands, at);
                Ok(None)
            }
        }
    }
}

// The constant that the set is, if all its elements are constant.
fn constant_of(elements: &[ElementOf]) -> Option<Value>
    ensures { result ≡ spec.all_constant (literal.Set 0) elements.now }
{
    let mut all = Value::Set(0);
    'elements: for element in elements {
        all = with_element(&all, &element.constant)?;
    }
    Some(all)
}

fn with_element(all: &Value, element: &Option<Value>) -> Option<Value>
    ensures { result ≡ spec.and_so element.now (λ v. constants.fold_two binary.Union all.now v) }
{
    match element {
        None => None,
        Some(element) => fold_two(Binary::Union, all, element),
    }
}

#[tactic(auto, using(crate::proofs::SetLaws::union_behind))]
fn union_of(alloc: Global, elements: Vec<ElementOf>) -> Result<ExprTree, AllocError>
    ensures { IfOk result (λ r. r.inner ≡ spec.union_of (e.Constant (literal.Set 0)) elements.items) }
{
    let mut all = ExprTree::constant(Value::Set(0));
    'elements: for element in elements {
        let ElementOf { at, node, .. } = element;
        all = ExprTree::binary(alloc, Binary::Union, all, node, at)?;
    }
    Ok(all)
}

fn set_tree(alloc: Global, elements: Vec<ElementOf>) -> Result<Valued, AllocError>
    ensures { IfOk result (λ r. r ≡ spec.set_from elements.items None) }
{
    let tree = union_of(alloc, elements)?;
    Ok(Valued::Node(Computed {
        tree,
        of: ExprType::Of(TypeRef::Basic(Basic::Set)),
    }))
}

/// A set of these elements: a constant where all of them are.
pub fn set_of(alloc: Global, elements: Vec<ElementOf>) -> Result<Valued, AllocError>
    ensures { IfOk result (λ r. r ≡ spec.set_of elements.items) }
{
    match constant_of(elements.as_slice()) {
        Some(set) => Ok(Valued::Constant(set)),
        None => set_tree(alloc, elements),
    }
}
