//! What stands alone: constants, sets and designators as values.

ghost use Rattle.std.specs.Prelude.{◌≡◌, IfOk, OnOk, Some};
ghost use Rattle.std.specs.Option.{option_copied, option_map};
ghost use Rattle.ob_rules.specs.Books.{book_after};
ghost use Rattle.ob_rules.specs.Judged as judged;
ghost use Rattle.ob_rules.specs.Names as names;
ghost use Rattle.ob_rules.specs.Names.{map_of};
ghost use Rattle.ob_rules.specs.Shapes as shapes;
ghost use Rattle.ob_cexpr_operand.specs.Plain.{onto, alone, none_named};
ghost use Rattle.ob_rules.specs.Operators as operators;
ghost use Rattle.ob_rules.specs.Expressions as spec;
ghost use Rattle.ob_rules.specs.Values as values;
ghost use Rattle.ob_rules.specs.declared.meant.Meant.TheVariants as means;

use ob_cexpr_name::{type_named, types};
use ob_cexpr_operator::{element, set_of};
use ob_rules::{Computed, ElementOf, Meant, Notebook, Rule, Surroundings, Valued};
use ob_tree::{Pos, QName, Qualident};
use ob_types::{ExprType, Signature, TypeRef, Types, Value, signature_within};
use ob_types_assign::is_plain;
use ob_types_trees::{ExprTree, copy_signature};
use std::alloc::{AllocError, Global};

fn constant_of(book: &mut Notebook, start: Pos, x: Valued) -> Option<Value>
    ensures made { result ≡ (spec.constant_of start (values.constant_in x)).node }
    ensures noted { book.new ≡ book_after book.old (spec.constant_of start (values.constant_in x)).notes }
{
    match x {
        Valued::Constant(value) => Some(value),
        Valued::Place(_) | Valued::Node(_) => {
            book.breaks(Rule::NotConstant, start);
            None
        }
    }
}

/// The constant that an expression comes to. None where it comes to no constant, which breaks rule
/// 10, or breaks another rule; `quiet` says that it breaks none itself.
pub fn constant_if(book: &mut Notebook, start: Pos, x: Option<Valued>, quiet: bool) -> Option<Value>
    ensures made { result ≡ (spec.constant_if start x quiet).node }
    ensures noted { book.new ≡ book_after book.old (spec.constant_if start x quiet).notes }
{
    match x {
        Some(x) => constant_of(book, start, x),
        None => {
            if quiet {
                book.breaks(Rule::NotConstant, start);
            }
            None
        }
    }
}

/// An element of a set, or a range of them. None where it breaks rule 11 or 21.
#[inline(never)]
pub fn element_if<S: Surroundings>(
    alloc: Global,
    here: &S,
    book: &mut Notebook,
    at: Pos,
    low: Option<Valued>,
    high: Option<Option<Valued>>,
) -> Result<Option<ElementOf>, AllocError>
    ensures made { IfOk result (λ r. r ≡ (judged.if_sound (judged.paired low high) (λ p. operators.element (map_of (S.around here.now)) at p.0 p.1)).node) }
    ensures noted { OnOk result (book.new ≡ book_after book.old (judged.if_sound (judged.paired low high) (λ p. operators.element (map_of (S.around here.now)) at p.0 p.1)).notes) }
{
    match low {
        None => Ok(None),
        Some(low) => match high {
            None => Ok(None),
            Some(high) => element(alloc, types(here), book, at, low, high),
        },
    }
}

/// The set of these elements.
#[inline(never)]
pub fn set_if(alloc: Global, elements: Option<Vec<ElementOf>>) -> Result<Option<Valued>, AllocError>
    ensures { IfOk result (λ r. r ≡ option_map (λ xs. operators.set_of xs.items) elements) }
{
    match elements {
        None => Ok(None),
        Some(elements) => {
            let set = set_of(alloc, elements)?;
            Ok(Some(set))
        }
    }
}

fn procedure_value(
    book: &mut Notebook,
    at: Pos,
    name: QName,
    signature: Signature,
    more: Signature,
) -> Option<Valued>
    ensures made { more ≡ signature → result ≡ (spec.value_meant at (means.Procedure name signature)).node }
    ensures noted { book.new ≡ book_after book.old (spec.value_meant at (means.Procedure name signature)).notes }
{
    if is_plain(&name) {
        Some(Valued::Node(Computed {
            tree: ExprTree::procedure(name, signature),
            of: ExprType::Procedure(more),
        }))
    } else {
        book.breaks(Rule::UnfitProcedureValue, at);
        None
    }
}

/// What a designator comes to as a value. None where it breaks rule 39.
#[inline(never)]
pub fn value_if(
    alloc: Global,
    book: &mut Notebook,
    at: Pos,
    meant: Option<Meant>,
) -> Result<Option<Valued>, AllocError>
    ensures made { IfOk result (λ r. r ≡ (judged.if_sound meant (λ m. spec.value_meant at m)).node) }
    ensures noted { OnOk result (book.new ≡ book_after book.old (judged.if_sound meant (λ m. spec.value_meant at m)).notes) }
{
    match meant {
        None => Ok(None),
        Some(Meant::Place(place)) => Ok(Some(Valued::Place(place))),
        Some(Meant::Constant(value)) => Ok(Some(Valued::Constant(value))),
        Some(Meant::Procedure(name, signature)) => {
            let more = copy_signature(alloc, &signature)?;
            Ok(procedure_value(book, at, name, signature, more))
        }
        Some(Meant::Call(x)) => Ok(Some(x)),
        Some(Meant::Statement(_)) => Ok(None),
        Some(Meant::Bound(_) | Meant::Out(_) | Meant::Predeclared(_)) => {
            book.breaks(Rule::UnfitProcedureValue, at);
            Ok(None)
        }
    }
}

/// What there is, as a part that may be left out.
pub fn there<A: Drop>(x: Option<A>) -> Option<Option<A>>
    ensures { result ≡ (judged.if_sound x (λ v. judged.sound (Some v))).node }
{
    match x {
        None => None,
        Some(x) => Some(Some(x)),
    }
}

/// A parameter of MAX or MIN that is no type's name.
pub fn no_type(x: Option<Valued>) -> Option<Option<TypeRef>>
    ensures { result ≡ (judged.if_sound x (λ v. none_named)).node }
{
    match x {
        None => None,
        Some(_) => Some(None),
    }
}

/// The type of that name as a parameter of MAX or MIN. None where the name breaks a rule.
#[inline(never)]
pub fn type_parameter<S: Surroundings>(
    alloc: Global,
    here: &S,
    book: &mut Notebook,
    name: &Qualident,
) -> Result<Option<Option<TypeRef>>, AllocError>
    ensures made { IfOk result (λ r. r ≡ (judged.made (λ t. Some t) (names.type_named (S.around here.now) name.now)).node) }
    ensures noted { OnOk result (book.new ≡ book_after book.old (judged.made (λ t. Some t) (names.type_named (S.around here.now) name.now)).notes) }
{
    match type_named(alloc, here, book, name)? {
        None => Ok(None),
        Some(t) => Ok(Some(Some(t))),
    }
}

/// The row with one more at its end. None where one of them is none.
#[inline(never)]
pub fn row_with<A: Drop>(row: Option<Vec<A>>, x: Option<A>) -> Result<Option<Vec<A>>, AllocError>
    ensures { IfOk result (λ r. option_map (λ v. v.items) r ≡ onto (option_map (λ v. v.items) row) (alone x)) }
{
    match row {
        None => Ok(None),
        Some(mut all) => match x {
            None => Ok(None),
            Some(x) => {
                all.push(x)?;
                Ok(Some(all))
            }
        },
    }
}

fn signature_in<'a, T: Types>(types: &'a T, t: &'a TypeRef) -> Option<&'a Signature>
    ensures { option_copied result ≡ shapes.signature_at (T.types types.now) t.now }
{
    signature_within(types, t)
}

fn signature_at<'a, S: Surroundings>(here: &'a S, t: &'a TypeRef) -> Option<&'a Signature>
    ensures { option_copied result ≡ shapes.signature_at (map_of (S.around here.now)) t.now }
{
    signature_in(types(here), t)
}

/// The parameters of the procedures that a variable of the type holds. None where it holds none.
pub fn held_signature<S: Surroundings>(
    alloc: Global,
    here: &S,
    t: &TypeRef,
) -> Result<Option<Signature>, AllocError>
    ensures { IfOk result (λ r. r ≡ shapes.signature_at (map_of (S.around here.now)) t.now) }
{
    match signature_at(here, t) {
        None => Ok(None),
        Some(signature) => {
            let signature = copy_signature(alloc, signature)?;
            Ok(Some(signature))
        }
    }
}
