//! Actual parameters.

ghost use Rattle.std.specs.Prelude.{◌≡◌, IfOk, OnOk, None, not};
ghost use Rattle.ob_rules.specs.Books.{book_after};
ghost use Rattle.ob_rules.specs.Judged as judged;
ghost use Rattle.ob_rules.specs.Names.{map_of};
ghost use Rattle.ob_rules.specs.Calls as spec;
ghost use Rattle.std.specs.Option.{option_copied};
ghost use Rattle.ob_types.specs.declared.types.Basic.TheVariants as basic;
ghost use Rattle.ob_types.specs.declared.types.Mode.TheVariants as mode;
ghost use Rattle.ob_types.specs.declared.types.TypeRef.TheVariants as ref;
ghost use Rattle.ob_types.specs.declared.typed.Actual.{Actual as AActual};
ghost use Rattle.ob_types.specs.Tests.{same_at};
ghost use Rattle.ob_rules.specs.declared.broken.Rule.TheVariants as rule;
ghost use Rattle.ob_rules.specs.Shapes as shapes;
ghost use Rattle.ob_rules.specs.Values as values;
ghost use Rattle.ob_cexpr_call.specs.Rows.{actual_seen, one_seen};

use ob_cexpr_name::{
    array_type, extends_record, fits, has_elements, has_text, is_array, open_element, passing_of,
    record_of, text_tree, tree_of, types,
};
use ob_rules::{Meant, Notebook, Place, Rule, Surroundings, Valued};
use ob_tree::{Pos, QName};
use ob_types::{Basic, Mode, Passing, TypeRef, Types, is_same_at};
use ob_types_trees::{ExprTree, copy_type};
use std::alloc::{AllocError, Global};

/// An actual parameter: how it is passed, the type of the formal one, and its value.
#[derive(Drop)]
pub struct Passed {
    pub passing: Passing,
    pub formal: TypeRef,
    pub value: ExprTree,
}

fn tree_for(alloc: Global, array: bool, x: Valued) -> Result<ExprTree, AllocError>
    ensures { IfOk result (λ r. r.inner ≡ spec.tree_for array x) }
{
    if array {
        text_tree(alloc, x)
    } else {
        Ok(tree_of(x))
    }
}

#[tactic(auto, using(crate::proofs::ArrayLaws::no_array, crate::proofs::ArrayLaws::some_array))]
fn is_array_of<T: Types>(types: &T, element: &TypeRef, x: &Valued) -> bool
    ensures { result ≡ spec.array_takes (T.types types.now) element.now (values.type_in (values.type x.now)) }
{
    match array_type(x) {
        None => false,
        Some(t) => has_elements(types, element, t),
    }
}

fn is_char<T: Types>(types: &T, element: &TypeRef) -> bool
    ensures { result ≡ same_at (T.types types.now) element.now (ref.Basic basic.Char) }
{
    let char = TypeRef::Basic(Basic::Char);
    is_same_at(types, element, &char)
}

fn takes_value<T: Types>(types: &T, formal: &TypeRef, x: &Valued) -> bool
    ensures { result ≡ spec.takes_value (T.types types.now) (shapes.open_element (T.types types.now) formal.now) formal.now x.now }
{
    match open_element(types, formal) {
        None => fits(types, formal, x),
        Some(element) => {
            is_array_of(types, element, x) || (is_char(types, element) && has_text(x))
        }
    }
}

fn passed_value<T: Types>(
    alloc: Global,
    types: &T,
    formal: &TypeRef,
    x: Valued,
) -> Result<Passed, AllocError>
    ensures { IfOk result (λ r. actual_seen r ≡ spec.actual_of (shapes.passing_of (T.types types.now) mode.Value formal.now) formal.now (spec.tree_for (shapes.is_array (T.types types.now) formal.now) x)) }
{
    let value = tree_for(alloc, is_array(types, formal), x)?;
    let passing = passing_of(types, Mode::Value, formal);
    let formal = copy_type(formal)?;
    Ok(Passed {
        passing,
        formal,
        value,
    })
}

fn value_if<T: Types>(
    alloc: Global,
    types: &T,
    book: &mut Notebook,
    formal: &TypeRef,
    start: Pos,
    x: Valued,
) -> Result<Option<Passed>, AllocError>
    ensures made { IfOk result (λ r. one_seen r ≡ (spec.value_actual (T.types types.now) formal.now start x).node) }
    ensures noted { OnOk result (book.new ≡ book_after book.old (spec.value_actual (T.types types.now) formal.now start x).notes) }
{
    if takes_value(types, formal, &x) {
        let passed = passed_value(alloc, types, formal, x)?;
        Ok(Some(passed))
    } else {
        book.breaks(Rule::UnfitParameter, start);
        Ok(None)
    }
}

/// A value as the actual parameter for a formal one of that type by value, where it is judged
/// already. None where it is none, or breaks rule 25.
pub fn value_actual<S: Surroundings>(
    alloc: Global,
    here: &S,
    book: &mut Notebook,
    formal: &TypeRef,
    start: Pos,
    x: Option<Valued>,
) -> Result<Option<Passed>, AllocError>
    ensures made { IfOk result (λ r. one_seen r ≡ (judged.if_sound x (spec.value_actual (map_of (S.around here.now)) formal.now start)).node) }
    ensures noted { OnOk result (book.new ≡ book_after book.old (judged.if_sound x (spec.value_actual (map_of (S.around here.now)) formal.now start)).notes) }
{
    match x {
        None => Ok(None),
        Some(x) => value_if(alloc, types(here), book, formal, start, x),
    }
}

fn both_records<T: Types>(
    types: &T,
    a: Option<&QName>,
    b: Option<&QName>,
) -> Result<bool, AllocError>
    ensures { IfOk result (λ r. r ≡ spec.both_records (T.types types.now) (option_copied a.entry) (option_copied b.entry)) }
{
    match a {
        None => Ok(false),
        Some(a) => match b {
            None => Ok(false),
            Some(b) => extends_record(types, a, b),
        },
    }
}

fn same_or_record<T: Types>(types: &T, formal: &TypeRef, of: &TypeRef) -> Result<bool, AllocError>
    ensures { IfOk result (λ r. r ≡ spec.takes_variable (T.types types.now) None formal.now of.now) }
{
    if is_same_at(types, of, formal) {
        Ok(true)
    } else {
        both_records(types, record_of(types, of), record_of(types, formal))
    }
}

fn takes_variable<T: Types>(types: &T, formal: &TypeRef, of: &TypeRef) -> Result<bool, AllocError>
    ensures { IfOk result (λ r. r ≡ spec.takes_variable (T.types types.now) (shapes.open_element (T.types types.now) formal.now) formal.now of.now) }
{
    match open_element(types, formal) {
        None => same_or_record(types, formal, of),
        Some(element) => Ok(has_elements(types, element, of)),
    }
}

fn unless_guarded<T: Types>(
    types: &T,
    book: &mut Notebook,
    formal: &TypeRef,
    start: Pos,
    place: Place,
) -> Result<Option<Passed>, AllocError>
    ensures made { IfOk result (λ r. one_seen r ≡ (spec.unless_guarded (T.types types.now) formal.now start place).node) }
    ensures noted { OnOk result (book.new ≡ book_after book.old (spec.unless_guarded (T.types types.now) formal.now start place).notes) }
{
    if place.guarded {
        book.breaks(Rule::GuardedVarParameter, start);
        Ok(None)
    } else {
        let passing = passing_of(types, Mode::Var, formal);
        let formal = copy_type(formal)?;
        let designator = place.into_designator();
        Ok(Some(Passed {
            passing,
            formal,
            value: ExprTree::designator(designator),
        }))
    }
}

fn unless_read_only<T: Types>(
    types: &T,
    book: &mut Notebook,
    formal: &TypeRef,
    start: Pos,
    place: Place,
) -> Result<Option<Passed>, AllocError>
    ensures made { IfOk result (λ r. one_seen r ≡ (spec.unless_read_only (T.types types.now) formal.now start place).node) }
    ensures noted { OnOk result (book.new ≡ book_after book.old (spec.unless_read_only (T.types types.now) formal.now start place).notes) }
{
    if place.read_only {
        book.breaks(Rule::NotChangeable, start);
        let _ = unless_guarded(types, book, formal, start, place)?;
        Ok(None)
    } else {
        unless_guarded(types, book, formal, start, place)
    }
}

fn unless_unfit<T: Types>(
    types: &T,
    book: &mut Notebook,
    fits: bool,
    formal: &TypeRef,
    start: Pos,
    place: Place,
) -> Result<Option<Passed>, AllocError>
    ensures made { IfOk result (λ r. one_seen r ≡ (judged.also (not fits) rule.UnfitParameter start (spec.unless_read_only (T.types types.now) formal.now start place)).node) }
    ensures noted { OnOk result (book.new ≡ book_after book.old (judged.also (not fits) rule.UnfitParameter start (spec.unless_read_only (T.types types.now) formal.now start place)).notes) }
{
    if fits {
        unless_read_only(types, book, formal, start, place)
    } else {
        book.breaks(Rule::UnfitParameter, start);
        let _ = unless_read_only(types, book, formal, start, place)?;
        Ok(None)
    }
}

fn variable_actual<T: Types>(
    types: &T,
    book: &mut Notebook,
    formal: &TypeRef,
    start: Pos,
    place: Place,
) -> Result<Option<Passed>, AllocError>
    ensures made { IfOk result (λ r. one_seen r ≡ (spec.variable_actual (T.types types.now) formal.now start place).node) }
    ensures noted { OnOk result (book.new ≡ book_after book.old (spec.variable_actual (T.types types.now) formal.now start place).notes) }
{
    let fits = takes_variable(types, formal, &place.of)?;
    unless_unfit(types, book, fits, formal, start, place)
}

fn meant_if<T: Types>(
    types: &T,
    book: &mut Notebook,
    formal: &TypeRef,
    start: Pos,
    meant: Meant,
) -> Result<Option<Passed>, AllocError>
    ensures made { IfOk result (λ r. one_seen r ≡ (spec.meant_actual (T.types types.now) formal.now start meant).node) }
    ensures noted { OnOk result (book.new ≡ book_after book.old (spec.meant_actual (T.types types.now) formal.now start meant).notes) }
{
    match meant {
        Meant::Place(place) => variable_actual(types, book, formal, start, place),
        Meant::Call(_) => {
            book.breaks(Rule::UnfitParameter, start);
            Ok(None)
        }
        Meant::Constant(_)
        | Meant::Procedure(_, _)
        | Meant::Bound(_)
        | Meant::Out(_)
        | Meant::Predeclared(_)
        | Meant::Statement(_) => {
            book.breaks(Rule::NotChangeable, start);
            Ok(None)
        }
    }
}

/// What a designator comes to as the actual parameter for a formal one of that type by VAR, where it
/// is judged already. None where it is none, or breaks rule 25, 26 or 38.
pub fn meant_actual<S: Surroundings>(
    here: &S,
    book: &mut Notebook,
    formal: &TypeRef,
    start: Pos,
    meant: Option<Meant>,
) -> Result<Option<Passed>, AllocError>
    ensures made { IfOk result (λ r. one_seen r ≡ (judged.if_sound meant (spec.meant_actual (map_of (S.around here.now)) formal.now start)).node) }
    ensures noted { OnOk result (book.new ≡ book_after book.old (judged.if_sound meant (spec.meant_actual (map_of (S.around here.now)) formal.now start)).notes) }
{
    match meant {
        None => Ok(None),
        Some(meant) => meant_if(types(here), book, formal, start, meant),
    }
}

/// An expression that is no designator as the actual parameter for a formal one by VAR, where it is
/// judged already: rule 25, where there is one. Takes no memory.
pub fn not_a_variable(book: &mut Notebook, start: Pos, x: Option<Valued>) -> Option<Passed>
    ensures made { one_seen result ≡ (judged.if_sound {B = AActual} x (λ v. judged.breaks rule.UnfitParameter start)).node }
    ensures noted { book.new ≡ book_after book.old (judged.if_sound {B = AActual} x (λ v. judged.breaks rule.UnfitParameter start)).notes }
{
    if x.is_some() {
        book.breaks(Rule::UnfitParameter, start);
    }
    None
}
