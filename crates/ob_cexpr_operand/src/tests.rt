//! IS.

ghost use Rattle.std.specs.Prelude.{◌≡◌, Some, not, IfOk, OnOk};
ghost use Rattle.std.specs.Option.{option_copied};
ghost use Rattle.ob_rules.specs.Books.{book_after};
ghost use Rattle.ob_rules.specs.Judged as judged;
ghost use Rattle.ob_rules.specs.Names.{map_of};
ghost use Rattle.ob_rules.specs.Expressions as spec;
ghost use Rattle.ob_rules.specs.Values as values;
ghost use Rattle.ob_types.specs.TypedKinds.{of_basic};
ghost use Rattle.ob_types.specs.declared.types.Basic.TheVariants as basics;
ghost use Rattle.ob_cexpr_operand.specs.Plain.{plain};
ghost use Rattle.ob_rules.specs.declared.values.Valued.{Valued as AValued};
ghost use Rattle.ob_rules.specs.declared.broken.Rule.TheVariants as rule;

use ob_cexpr_designator::{guard_of, if_extends};
use ob_cexpr_name::{array_type, is_pointer, pointed_record, tree_of, type_named, types};
use ob_rules::{Computed, Notebook, Place, Rule, Surroundings, Valued};
use ob_tree::{Pos, QName, Qualident};
use ob_types::{Basic, ExprType, Guarded, TypeRef, Types};
use ob_types_trees::{ExprTree, copy_name};
use std::alloc::{AllocError, Global};

#[tactic(auto, using(ob_cexpr_operator::proofs::PointedLaws::no_pointer, ob_cexpr_operator::proofs::PointedLaws::some_pointer))]
fn points<T: Types>(types: &T, x: &Valued) -> bool
    ensures { result ≡ values.points (T.types types.now) (values.type x.now) }
{
    match array_type(x) {
        None => false,
        Some(t) => is_pointer(types, t),
    }
}

fn is_var_record(x: &Valued) -> bool
    ensures { result ≡ spec.var_record_in (values.place_in x.now) }
{
    match x {
        Valued::Place(place) => place.var_record,
        Valued::Constant(_) | Valued::Node(_) => false,
    }
}

fn is_testable<T: Types>(types: &T, x: &Valued) -> bool
    ensures { result ≡ spec.testable (T.types types.now) x.now }
{
    points(types, x) || is_var_record(x)
}

fn testable_by<T: Types>(
    types: &T,
    book: &mut Notebook,
    at: Pos,
    x: Option<Valued>,
) -> Option<Valued>
    ensures made { result ≡ (spec.untestable (T.types types.now) at (plain x)).node }
    ensures noted { book.new ≡ book_after book.old (spec.untestable (T.types types.now) at (plain x)).notes }
{
    match x {
        None => None,
        Some(x) => {
            let testable = is_testable(types, &x);
            book.wants(testable, Rule::UnfitTypeTest, at, x)
        }
    }
}

fn testable<S: Surroundings>(
    here: &S,
    book: &mut Notebook,
    at: Pos,
    x: Option<Valued>,
) -> Option<Valued>
    ensures made { result ≡ (spec.untestable (map_of (S.around here.now)) at (plain x)).node }
    ensures noted { book.new ≡ book_after book.old (spec.untestable (map_of (S.around here.now)) at (plain x)).notes }
{
    testable_by(types(here), book, at, x)
}

#[tactic(auto, using(crate::proofs::TestLaws::record_named))]
fn pointed_by<'a, T: Types>(types: &'a T, x: &'a Valued) -> Option<&'a QName>
    ensures { option_copied result ≡ spec.record_if (T.types types.now) (values.type_in (values.type x.now)) }
{
    match array_type(x) {
        None => None,
        Some(t) => pointed_record(types, t),
    }
}

// The record that a value points to.
fn record_behind<T: Types>(types: &T, x: &Valued) -> Result<Option<QName>, AllocError>
    ensures { IfOk result (λ r. r ≡ spec.record_if (T.types types.now) (values.type_in (values.type x.now))) }
{
    match pointed_by(types, x) {
        None => Ok(None),
        Some(name) => {
            let name = copy_name(name)?;
            Ok(Some(name))
        }
    }
}

fn truth(tree: ExprTree) -> Valued
    ensures { result ≡ values.computed tree.inner (of_basic basics.Boolean) }
{
    Valued::Node(Computed {
        tree,
        of: ExprType::Of(TypeRef::Basic(Basic::Boolean)),
    })
}

fn pointer_test(
    alloc: Global,
    x: Valued,
    guard: Option<(Guarded, QName)>,
) -> Result<Option<Valued>, AllocError>
    ensures { IfOk result (λ r. r ≡ spec.pointer_test x guard) }
{
    match guard {
        None => Ok(None),
        Some((_, target)) => {
            let tree = ExprTree::is_pointer(alloc, tree_of(x), target)?;
            Ok(Some(truth(tree)))
        }
    }
}

fn record_test(place: Place, guard: Option<(Guarded, QName)>) -> Option<Valued>
    ensures { result ≡ spec.record_test place guard }
{
    match guard {
        None => None,
        Some((_, target)) => {
            let designator = place.into_designator();
            Some(truth(ExprTree::is_record(designator, target)))
        }
    }
}

fn test_record<T: Types>(types: &T, x: Valued, t: &TypeRef) -> Result<Option<Valued>, AllocError>
    ensures { IfOk result (λ r. r ≡ spec.test_record (T.types types.now) (values.place_in x) t.now) }
{
    match x {
        Valued::Place(place) => {
            let guard = guard_of(types, &place, t)?;
            Ok(record_test(place, guard))
        }
        Valued::Constant(_) | Valued::Node(_) => Ok(None),
    }
}

fn test_pointer<T: Types>(
    alloc: Global,
    types: &T,
    x: Valued,
    t: &TypeRef,
    of: QName,
) -> Result<Option<Valued>, AllocError>
    ensures { IfOk result (λ r. r ≡ spec.test_of (T.types types.now) x t.now (Some of)) }
{
    let guard = if_extends(types, Guarded::Pointer, Some(&of), pointed_record(types, t))?;
    pointer_test(alloc, x, guard)
}

fn test_of<T: Types>(
    alloc: Global,
    types: &T,
    x: Valued,
    t: &TypeRef,
) -> Result<Option<Valued>, AllocError>
    ensures { IfOk result (λ r. r ≡ spec.test_of (T.types types.now) x t.now (spec.record_if (T.types types.now) (values.type_in (values.type x)))) }
{
    match record_behind(types, &x)? {
        Some(of) => test_pointer(alloc, types, x, t, of),
        None => test_record(types, x, t),
    }
}

fn test_by<T: Types>(
    alloc: Global,
    types: &T,
    book: &mut Notebook,
    at: Pos,
    x: Option<Valued>,
    t: Option<TypeRef>,
) -> Result<Option<Valued>, AllocError>
    ensures made { IfOk result (λ r. r ≡ (judged.if_sound (judged.paired x t) (λ p. spec.test (T.types types.now) at p.0 p.1)).node) }
    ensures noted { OnOk result (book.new ≡ book_after book.old (judged.if_sound (judged.paired x t) (λ p. spec.test (T.types types.now) at p.0 p.1)).notes) }
{
    match x {
        None => Ok(None),
        Some(x) => match t {
            None => Ok(None),
            Some(t) => {
                let test = test_of(alloc, types, x, &t)?;
                Ok(book.found_or(Rule::UnfitTypeTest, at, test))
            }
        },
    }
}

fn test<S: Surroundings>(
    alloc: Global,
    here: &S,
    book: &mut Notebook,
    at: Pos,
    x: Option<Valued>,
    t: Option<TypeRef>,
) -> Result<Option<Valued>, AllocError>
    ensures made { IfOk result (λ r. r ≡ (judged.if_sound (judged.paired x t) (λ p. spec.test (map_of (S.around here.now)) at p.0 p.1)).node) }
    ensures noted { OnOk result (book.new ≡ book_after book.old (judged.if_sound (judged.paired x t) (λ p. spec.test (map_of (S.around here.now)) at p.0 p.1)).notes) }
{
    test_by(alloc, types(here), book, at, x, t)
}

/// A test for the type of that name. None where it breaks rule 23, or the name breaks a rule.
#[inline(never)]
pub fn type_test<S: Surroundings>(
    alloc: Global,
    here: &S,
    book: &mut Notebook,
    at: Pos,
    x: Option<Valued>,
    name: &Qualident,
) -> Result<Option<Valued>, AllocError>
    ensures made { IfOk result (λ r. r ≡ (spec.type_test (S.around here.now) at (plain x) name.now).node) }
    ensures noted { OnOk result (book.new ≡ book_after book.old (spec.type_test (S.around here.now) at (plain x) name.now).notes) }
{
    let x = testable(here, book, at, x);
    let t = type_named(alloc, here, book, name)?;
    test(alloc, here, book, at, x, t)
}

fn misfit<T: Types>(types: &T, book: &mut Notebook, at: Pos, x: &Valued)
    ensures { book.new ≡ book_after book.old (judged.also (not (spec.testable (T.types types.now) x.now)) rule.UnfitTypeTest at (judged.breaks {A = AValued} rule.UnfitOperands at)).notes }
{
    if !is_testable(types, x) {
        book.breaks(Rule::UnfitTypeTest, at);
    }
    book.breaks(Rule::UnfitOperands, at);
}

/// IS with something else on its right, which breaks rule 21. What stands on both sides is noted
/// already.
#[inline(never)]
pub fn other_test<S: Surroundings>(
    here: &S,
    book: &mut Notebook,
    at: Pos,
    x: Option<Valued>,
    y: Option<Valued>,
) -> Option<Valued>
    ensures made { result ≡ (spec.other_test (map_of (S.around here.now)) at (plain x) (plain y)).node }
    ensures noted { book.new ≡ book_after book.old (spec.other_test (map_of (S.around here.now)) at (plain x) (plain y)).notes }
{
    match x {
        None => None,
        Some(x) => match y {
            None => None,
            Some(_) => {
                misfit(types(here), book, at, &x);
                None
            }
        },
    }
}
