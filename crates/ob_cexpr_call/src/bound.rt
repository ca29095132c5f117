//! Calls of bound procedures.

ghost use Rattle.std.specs.Prelude.{◌≡◌, IfOk, OnOk, ℕ, ◌&&◌, ◌∷◌, is_none};
ghost use Rattle.ob_tree.specs.declared.pos.Pos.{Pos as APos};
ghost use Rattle.ob_types.specs.declared.typed.TypedExpr.TheVariants as e;
ghost use Rattle.std.specs.Option.{option_copied};
ghost use Rattle.ob_rules.specs.Books.{book_after};
ghost use Rattle.ob_rules.specs.Names.{map_of};
ghost use Rattle.ob_rules.specs.Shapes as shapes;
ghost use Rattle.ob_rules.specs.Judged as judged;
ghost use Rattle.ob_rules.specs.Phrases as phrases;
ghost use Rattle.ob_rules.specs.Calls as spec;
ghost use Rattle.ob_cexpr_call.specs.Rows.{actual_seen, row_seen};
ghost use Rattle.ob_rules.specs.declared.broken.Rule.{Rule as ARule};

use crate::actuals::Passed;
use crate::callees::{copy_result, misplaced, result_kind};
use ob_cexpr_designator::through;
use ob_cexpr_name::{base_record, types};
use ob_rules::{Chosen, Computed, Notebook, Place, Rule, Surroundings, Valued, Where};
use ob_tree::{CompactName, Name, Pos, QName};
use ob_types::{Callee, Family, Passing, Receiver, TypeRef};
use ob_types_trees::{ActualTrees, ExprTree, copy_name};
use std::alloc::{AllocError, Global};

fn base_in<'a, S: Surroundings>(here: &'a S, owner: &QName) -> Option<&'a QName>
    ensures { option_copied result ≡ shapes.base_record (map_of (S.around here.now)) owner.now }
{
    base_record(types(here), owner)
}

// The same, in at most so many records.
#[tactic(auto, unfolding(ob_rules::specs::Calls::nearest_sound))]
fn nearest_sound<S: Surroundings>(here: &S, left: u32, owner: &QName, name: &Name) -> bool
    ensures { result ≡ spec.nearest_sound (S.around here.now) left owner.now name.now }
{
    if left == 0 {
        return true;
    }
    if owner.module.as_bytes() != here.unit().as_bytes() {
        return true;
    }
    match here.bound_for(owner, name) {
        Some(bound) => bound.signature.is_some(),
        None => match base_in(here, owner) {
            None => true,
            Some(base) => nearest_sound(here, left - 1, base, name),
        },
    }
}

fn where_from(chosen: &Chosen) -> &QName
    ensures { result.now ≡ spec.where_from chosen.now chosen.now.base }
{
    match &chosen.base {
        None => &chosen.owner,
        Some(base) => base,
    }
}

/// Whether the nearest declaration of the procedure that is called keeps all rules. Takes no memory.
pub fn is_nearest_sound<S: Surroundings>(here: &S, chosen: &Chosen) -> bool
    ensures { result ≡ spec.nearest_sound (S.around here.now) 201 (spec.where_from chosen.now chosen.now.base) chosen.now.method.name }
{
    nearest_sound(here, 201, where_from(chosen), &chosen.method.name)
}

fn is_place_read_only(place: &Place, pointed: &Option<TypeRef>) -> bool
    ensures { (start : APos) → result ≡ (phrases.record_receiver start place.now pointed.now).read_only }
{
    match pointed {
        None => place.read_only,
        Some(_) => false,
    }
}

/// Whether rule 26 is broken by a read-only record that is the receiver of a VAR record; that of a
/// super call is not asked.
pub fn is_receiver_read_only(chosen: &Chosen) -> bool
    ensures { result ≡ (spec.is_record_receiver chosen.now.method.receiver && ((phrases.receiver_place chosen.now).read_only && is_none chosen.now.base)) }
{
    match chosen.method.receiver {
        Receiver::Pointer => false,
        Receiver::Record => {
            is_place_read_only(&chosen.receiver, &chosen.pointed) && chosen.base.is_none()
        }
    }
}

/// What was made of a part, unless the part breaks a rule besides, which is noted already.
pub fn unless_broken(broken: bool, call: Option<Valued>) -> Option<Valued>
    ensures { (which : ARule) (at : APos) (n : judged.Notes) → result ≡ (judged.also broken which at (record { node = call; notes = n })).node }
{
    if broken { None } else { call }
}

fn family_of(alloc: Global, chosen: &Chosen) -> Result<Family, AllocError>
    ensures { IfOk result (λ r. r ≡ spec.family_of chosen.now) }
{
    let owner = copy_name(&chosen.introduced)?;
    let name = CompactName::of(alloc, &chosen.method.name)?;
    Ok(Family { owner, name })
}

fn bound_callee(alloc: Global, chosen: &Chosen) -> Result<Callee, AllocError>
    ensures { IfOk result (λ r. r ≡ spec.bound_callee chosen.now chosen.now.base) }
{
    let family = family_of(alloc, chosen)?;
    let receiver = chosen.method.receiver;
    match &chosen.base {
        None => Ok(Callee::Bound { family, receiver }),
        Some(base) => {
            let base = copy_name(base)?;
            Ok(Callee::Super {
                base,
                family,
                receiver,
            })
        }
    }
}

fn receiver_actual(alloc: Global, chosen: Chosen) -> Result<Passed, AllocError>
    ensures { IfOk result (λ r. actual_seen r ≡ spec.receiver_actual chosen.method.receiver chosen) }
{
    let start = chosen.start;
    let by = chosen.method.receiver;
    let (receiver, pointed, owner) = chosen.into_receiver();
    match by {
        Receiver::Pointer => {
            let (designator, of) = receiver.into_typed();
            Ok(Passed {
                passing: Passing::Scalar,
                formal: of,
                value: ExprTree::designator(designator),
            })
        }
        Receiver::Record => {
            let place = through(alloc, start, receiver, pointed)?;
            let designator = place.into_designator();
            Ok(Passed {
                passing: Passing::VariableRecord,
                formal: TypeRef::Named(owner),
                value: ExprTree::designator(designator),
            })
        }
    }
}

fn with_receiver(
    alloc: Global,
    chosen: Chosen,
    actuals: ActualTrees,
) -> Result<ActualTrees, AllocError>
    ensures { IfOk result (λ r. r.inner ≡ spec.receiver_actual chosen.method.receiver chosen ∷ actuals.inner) }
{
    let first = receiver_actual(alloc, chosen)?;
    let Passed {
        passing,
        formal,
        value,
    } = first;
    ActualTrees::after(alloc, passing, formal, value, actuals)
}

// The call with its receiver and these actual parameters.
fn call_tree(
    alloc: Global,
    at: Pos,
    chosen: Chosen,
    actuals: ActualTrees,
) -> Result<ExprTree, AllocError>
    ensures { IfOk result (λ t. t.inner ≡ e.Call (spec.bound_callee chosen chosen.base) (spec.receiver_actual chosen.method.receiver chosen ∷ actuals.inner) at chosen.method.signature.result) }
{
    let callee = bound_callee(alloc, &chosen)?;
    let of = copy_result(&chosen.method.signature.result)?;
    let all = with_receiver(alloc, chosen, actuals)?;
    Ok(ExprTree::call(callee, all, at, of))
}

fn call_to(
    alloc: Global,
    book: &mut Notebook,
    place: Where,
    at: Pos,
    chosen: Chosen,
    count: usize,
    actuals: ActualTrees,
) -> Result<Option<Valued>, AllocError>
    ensures made { IfOk result (λ r. r ≡ (spec.called_with place at chosen.method.signature count (λ xs. e.Call (spec.bound_callee chosen chosen.base) (spec.receiver_actual chosen.method.receiver chosen ∷ xs) at chosen.method.signature.result) actuals.inner).node) }
    ensures noted { OnOk result (book.new ≡ book_after book.old (spec.called_with place at chosen.method.signature count (λ xs. e.Call (spec.bound_callee chosen chosen.base) (spec.receiver_actual chosen.method.receiver chosen ∷ xs) at chosen.method.signature.result) actuals.inner).notes) }
{
    if count != chosen.method.signature.params.len() {
        book.breaks(Rule::WrongParameterCount, at);
        return Ok(None);
    }
    if misplaced(place, chosen.method.signature.result.is_some()) {
        book.breaks(Rule::MisplacedCall, at);
        return Ok(None);
    }
    let of = result_kind(&chosen.method.signature.result)?;
    let tree = call_tree(alloc, at, chosen, actuals)?;
    Ok(Some(Valued::Node(Computed { tree, of })))
}

/// The call of a bound procedure with these actual parameters, which are judged already; `count` are
/// written. None where they are none, or the call breaks rule 24 or 27.
pub fn call_bound(
    alloc: Global,
    book: &mut Notebook,
    place: Where,
    at: Pos,
    chosen: Chosen,
    count: usize,
    actuals: Option<ActualTrees>,
) -> Result<Option<Valued>, AllocError>
    ensures made { IfOk result (λ r. r ≡ (judged.if_sound (row_seen actuals) (spec.called_with place at chosen.method.signature count (λ xs. e.Call (spec.bound_callee chosen chosen.base) (spec.receiver_actual chosen.method.receiver chosen ∷ xs) at chosen.method.signature.result))).node) }
    ensures noted { OnOk result (book.new ≡ book_after book.old (judged.if_sound (row_seen actuals) (spec.called_with place at chosen.method.signature count (λ xs. e.Call (spec.bound_callee chosen chosen.base) (spec.receiver_actual chosen.method.receiver chosen ∷ xs) at chosen.method.signature.result))).notes) }
{
    match actuals {
        None => Ok(None),
        Some(actuals) => call_to(alloc, book, place, at, chosen, count, actuals),
    }
}
