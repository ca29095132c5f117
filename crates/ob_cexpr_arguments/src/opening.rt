//! What round brackets behind a designator open.

ghost use Rattle.std.specs.Prelude.{◌≡◌, List, IfOk, map, None};
ghost use Rattle.ob_tree.specs.declared.pos.Pos.{Pos as APos};
ghost use Rattle.ob_rules.specs.Shapes as shapes;
ghost use Rattle.ob_rules.specs.Names.{map_of};
ghost use Rattle.ob_rules.specs.Calls as calls;
ghost use Rattle.ob_rules.specs.Phrases.{Phrase};
ghost use Rattle.ob_rules.specs.Designators as designators;
ghost use Rattle.ob_rules.specs.Expressions as spec;
ghost use Rattle.ob_rules.specs.declared.meant.Where.{Where as AWhere};
ghost use Rattle.ob_rules.specs.declared.meant.Meant.TheVariants as means;
ghost use Rattle.ob_cexpr_arguments.specs.Rounds.{Leaves, call_left, round_left, misfit_or, extreme_kind};

use crate::callables::Callable;
use ob_cexpr_call::{is_nearest_sound, is_receiver_read_only, out_signature};
use ob_cexpr_operand::{guard_misfit, guard_named, held_signature, type_in_round};
use ob_rules::{Chosen, Meant, Notebook, Place, Predeclared, Rule, Surroundings};
use ob_tree::{Expr, Pos};
use std::alloc::{AllocError, Global};

/// What round brackets open: a guard, which is judged; nothing, which breaks rule 22; a call; one of
/// MAX, or else of MIN; or one of another predeclared procedure.
#[derive(Drop)]
pub enum Opened {
    Guard(Option<Meant>),
    Nothing,
    Call(Callable),
    Extreme(bool),
    Predeclared(Predeclared),
}

fn held<S: Surroundings>(alloc: Global, here: &S, variable: Place) -> Result<Opened, AllocError>
    ensures { IfOk result (λ r. (w : AWhere) (start at : APos) (ps : List Phrase) → designators.place_round (S.around here.now) w start at variable ps None (shapes.signature_at (map_of (S.around here.now)) variable.of) ≡ round_left (S.around here.now) w start at ps r) }
{
    match held_signature(alloc, here, &variable.of)? {
        None => Ok(Opened::Nothing),
        Some(signature) => Ok(Opened::Call(Callable::Held(variable, signature))),
    }
}

fn behind_variable<S: Surroundings>(
    alloc: Global,
    here: &S,
    book: &mut Notebook,
    at: Pos,
    arguments: &[Expr],
    variable: Place,
) -> Result<Opened, AllocError>
    ensures { IfOk result (λ r. (w : AWhere) (start : APos) → Leaves book.old (designators.step_round (S.around here.now) w start at (map spec.phrase_of arguments.now) (means.Place variable)) book.new (round_left (S.around here.now) w start at (map spec.phrase_of arguments.now) r)) }
{
    match type_in_round(here, arguments) {
        None => held(alloc, here, variable),
        Some(name) => {
            let meant = guard_named(alloc, here, book, at, variable, &name)?;
            Ok(Opened::Guard(meant))
        }
    }
}

// What is opened, unless a type stands in the brackets: a guard behind what is no variable.
fn unless_guard<S: Surroundings>(
    alloc: Global,
    here: &S,
    book: &mut Notebook,
    at: Pos,
    arguments: &[Expr],
    opened: Opened,
) -> Result<Opened, AllocError>
    ensures { IfOk result (λ r. (w : AWhere) (start : APos) → Leaves book.old (misfit_or (S.around here.now) at (designators.type_in_round (S.around here.now) (map spec.phrase_of arguments.now)) (round_left (S.around here.now) w start at (map spec.phrase_of arguments.now) opened)) book.new (round_left (S.around here.now) w start at (map spec.phrase_of arguments.now) r)) }
{
    match type_in_round(here, arguments) {
        None => Ok(opened),
        Some(name) => {
            let meant = guard_misfit(alloc, here, book, at, &name)?;
            Ok(Opened::Guard(meant))
        }
    }
}

fn bound_callable<S: Surroundings>(
    here: &S,
    book: &mut Notebook,
    start: Pos,
    chosen: Chosen,
) -> Callable
    ensures { (w : AWhere) (ps : List Phrase) → Leaves book.old (calls.call_bound (S.around here.now) w start chosen ps) book.new (call_left (S.around here.now) w start ps result) }
{
    if is_nearest_sound(here, &chosen) {
        let broken = is_receiver_read_only(&chosen);
        book.breaks_if(broken, Rule::NotChangeable, start);
        Callable::Bound(chosen, broken)
    } else {
        Callable::Unsound
    }
}

fn behind_bound<S: Surroundings>(
    alloc: Global,
    here: &S,
    book: &mut Notebook,
    start: Pos,
    at: Pos,
    arguments: &[Expr],
    chosen: Chosen,
) -> Result<Opened, AllocError>
    ensures { IfOk result (λ r. (w : AWhere) → Leaves book.old (designators.step_round (S.around here.now) w start at (map spec.phrase_of arguments.now) (means.Bound chosen)) book.new (round_left (S.around here.now) w start at (map spec.phrase_of arguments.now) r)) }
{
    match type_in_round(here, arguments) {
        None => Ok(Opened::Call(bound_callable(here, book, start, chosen))),
        Some(name) => {
            let meant = guard_misfit(alloc, here, book, at, &name)?;
            Ok(Opened::Guard(meant))
        }
    }
}

// Of MAX that it is MAX, and of MIN that it is not.
fn extreme_kind(procedure: Predeclared) -> Option<bool>
    ensures { result ≡ extreme_kind procedure }
{
    match procedure {
        Predeclared::Max => Some(true),
        Predeclared::Min => Some(false),
        Predeclared::Abs
        | Predeclared::Ash
        | Predeclared::Cap
        | Predeclared::Chr
        | Predeclared::Len
        | Predeclared::Long
        | Predeclared::Odd
        | Predeclared::Ord
        | Predeclared::Short
        | Predeclared::Assert
        | Predeclared::Copy
        | Predeclared::Dec
        | Predeclared::Excl
        | Predeclared::Halt
        | Predeclared::Inc
        | Predeclared::Incl
        | Predeclared::New => None,
    }
}

fn behind_predeclared<S: Surroundings>(
    alloc: Global,
    here: &S,
    book: &mut Notebook,
    at: Pos,
    arguments: &[Expr],
    procedure: Predeclared,
) -> Result<Opened, AllocError>
    ensures { IfOk result (λ r. (w : AWhere) (start : APos) → Leaves book.old (designators.step_round (S.around here.now) w start at (map spec.phrase_of arguments.now) (means.Predeclared procedure)) book.new (round_left (S.around here.now) w start at (map spec.phrase_of arguments.now) r)) }
{
    match extreme_kind(procedure) {
        None => {
            let opened = Opened::Predeclared(procedure);
            unless_guard(alloc, here, book, at, arguments, opened)
        }
        Some(max) => Ok(Opened::Extreme(max)),
    }
}

/// What round brackets behind that open. What is judged already is noted; the arguments of a call are
/// left, and where nothing is opened.
#[inline(never)]
pub fn open_round<S: Surroundings>(
    alloc: Global,
    here: &S,
    book: &mut Notebook,
    start: Pos,
    at: Pos,
    arguments: &[Expr],
    meant: Meant,
) -> Result<Opened, AllocError>
    ensures { IfOk result (λ r. (w : AWhere) → Leaves book.old (designators.step_round (S.around here.now) w start at (map spec.phrase_of arguments.now) meant) book.new (round_left (S.around here.now) w start at (map spec.phrase_of arguments.now) r)) }
{
    match meant {
        Meant::Place(variable) => behind_variable(alloc, here, book, at, arguments, variable),
        Meant::Constant(_) => unless_guard(alloc, here, book, at, arguments, Opened::Nothing),
        Meant::Procedure(name, signature) => {
            let opened = Opened::Call(Callable::Procedure(name, signature));
            unless_guard(alloc, here, book, at, arguments, opened)
        }
        Meant::Bound(chosen) => behind_bound(alloc, here, book, start, at, arguments, chosen),
        Meant::Out(procedure) => {
            let signature = out_signature(alloc, procedure)?;
            let opened = Opened::Call(Callable::Out(procedure, signature));
            unless_guard(alloc, here, book, at, arguments, opened)
        }
        Meant::Predeclared(procedure) => {
            behind_predeclared(alloc, here, book, at, arguments, procedure)
        }
        Meant::Call(_) => Ok(Opened::Nothing),
        Meant::Statement(_) => Ok(Opened::Nothing),
    }
}
