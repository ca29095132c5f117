//! Arguments as parameters of predeclared procedures.

ghost use Rattle.std.specs.Prelude.{◌≡◌, IfOk, OnOk, true};
ghost use Rattle.std.specs.Option.{option_map};
ghost use Rattle.ob_rules.specs.Books.{book_after};
ghost use Rattle.ob_rules.specs.Judged as judged;
ghost use Rattle.ob_rules.specs.Names.{Around};
ghost use Rattle.ob_rules.specs.Calls as calls;
ghost use Rattle.ob_rules.specs.declared.meant.Meant.{Meant as AMeant};
ghost use Rattle.ob_rules.specs.declared.broken.Rule.TheVariants as rule;
ghost use Rattle.ob_rules.specs.Predeclared as spec;
ghost use Rattle.ob_cexpr_arguments.specs.Arguments.{meant_left, left_of};

use crate::arguments::{Argument, value_of};
use ob_cexpr_predeclared::{changed_meant, changed_value, constant_parameter, no_extreme};
use ob_rules::{Asked, Meant, Notebook, Valued, Where};
use ob_tree::Pos;
use std::alloc::{AllocError, Global};

#[tactic(auto, using(crate::proofs::JudgedLaws::made_quiet))]
fn changed(book: &mut Notebook, start: Pos, argument: Argument) -> Option<Valued>
    ensures made { (u : Around) → result ≡ (spec.changed_as u (left_of start argument) (meant_left argument)).node }
    ensures noted { (u : Around) → book.new ≡ book_after book.old (spec.changed_as u (left_of start argument) (meant_left argument)).notes }
{
    match argument {
        Argument::Designator(meant) => changed_meant(book, start, meant),
        Argument::Other(x) => changed_value(x),
    }
}

/// An argument as a parameter of which that is asked. None where it is none, or breaks rule 10 or 26.
#[inline(never)]
pub fn parameter(
    alloc: Global,
    book: &mut Notebook,
    asked: Asked,
    start: Pos,
    argument: Argument,
) -> Result<Option<Valued>, AllocError>
    ensures made { IfOk result (λ r. (u : Around) → r ≡ (spec.parameter u asked (left_of start argument)).node) }
    ensures noted { OnOk result ((u : Around) → book.new ≡ book_after book.old (spec.parameter u asked (left_of start argument)).notes) }
{
    match asked {
        Asked::Value => value_of(alloc, book, start, argument),
        Asked::Changed => Ok(changed(book, start, argument)),
        Asked::Constant => {
            let x = value_of(alloc, book, start, argument)?;
            Ok(constant_parameter(book, start, x))
        }
    }
}

/// A call of MAX or MIN with further parameters, which are judged already: rule 28, and perhaps rule
/// 27, where they are sound. Takes no memory.
#[inline(never)]
pub fn further(
    book: &mut Notebook,
    place: Where,
    at: Pos,
    parameters: Option<Vec<Valued>>,
) -> Option<Meant>
    ensures made { result ≡ (judged.if_sound {B = AMeant} (option_map (λ v. v.items) parameters) (λ xs. judged.also (calls.misplaced place true) rule.MisplacedCall at (judged.breaks rule.UnfitPredeclaredParameters at))).node }
    ensures noted { book.new ≡ book_after book.old (judged.if_sound {B = AMeant} (option_map (λ v. v.items) parameters) (λ xs. judged.also (calls.misplaced place true) rule.MisplacedCall at (judged.breaks rule.UnfitPredeclaredParameters at))).notes }
{
    match parameters {
        None => None,
        Some(_) => no_extreme(book, place, at),
    }
}
