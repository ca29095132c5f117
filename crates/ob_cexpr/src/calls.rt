//! Round brackets behind a designator: guards, and calls with their actual parameters.

ghost use Rattle.std.specs.Prelude.{◌≡◌, IfOk, OnOk, map};
ghost use Rattle.ob_rules.specs.Books.{book_after};
ghost use Rattle.ob_rules.specs.Designators as designators;
ghost use Rattle.ob_rules.specs.Expressions as spec;
ghost use Rattle.ob_cexpr_arguments.specs.Rounds.{call_left};

use crate::actuals::check_actuals;
use crate::designators::visit_arguments;
use crate::predeclared::{check_extreme, check_parameters};
use ob_cexpr_arguments::{Callable, Opened, called, open_round, params};
use ob_cexpr_predeclared::{asked_first, asked_second, call_fit};
use ob_rules::{Meant, Notebook, Rule, Surroundings, Where};
use ob_tree::{Expr, Pos};
use std::alloc::{AllocError, Global};

/// Round brackets behind what comes before: a guard, or a call. None where they break a rule. The
/// arguments are judged in turn, each with what is asked of it.
#[cycle(walk)]
#[inline(never)]
pub fn check_round<S: Surroundings>(
    alloc: Global,
    here: &S,
    book: &mut Notebook,
    place: Where,
    start: Pos,
    at: Pos,
    arguments: &[Expr],
    meant: Meant,
) -> Result<Option<Meant>, AllocError>
    ensures made { IfOk result (λ r. r ≡ (designators.step_round (S.around here.now) place start at (map spec.phrase_of arguments.now) meant).node) }
    ensures noted { OnOk result (book.new ≡ book_after book.old (designators.step_round (S.around here.now) place start at (map spec.phrase_of arguments.now) meant).notes) }
{
    let round = open_round(alloc, here, book, start, at, arguments, meant)?;
    match round {
        Opened::Guard(meant) => Ok(meant),
        Opened::Nothing => {
            visit_arguments(alloc, here, book, arguments)?;
            book.breaks(Rule::UnfitSelector, at);
            Ok(None)
        }
        Opened::Call(callable) => check_call(alloc, here, book, place, start, callable, arguments),
        Opened::Extreme(max) => check_extreme(alloc, here, book, place, start, max, arguments),
        Opened::Predeclared(procedure) => {
            let first = asked_first(procedure);
            let second = asked_second(procedure);
            let row = check_parameters(alloc, here, book, first, second, arguments)?;
            call_fit(alloc, here, book, place, procedure, start, row)
        }
    }
}

// A call of what is no predeclared procedure.
#[cycle(walk)]
#[inline(never)]
fn check_call<S: Surroundings>(
    alloc: Global,
    here: &S,
    book: &mut Notebook,
    place: Where,
    start: Pos,
    callable: Callable,
    arguments: &[Expr],
) -> Result<Option<Meant>, AllocError>
    ensures made { IfOk result (λ r. r ≡ (designators.as_call (call_left (S.around here.now) place start (map spec.phrase_of arguments.now) callable)).node) }
    ensures noted { OnOk result (book.new ≡ book_after book.old (designators.as_call (call_left (S.around here.now) place start (map spec.phrase_of arguments.now) callable)).notes) }
{
    let row = check_actuals(alloc, here, book, params(&callable), arguments)?;
    called(alloc, book, place, start, callable, arguments.len(), row)
}
