//! Calls of procedures that are not predeclared.

ghost use Rattle.std.specs.Prelude.{◌≡◌, IfOk, OnOk};
ghost use Rattle.ob_rules.specs.Books.{book_after};
ghost use Rattle.ob_rules.specs.Designators as designators;
ghost use Rattle.ob_cexpr_call.specs.Rows.{row_seen};
ghost use Rattle.ob_cexpr_arguments.specs.declared.callables.Callable.TheVariants as calls;
ghost use Rattle.ob_cexpr_arguments.specs.Rounds.{params_of, finished};

use ob_cexpr_call::{as_call, call_bound, call_out, call_procedure, call_variable, unless_broken};
use ob_rules::{Chosen, Meant, Notebook, Place, Valued, Where};
use ob_tree::{Pos, QName};
use ob_types::{Mode, OutProcedure, Signature, TypeRef};
use ob_types_trees::ActualTrees;
use std::alloc::{AllocError, Global};

/// What is called, but no predeclared procedure.
#[derive(Drop)]
pub enum Callable {
    Procedure(QName, Signature),
    /// The procedure that a variable holds.
    Held(Place, Signature),
    /// A bound procedure, and whether its receiver breaks rule 26, which is noted.
    Bound(Chosen, bool),
    /// A bound procedure whose nearest declaration breaks a rule.
    Unsound,
    Out(OutProcedure, Signature),
}

/// Its formal parameters.
pub fn params(callable: &Callable) -> &[(Mode, TypeRef)]
    ensures { result.now ≡ params_of callable.now }
{
    match callable {
        Callable::Procedure(_, signature) => signature.params.as_slice(),
        Callable::Held(_, signature) => signature.params.as_slice(),
        Callable::Bound(chosen, _) => chosen.method.signature.params.as_slice(),
        Callable::Unsound => &[],
        Callable::Out(_, signature) => signature.params.as_slice(),
    }
}

fn finish_bound(
    alloc: Global,
    book: &mut Notebook,
    place: Where,
    at: Pos,
    chosen: Chosen,
    broken: bool,
    count: usize,
    actuals: Option<ActualTrees>,
) -> Result<Option<Valued>, AllocError>
    ensures made { IfOk result (λ r. r ≡ (finished place at count (calls.Bound chosen broken) (row_seen actuals)).node) }
    ensures noted { OnOk result (book.new ≡ book_after book.old (finished place at count (calls.Bound chosen broken) (row_seen actuals)).notes) }
{
    let call = call_bound(alloc, book, place, at, chosen, count, actuals)?;
    Ok(unless_broken(broken, call))
}

#[tactic(auto, using(crate::proofs::JudgedLaws::silent_node))]
fn finish(
    alloc: Global,
    book: &mut Notebook,
    place: Where,
    at: Pos,
    callable: Callable,
    count: usize,
    actuals: Option<ActualTrees>,
) -> Result<Option<Valued>, AllocError>
    ensures made { IfOk result (λ r. r ≡ (finished place at count callable (row_seen actuals)).node) }
    ensures noted { OnOk result (book.new ≡ book_after book.old (finished place at count callable (row_seen actuals)).notes) }
{
    match callable {
        Callable::Procedure(name, signature) => {
            call_procedure(book, place, at, name, &signature, count, actuals)
        }
        Callable::Held(variable, signature) => {
            call_variable(book, place, at, variable, &signature, count, actuals)
        }
        Callable::Bound(chosen, broken) => {
            finish_bound(alloc, book, place, at, chosen, broken, count, actuals)
        }
        Callable::Unsound => Ok(None),
        Callable::Out(procedure, _) => {
            call_out(alloc, book, place, at, procedure, count, actuals)
        }
    }
}

/// The call with these actual parameters, which are judged already; `count` are written. None where
/// they are none, or the call breaks rule 24 or 27.
#[tactic(auto, using(crate::proofs::JudgedLaws::call_quiet))]
#[inline(never)]
pub fn called(
    alloc: Global,
    book: &mut Notebook,
    place: Where,
    at: Pos,
    callable: Callable,
    count: usize,
    actuals: Option<ActualTrees>,
) -> Result<Option<Meant>, AllocError>
    ensures made { IfOk result (λ r. r ≡ (designators.as_call (finished place at count callable (row_seen actuals))).node) }
    ensures noted { OnOk result (book.new ≡ book_after book.old (designators.as_call (finished place at count callable (row_seen actuals))).notes) }
{
    let call = finish(alloc, book, place, at, callable, count, actuals)?;
    Ok(as_call(call))
}
