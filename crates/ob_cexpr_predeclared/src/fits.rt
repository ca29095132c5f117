//! Calls of predeclared procedures but MAX and MIN.

ghost use Rattle.std.specs.Prelude.{◌≡◌, IfOk, OnOk};
ghost use Rattle.std.specs.Option.{option_map};
ghost use Rattle.ob_rules.specs.declared.broken.Rule.TheVariants as rule;
ghost use Rattle.ob_rules.specs.Books.{book_after};
ghost use Rattle.ob_rules.specs.Judged as judged;
ghost use Rattle.ob_rules.specs.Names.{map_of};
ghost use Rattle.ob_rules.specs.Predeclared as spec;
ghost use Rattle.ob_cexpr_predeclared.specs.Few.{few_of, few_taken, fit_few};

use crate::parameters::is_function;
use ob_cexpr_call::misplaced;
use ob_cexpr_functions::{abs, ash, len, len_first, long, short, unary_if};
use ob_cexpr_name::{is, is_integer, types};
use ob_cexpr_operator::unfit;
use ob_cexpr_procedures::{
    assert, assert_with, copy, element_step, halt, new_many, new_one, number_of, place_of, step,
};
use ob_rules::{Meant, Notebook, Predeclared, Rule, Surroundings, Valued, Where};
use ob_tree::Pos;
use ob_types::{Basic, Types, Unary, Update, Value};
use std::alloc::{AllocError, Global};

/// At most two parameters, or more than two.
#[derive(Drop)]
pub enum Few {
    Nothing,
    One(Valued),
    Two(Valued, Valued),
    Many,
}

fn few_from(last: Option<Valued>, before: Option<Valued>, further: Option<Valued>) -> Few
    ensures { result ≡ few_taken last before further }
{
    match last {
        None => Few::Nothing,
        Some(last) => match before {
            None => Few::One(last),
            Some(first) => match further {
                None => Few::Two(first, last),
                Some(_) => Few::Many,
            },
        },
    }
}

fn few_in(parameters: Vec<Valued>) -> Few
    ensures { result ≡ few_of parameters.items }
{
    let mut rest = parameters;
    let last = rest.pop();
    let before = rest.pop();
    let further = rest.pop();
    few_from(last, before, further)
}

fn fit_one<T: Types>(
    alloc: Global,
    types: &T,
    book: &mut Notebook,
    procedure: Predeclared,
    at: Pos,
    x: Valued,
) -> Result<Option<Meant>, AllocError>
    ensures made { IfOk result (λ r. r ≡ (spec.if_fit at (spec.fit_one (T.types types.now) procedure at x)).node) }
    ensures noted { OnOk result (book.new ≡ book_after book.old (spec.if_fit at (spec.fit_one (T.types types.now) procedure at x)).notes) }
{
    match procedure {
        Predeclared::Abs => abs(alloc, types, book, at, x),
        Predeclared::Cap => {
            let fits = is(types, Basic::Char, &x);
            unary_if(alloc, book, fits, Unary::Cap, at, x)
        }
        Predeclared::Chr => {
            let fits = is_integer(types, &x);
            unary_if(alloc, book, fits, Unary::Chr, at, x)
        }
        Predeclared::Long => long(alloc, types, book, at, x),
        Predeclared::Short => short(alloc, types, book, at, x),
        Predeclared::Odd => {
            let fits = is_integer(types, &x);
            unary_if(alloc, book, fits, Unary::Odd, at, x)
        }
        Predeclared::Ord => {
            let fits = is(types, Basic::Char, &x);
            unary_if(alloc, book, fits, Unary::Ord, at, x)
        }
        Predeclared::Len => len_first(types, book, at, place_of(x)),
        Predeclared::Assert => Ok(assert(types, book, at, x, 0)),
        Predeclared::Halt => Ok(halt(book, at, number_of(&x))),
        Predeclared::Inc => {
            let one = Valued::Constant(Value::Int(1));
            Ok(step(types, book, true, at, x, one))
        }
        Predeclared::Dec => {
            let one = Valued::Constant(Value::Int(1));
            Ok(step(types, book, false, at, x, one))
        }
        Predeclared::New => new_one(types, book, at, x),
        Predeclared::Ash
        | Predeclared::Max
        | Predeclared::Min
        | Predeclared::Copy
        | Predeclared::Excl
        | Predeclared::Incl => Ok(unfit(book, at)),
    }
}

fn fit_two<T: Types>(
    alloc: Global,
    types: &T,
    book: &mut Notebook,
    procedure: Predeclared,
    at: Pos,
    x: Valued,
    n: Valued,
) -> Result<Option<Meant>, AllocError>
    ensures made { IfOk result (λ r. r ≡ (spec.if_fit at (spec.fit_two (T.types types.now) procedure at x n)).node) }
    ensures noted { OnOk result (book.new ≡ book_after book.old (spec.if_fit at (spec.fit_two (T.types types.now) procedure at x n)).notes) }
{
    match procedure {
        Predeclared::Ash => ash(alloc, types, book, at, x, n),
        Predeclared::Len => len(types, book, at, place_of(x), number_of(&n)),
        Predeclared::Assert => Ok(assert_with(types, book, at, x, number_of(&n))),
        Predeclared::Inc => Ok(step(types, book, true, at, x, n)),
        Predeclared::Dec => Ok(step(types, book, false, at, x, n)),
        Predeclared::Incl => Ok(element_step(types, book, Update::Incl, at, x, n)),
        Predeclared::Excl => Ok(element_step(types, book, Update::Excl, at, x, n)),
        Predeclared::Copy => copy(alloc, types, book, at, x, n),
        Predeclared::New => new_many(types, book, at, x, n),
        Predeclared::Abs
        | Predeclared::Cap
        | Predeclared::Chr
        | Predeclared::Long
        | Predeclared::Max
        | Predeclared::Min
        | Predeclared::Odd
        | Predeclared::Ord
        | Predeclared::Short
        | Predeclared::Halt => Ok(unfit(book, at)),
    }
}

fn fit_few<T: Types>(
    alloc: Global,
    types: &T,
    book: &mut Notebook,
    procedure: Predeclared,
    at: Pos,
    parameters: Few,
) -> Result<Option<Meant>, AllocError>
    ensures made { IfOk result (λ r. r ≡ (spec.if_fit at (fit_few (T.types types.now) procedure at parameters)).node) }
    ensures noted { OnOk result (book.new ≡ book_after book.old (spec.if_fit at (fit_few (T.types types.now) procedure at parameters)).notes) }
{
    match parameters {
        Few::Nothing => Ok(unfit(book, at)),
        Few::One(x) => fit_one(alloc, types, book, procedure, at, x),
        Few::Two(x, n) => fit_two(alloc, types, book, procedure, at, x, n),
        Few::Many => Ok(unfit(book, at)),
    }
}

#[tactic(auto, using(crate::proofs::FewLaws::fit_as_few))]
fn fit<T: Types>(
    alloc: Global,
    types: &T,
    book: &mut Notebook,
    procedure: Predeclared,
    at: Pos,
    parameters: Vec<Valued>,
) -> Result<Option<Meant>, AllocError>
    ensures made { IfOk result (λ r. r ≡ (spec.if_fit at (spec.fit (T.types types.now) procedure at parameters.items)).node) }
    ensures noted { OnOk result (book.new ≡ book_after book.old (spec.if_fit at (spec.fit (T.types types.now) procedure at parameters.items)).notes) }
{
    fit_few(alloc, types, book, procedure, at, few_in(parameters))
}

fn fit_unless<T: Types>(
    alloc: Global,
    types: &T,
    book: &mut Notebook,
    misplaced: bool,
    procedure: Predeclared,
    at: Pos,
    parameters: Vec<Valued>,
) -> Result<Option<Meant>, AllocError>
    ensures made { IfOk result (λ r. r ≡ (judged.also misplaced rule.MisplacedCall at (spec.if_fit at (spec.fit (T.types types.now) procedure at parameters.items))).node) }
    ensures noted { OnOk result (book.new ≡ book_after book.old (judged.also misplaced rule.MisplacedCall at (spec.if_fit at (spec.fit (T.types types.now) procedure at parameters.items))).notes) }
{
    if misplaced {
        book.breaks(Rule::MisplacedCall, at);
        let _ = fit(alloc, types, book, procedure, at, parameters)?;
        Ok(None)
    } else {
        fit(alloc, types, book, procedure, at, parameters)
    }
}

fn fit_there<S: Surroundings>(
    alloc: Global,
    here: &S,
    book: &mut Notebook,
    place: Where,
    procedure: Predeclared,
    at: Pos,
    parameters: Vec<Valued>,
) -> Result<Option<Meant>, AllocError>
    ensures made { IfOk result (λ r. r ≡ (spec.call_fit (S.around here.now) place procedure at parameters.items).node) }
    ensures noted { OnOk result (book.new ≡ book_after book.old (spec.call_fit (S.around here.now) place procedure at parameters.items).notes) }
{
    let misplaced = misplaced(place, is_function(procedure));
    fit_unless(
        alloc,
        types(here),
        book,
        misplaced,
        procedure,
        at,
        parameters,
    )
}

/// The call of a predeclared procedure, but MAX and MIN, with these parameters, which are judged
/// already. None where they are none, or the call breaks rule 27 or 28, or one of an operation on
/// constants.
#[inline(never)]
pub fn call_fit<S: Surroundings>(
    alloc: Global,
    here: &S,
    book: &mut Notebook,
    place: Where,
    procedure: Predeclared,
    at: Pos,
    parameters: Option<Vec<Valued>>,
) -> Result<Option<Meant>, AllocError>
    ensures made { IfOk result (λ r. r ≡ (judged.if_sound (option_map (λ v. v.items) parameters) (spec.call_fit (S.around here.now) place procedure at)).node) }
    ensures noted { OnOk result (book.new ≡ book_after book.old (judged.if_sound (option_map (λ v. v.items) parameters) (spec.call_fit (S.around here.now) place procedure at)).notes) }
{
    match parameters {
        None => Ok(None),
        Some(parameters) => fit_there(alloc, here, book, place, procedure, at, parameters),
    }
}
