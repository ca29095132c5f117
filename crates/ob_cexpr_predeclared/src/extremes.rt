//! MAX and MIN.

ghost use Rattle.std.specs.Prelude.{◌≡◌, IfOk, OnOk, Some, true, false};
ghost use Rattle.ob_rules.specs.Books.{book_after};
ghost use Rattle.ob_rules.specs.Judged as judged;
ghost use Rattle.ob_rules.specs.declared.meant.Meant.{Meant as AMeant};
ghost use Rattle.ob_rules.specs.declared.broken.Rule.TheVariants as rule;
ghost use Rattle.ob_rules.specs.Names.{map_of};
ghost use Rattle.ob_rules.specs.Calls as calls;
ghost use Rattle.ob_rules.specs.Predeclared as spec;

use ob_cexpr_call::misplaced;
use ob_cexpr_name::{basic_of, types};
use ob_rules::{Meant, Notebook, Rule, Surroundings, Valued, Where};
use ob_tree::Pos;
use ob_types::{Basic, TypeRef, Types, Value};
use std::alloc::AllocError;

fn largest(basic: Basic) -> Value
    ensures { result ≡ spec.extreme true basic }
{
    match basic {
        Basic::Boolean => Value::Bool(true),
        Basic::Char => Value::Char(255),
        Basic::ShortInt => Value::Int(127),
        Basic::Integer => Value::Int(32767),
        Basic::LongInt => Value::Int(2147483647),
        Basic::Set => Value::Int(31),
    }
}

fn smallest(basic: Basic) -> Value
    ensures { result ≡ spec.extreme false basic }
{
    match basic {
        Basic::Boolean => Value::Bool(false),
        Basic::Char => Value::Char(0),
        Basic::ShortInt => Value::Int(-128),
        Basic::Integer => Value::Int(-32768),
        Basic::LongInt => Value::Int(-2147483648),
        Basic::Set => Value::Int(0),
    }
}

fn extreme_value(max: bool, basic: Basic) -> Value
    ensures { result ≡ spec.extreme max basic }
{
    if max { largest(basic) } else { smallest(basic) }
}

fn extreme_in(
    book: &mut Notebook,
    max: bool,
    at: Pos,
    t: TypeRef,
    basic: Option<Basic>,
) -> Result<Option<Meant>, AllocError>
    ensures made { IfOk result (λ r. r ≡ (spec.extreme_of max at (Some t) basic).node) }
    ensures noted { OnOk result (book.new ≡ book_after book.old (spec.extreme_of max at (Some t) basic).notes) }
{
    match basic {
        None => {
            book.breaks(Rule::UnfitPredeclaredParameters, at);
            Ok(None)
        }
        Some(basic) => {
            book.name_type(t)?;
            Ok(Some(Meant::Call(Valued::Constant(extreme_value(max, basic)))))
        }
    }
}

fn extreme_of<T: Types>(
    types: &T,
    book: &mut Notebook,
    max: bool,
    at: Pos,
    t: Option<TypeRef>,
) -> Result<Option<Meant>, AllocError>
    ensures made { IfOk result (λ r. r ≡ (spec.extreme_of max at t (spec.basic_if (T.types types.now) t)).node) }
    ensures noted { OnOk result (book.new ≡ book_after book.old (spec.extreme_of max at t (spec.basic_if (T.types types.now) t)).notes) }
{
    match t {
        None => {
            book.breaks(Rule::UnfitPredeclaredParameters, at);
            Ok(None)
        }
        Some(t) => {
            let basic = basic_of(types, &t);
            extreme_in(book, max, at, t, basic)
        }
    }
}

fn extreme_unless<T: Types>(
    types: &T,
    book: &mut Notebook,
    max: bool,
    misplaced: bool,
    at: Pos,
    t: Option<TypeRef>,
) -> Result<Option<Meant>, AllocError>
    ensures made { IfOk result (λ r. r ≡ (judged.also misplaced rule.MisplacedCall at (spec.extreme_of max at t (spec.basic_if (T.types types.now) t))).node) }
    ensures noted { OnOk result (book.new ≡ book_after book.old (judged.also misplaced rule.MisplacedCall at (spec.extreme_of max at t (spec.basic_if (T.types types.now) t))).notes) }
{
    if misplaced {
        book.breaks(Rule::MisplacedCall, at);
        let _ = extreme_of(types, book, max, at, t)?;
        Ok(None)
    } else {
        extreme_of(types, book, max, at, t)
    }
}

/// A call of MAX, or else of MIN, with one parameter, which is judged already: a type, or none where
/// the parameter is no type's name. None where the parameter is not sound, or the call breaks
/// rule 27 or 28. The type is noted as named.
#[inline(never)]
pub fn extreme<S: Surroundings>(
    here: &S,
    book: &mut Notebook,
    max: bool,
    place: Where,
    at: Pos,
    parameter: Option<Option<TypeRef>>,
) -> Result<Option<Meant>, AllocError>
    ensures made { IfOk result (λ r. r ≡ (judged.if_sound parameter (λ t. judged.also (calls.misplaced place true) rule.MisplacedCall at (spec.extreme_of max at t (spec.basic_if (map_of (S.around here.now)) t)))).node) }
    ensures noted { OnOk result (book.new ≡ book_after book.old (judged.if_sound parameter (λ t. judged.also (calls.misplaced place true) rule.MisplacedCall at (spec.extreme_of max at t (spec.basic_if (map_of (S.around here.now)) t)))).notes) }
{
    match parameter {
        None => Ok(None),
        Some(t) => extreme_unless(types(here), book, max, misplaced(place, true), at, t),
    }
}

fn unless_misplaced(book: &mut Notebook, misplaced: bool, at: Pos) -> Option<Meant>
    ensures made { result ≡ (judged.also {A = AMeant} misplaced rule.MisplacedCall at (judged.breaks rule.UnfitPredeclaredParameters at)).node }
    ensures noted { book.new ≡ book_after book.old (judged.also {A = AMeant} misplaced rule.MisplacedCall at (judged.breaks rule.UnfitPredeclaredParameters at)).notes }
{
    if misplaced {
        book.breaks(Rule::MisplacedCall, at);
    }
    book.breaks(Rule::UnfitPredeclaredParameters, at);
    None
}

/// A call of MAX or MIN with no parameter, or with more than one: rule 28, and perhaps rule 27.
/// Takes no memory.
pub fn no_extreme(book: &mut Notebook, place: Where, at: Pos) -> Option<Meant>
    ensures made { result ≡ (judged.also {A = AMeant} (calls.misplaced place true) rule.MisplacedCall at (judged.breaks rule.UnfitPredeclaredParameters at)).node }
    ensures noted { book.new ≡ book_after book.old (judged.also {A = AMeant} (calls.misplaced place true) rule.MisplacedCall at (judged.breaks rule.UnfitPredeclaredParameters at)).notes }
{
    unless_misplaced(book, misplaced(place, true), at)
}
