//! The labels of CASE.

ghost use Rattle.std.specs.Prelude.{◌≡◌};
ghost use Rattle.std.specs.List.{list_any};
ghost use Rattle.std.specs.Option.{option_copied};
ghost use Rattle.ob_rules.specs.declared.meant.Selects.TheVariants as selecting;
ghost use Rattle.ob_rules.specs.Books.{book_after};
ghost use Rattle.ob_rules.specs.Judged.{if_sound, paired};
ghost use Rattle.ob_rules.specs.Statements as spec;

use ob_cexpr_name::{is, width};
use ob_rules::{Notebook, Rule, Selects, Valued};
use ob_tree::Pos;
use ob_types::{Basic, Label, Types, Value, Width};

fn selects_by(character: bool, width: Option<Width>) -> Option<Selects>
    ensures { result ≡ spec.selects_by character width }
{
    if character {
        return Some(Selects::Characters);
    }
    match width {
        Some(width) => Some(Selects::Integers(width)),
        None => None,
    }
}

/// What the labels are to be. None where the value is neither integer nor character.
pub fn selects<T: Types>(types: &T, x: &Valued) -> Option<Selects>
    ensures { result ≡ spec.selects (T.types types.now) x.now }
{
    selects_by(is(types, Basic::Char, x), width(types, x))
}

/// The value of CASE, where it is sound. Rule 33 where it is neither integer nor character. Takes no
/// memory.
pub fn case_value_if<T: Types>(
    types: &T,
    book: &mut Notebook,
    start: Pos,
    x: Option<Valued>,
) -> Option<Valued>
    ensures made { result ≡ (if_sound x (λ v. spec.case_value (T.types types.now) start v)).node }
    ensures noted { book.new ≡ book_after book.old (if_sound x (λ v. spec.case_value (T.types types.now) start v)).notes }
{
    match x {
        None => None,
        Some(value) => {
            let fit = selects(types, &value).is_some();
            book.wants(fit, Rule::UnfitCase, start, value)
        }
    }
}

/// What the labels are to be, where the value is sound.
pub fn selects_if<T: Types>(types: &T, x: Option<&Valued>) -> Option<Selects>
    ensures { result ≡ spec.selects_if (T.types types.now) (option_copied x.entry) }
{
    match x {
        None => None,
        Some(x) => selects(types, x),
    }
}

// Whether the number is of a type that this one includes.
fn is_within(width: Width, n: i32) -> bool
    ensures { result ≡ spec.within width (spec.width_of_number n) }
{
    match width {
        Width::LongInt => true,
        Width::Integer => -32768 <= n && n < 32768,
        Width::ShortInt => -128 <= n && n < 128,
    }
}

fn character_label(value: &Value) -> Option<i32>
    ensures { result ≡ spec.label_value selecting.Characters value.now }
{
    match value {
        Value::Char(c) => Some(i32::from(*c)),
        _ => None,
    }
}

fn integer_label(width: Width, value: &Value) -> Option<i32>
    ensures { result ≡ spec.label_value (selecting.Integers width) value.now }
{
    match value {
        Value::Int(n) => { if is_within(width, *n) { Some(*n) } else { None } }
        _ => None,
    }
}

fn label_value(selects: Selects, value: &Value) -> Option<i32>
    ensures { result ≡ spec.label_value selects value.now }
{
    match selects {
        Selects::Characters => character_label(value),
        Selects::Integers(width) => integer_label(width, value),
    }
}

// Whether one of the labels has a number in common with the range.
fn occurs(before: &[Label], low: i32, high: i32) -> bool
    ensures { result ≡ list_any (spec.overlaps low high) before.now }
{
    'labels: for label in before {
        if label.low <= high && low <= label.high {
            return true;
        }
    }
    false
}

fn ranged(book: &mut Notebook, at: Pos, before: &[Label], low: i32, high: i32) -> Option<Label>
    ensures made { result ≡ (spec.label_ranged at before.now low high).node }
    ensures noted { book.new ≡ book_after book.old (spec.label_ranged at before.now low high).notes }
{
    if low <= high && !occurs(before, low, high) {
        Some(Label { low, high })
    } else {
        book.breaks(Rule::UnfitCase, at);
        None
    }
}

fn label_of(
    book: &mut Notebook,
    at: Pos,
    before: &[Label],
    low: Option<i32>,
    high: Option<i32>,
) -> Option<Label>
    ensures made { result ≡ (spec.label_of at before.now low high).node }
    ensures noted { book.new ≡ book_after book.old (spec.label_of at before.now low high).notes }
{
    match low {
        None => {
            book.breaks(Rule::UnfitCase, at);
            None
        }
        Some(low) => match high {
            None => {
                book.breaks(Rule::UnfitCase, at);
                None
            }
            Some(high) => ranged(book, at, before, low, high),
        },
    }
}

fn label_as(
    book: &mut Notebook,
    selects: Option<Selects>,
    at: Pos,
    before: &[Label],
    low: &Value,
    high: &Value,
) -> Option<Label>
    ensures made { result ≡ (spec.label_as selects at before.now low.now high.now).node }
    ensures noted { book.new ≡ book_after book.old (spec.label_as selects at before.now low.now high.now).notes }
{
    match selects {
        None => None,
        Some(selects) => label_of(
            book,
            at,
            before,
            label_value(selects, low),
            label_value(selects, high),
        ),
    }
}

fn label_between(
    book: &mut Notebook,
    selects: Option<Selects>,
    at: Pos,
    before: &[Label],
    low: Value,
    high: Option<Value>,
) -> Option<Label>
    ensures made { result ≡ (spec.label_both selects at before.now (spec.both_ends low high)).node }
    ensures noted { book.new ≡ book_after book.old (spec.label_both selects at before.now (spec.both_ends low high)).notes }
{
    match high {
        None => label_as(book, selects, at, before, &low, &low),
        Some(high) => label_as(book, selects, at, before, &low, &high),
    }
}

/// A label of its bounds, where they are sound, after the labels before it. Rule 33 where it is no
/// number of what is selected by, an empty range, or has a number that a label before it has. Takes
/// no memory.
pub fn label_if(
    book: &mut Notebook,
    selects: Option<Selects>,
    at: Pos,
    before: &[Label],
    low: Option<Value>,
    high: Option<Option<Value>>,
) -> Option<Label>
    ensures made { result ≡ (if_sound (paired low high) (λ p. spec.label_both selects at before.now (spec.both_ends p.0 p.1))).node }
    ensures noted { book.new ≡ book_after book.old (if_sound (paired low high) (λ p. spec.label_both selects at before.now (spec.both_ends p.0 p.1))).notes }
{
    match low {
        None => None,
        Some(low) => match high {
            None => None,
            Some(high) => label_between(book, selects, at, before, low, high),
        },
    }
}
