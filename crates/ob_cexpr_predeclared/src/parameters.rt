//! What is asked of parameters.

ghost use Rattle.std.specs.Prelude.{◌≡◌, is_some};
ghost use Rattle.ob_rules.specs.declared.broken.Rule.TheVariants as rule;
ghost use Rattle.ob_rules.specs.Books.{book_after};
ghost use Rattle.ob_rules.specs.Judged as judged;
ghost use Rattle.ob_rules.specs.Operators as operators;
ghost use Rattle.ob_rules.specs.Values as values;
ghost use Rattle.ob_rules.specs.Predeclared as spec;

use ob_cexpr_operator::only_value;
use ob_rules::{Asked, Meant, Notebook, Predeclared, Rule, Valued};
use ob_tree::Pos;

fn changed(book: &mut Notebook, start: Pos, meant: Meant) -> Option<Valued>
    ensures made { result ≡ (spec.changed_meant start meant).node }
    ensures noted { book.new ≡ book_after book.old (spec.changed_meant start meant).notes }
{
    match meant {
        Meant::Place(place) => {
            if place.read_only {
                book.breaks(Rule::NotChangeable, start);
                None
            } else {
                Some(Valued::Place(place))
            }
        }
        Meant::Call(x) => Some(only_value(x)),
        Meant::Constant(_)
        | Meant::Procedure(_, _)
        | Meant::Bound(_)
        | Meant::Out(_)
        | Meant::Predeclared(_)
        | Meant::Statement(_) => {
            book.breaks(Rule::NotChangeable, start);
            None
        }
    }
}

/// What a designator comes to as a parameter that is changed, where it is judged already. None where
/// it is none, or breaks rule 26. Takes no memory.
pub fn changed_meant(book: &mut Notebook, start: Pos, meant: Option<Meant>) -> Option<Valued>
    ensures made { result ≡ (judged.if_sound meant (spec.changed_meant start)).node }
    ensures noted { book.new ≡ book_after book.old (judged.if_sound meant (spec.changed_meant start)).notes }
{
    match meant {
        None => None,
        Some(meant) => changed(book, start, meant),
    }
}

/// An expression that is no designator as a parameter that is changed, where it is judged already.
/// It says nothing more, and takes no memory.
pub fn changed_value(x: Option<Valued>) -> Option<Valued>
    ensures { result ≡ (judged.if_sound x (λ v. judged.sound (operators.only_value v))).node }
{
    match x {
        None => None,
        Some(x) => Some(only_value(x)),
    }
}

fn is_constant(x: &Valued) -> bool
    ensures { result ≡ is_some (values.constant_in x.now) }
{
    match x {
        Valued::Constant(_) => true,
        Valued::Place(_) | Valued::Node(_) => false,
    }
}

fn constant(book: &mut Notebook, start: Pos, x: Valued) -> Option<Valued>
    ensures made { result ≡ (judged.wants (is_some (values.constant_in x)) rule.NotConstant start x).node }
    ensures noted { book.new ≡ book_after book.old (judged.wants (is_some (values.constant_in x)) rule.NotConstant start x).notes }
{
    if is_constant(&x) {
        Some(x)
    } else {
        book.breaks(Rule::NotConstant, start);
        None
    }
}

/// An expression as a parameter that must be constant, where it is judged already. None where it is
/// none, or breaks rule 10. Takes no memory.
pub fn constant_parameter(book: &mut Notebook, start: Pos, x: Option<Valued>) -> Option<Valued>
    ensures made { result ≡ (judged.if_sound x (λ v. judged.wants (is_some (values.constant_in v)) rule.NotConstant start v)).node }
    ensures noted { book.new ≡ book_after book.old (judged.if_sound x (λ v. judged.wants (is_some (values.constant_in v)) rule.NotConstant start v)).notes }
{
    match x {
        None => None,
        Some(x) => constant(book, start, x),
    }
}

/// What is asked of the first parameter.
pub fn asked_first(procedure: Predeclared) -> Asked
    ensures { result ≡ spec.asked_first procedure }
{
    match procedure {
        Predeclared::Inc
        | Predeclared::Dec
        | Predeclared::Incl
        | Predeclared::Excl
        | Predeclared::New => Asked::Changed,
        Predeclared::Halt => Asked::Constant,
        Predeclared::Abs
        | Predeclared::Ash
        | Predeclared::Cap
        | Predeclared::Chr
        | Predeclared::Len
        | Predeclared::Long
        | Predeclared::Max
        | Predeclared::Min
        | Predeclared::Odd
        | Predeclared::Ord
        | Predeclared::Short
        | Predeclared::Assert
        | Predeclared::Copy => Asked::Value,
    }
}

/// What is asked of the second parameter.
pub fn asked_second(procedure: Predeclared) -> Asked
    ensures { result ≡ spec.asked_second procedure }
{
    match procedure {
        Predeclared::Copy => Asked::Changed,
        Predeclared::Assert | Predeclared::Len => Asked::Constant,
        Predeclared::Abs
        | Predeclared::Ash
        | Predeclared::Cap
        | Predeclared::Chr
        | Predeclared::Long
        | Predeclared::Max
        | Predeclared::Min
        | Predeclared::Odd
        | Predeclared::Ord
        | Predeclared::Short
        | Predeclared::Dec
        | Predeclared::Excl
        | Predeclared::Halt
        | Predeclared::Inc
        | Predeclared::Incl
        | Predeclared::New => Asked::Value,
    }
}

/// Whether its call has a result.
pub fn is_function(procedure: Predeclared) -> bool
    ensures { result ≡ spec.is_function procedure }
{
    match procedure {
        Predeclared::Assert
        | Predeclared::Copy
        | Predeclared::Dec
        | Predeclared::Excl
        | Predeclared::Halt
        | Predeclared::Inc
        | Predeclared::Incl
        | Predeclared::New => false,
        Predeclared::Abs
        | Predeclared::Ash
        | Predeclared::Cap
        | Predeclared::Chr
        | Predeclared::Len
        | Predeclared::Long
        | Predeclared::Max
        | Predeclared::Min
        | Predeclared::Odd
        | Predeclared::Ord
        | Predeclared::Short => true,
    }
}
