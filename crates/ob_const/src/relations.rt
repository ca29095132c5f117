//! Relations of constants.

ghost use Rattle.std.specs.Prelude.{◌≡◌};
ghost use Rattle.ob_types.specs.Numbers.{holds};
ghost use Rattle.ob_rules.specs.Constants as spec;

use crate::values::truth;
use ob_types::{Comparison, Value};

pub fn holds(comparison: Comparison, equal: bool, less: bool) -> bool
    ensures { result ≡ holds comparison equal less }
{
    match comparison {
        Comparison::Equal => equal,
        Comparison::NotEqual => !equal,
        Comparison::Less => less,
        Comparison::LessEqual => equal || less,
        Comparison::Greater => !(equal || less),
        Comparison::GreaterEqual => !less,
    }
}

fn same_truth(a: bool, b: bool) -> bool
    ensures { result ≡ spec.same_truth a b }
{
    if a { b } else { !b }
}

/// A relation of two constants that are no strings.
pub fn related(comparison: Comparison, a: &Value, b: &Value) -> Option<Value>
    ensures { result ≡ spec.related comparison a.now b.now }
{
    match (a, b) {
        (Value::Int(a), Value::Int(b)) => truth(holds(comparison, *a == *b, *a < *b)),
        (Value::Char(a), Value::Char(b)) => truth(holds(comparison, *a == *b, *a < *b)),
        (Value::Bool(a), Value::Bool(b)) => truth(holds(comparison, same_truth(*a, *b), false)),
        (Value::Set(a), Value::Set(b)) => truth(holds(comparison, *a == *b, false)),
        _ => None,
    }
}
