//! How many operands stand for each kind of want.

ghost use Rattle.std.specs.Prelude.{◌≡◌, ◌+◌, max};
ghost use Rattle.ob_scheme.specs.Needs.{operands_of, result_operands, label_operands};
ghost use Rattle.ob_gproc_operands.specs.Capped.{capped};
ghost use Rattle.ob_gproc_operands.specs.Nowhere.{passed};

use ob_scheme::Want;
use ob_types::{Label, Passing, TypeRef};

/// The most operands of an activation.
pub const MOST_OPERANDS: u32 = 256;

/// The larger of two numbers.
pub fn larger(a: u32, b: u32) -> u32
    ensures { result ≡ max a b }
{
    if a < b { b } else { a }
}

/// So many operands above others, or one more than the most.
pub fn above(under: u32, need: u32) -> u32
    ensures { result ≡ capped (under + need) }
{
    let sum = under as u64 + need as u64;
    if sum > MOST_OPERANDS as u64 {
        return MOST_OPERANDS + 1;
    }
    sum as u32
}

/// How many operands what is wanted comes to.
pub fn operands_of(want: Want) -> u32
    ensures { result ≡ operands_of want }
{
    match want {
        Want::Value | Want::Place | Want::Room(_) | Want::Tag | Want::Length => 1,
        Want::PlaceAndTag | Want::PlaceAndLength => 2,
    }
}

/// How an actual parameter is wanted.
pub fn want_for_actual(how: Passing) -> Want
    ensures { result ≡ passed how }
{
    match how {
        Passing::Scalar => Want::Value,
        Passing::Structure | Passing::Variable => Want::Place,
        Passing::OpenArray | Passing::VariableOpenArray => Want::PlaceAndLength,
        Passing::VariableRecord => Want::PlaceAndTag,
    }
}

/// How many operands a result is.
pub fn operands_of_result(result_type: &Option<TypeRef>) -> u32
    ensures { result ≡ result_operands result_type.now }
{
    match result_type {
        None => 0,
        Some(_) => 1,
    }
}

/// How many operands the tests of a case's labels have.
pub fn operands_of_labels(labels: &[Label]) -> u32
    ensures { result ≡ label_operands labels.now }
{
    match labels {
        [] => 0,
        [_, ..] => 2,
    }
}
