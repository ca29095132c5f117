//! How many lines the parts of a construct have.

ghost use Rattle.std.specs.Prelude.{◌≡◌, ◌+◌, ◌*◌, ◌<◌, length};
ghost use Rattle.ob_scheme.specs.Descriptions.{elements_of};
ghost use Rattle.ob_gstmt_labels.specs.Sizes.{pointer_size};
ghost use Rattle.ob_gproc_length.specs.Lengths.{capped, for_size};

use ob_gstmt_labels::variable_size;
use ob_scheme::Want;
use ob_types::{Desc, Label, TypeRef, Types, Variable, shape_of, target_within};

/// The most instructions of a module.
pub const MOST_CODE: usize = 262_144;

/// So many lines and so many others; more than the most are answered as one more than the most.
pub fn more(lines: usize, others: usize) -> usize
    ensures { result ≡ capped (lines + others) }
{
    if lines > MOST_CODE || others > MOST_CODE {
        return MOST_CODE + 1;
    }
    let sum = lines + others;
    if sum > MOST_CODE {
        return MOST_CODE + 1;
    }
    sum
}

// How many lines are behind the value of a pointer to a variable whose place and length are wanted.
fn measured_size<T: Types>(types: &T, of: &TypeRef) -> usize
    ensures is { result ≡ pointer_size Want.PlaceAndLength (elements_of (T.types types.now) of.now) }
    ensures small { result < 5 }
{
    match shape_of(types, target_within(types, of)) {
        Some(Desc::Array(..)) => 2,
        _ => 1,
    }
}

/// How many lines are behind the value of a pointer to a variable of a type.
pub fn pointed_size<T: Types>(types: &T, want: Want, of: &TypeRef) -> usize
    ensures is { result ≡ pointer_size want (elements_of (T.types types.now) of.now) }
    ensures small { result < 5 }
{
    match want {
        Want::Value => 2,
        Want::Place | Want::Room(_) | Want::PlaceAndTag => 1,
        Want::Tag => 0,
        Want::PlaceAndLength => measured_size(types, of),
        Want::Length => 3,
    }
}

/// How many lines the tests of a case's labels have.
pub fn lines_of_labels(labels: &[Label]) -> usize
    ensures { result ≡ capped (11 * length labels.now) }
{
    let count = labels.len();
    if count > MOST_CODE {
        return MOST_CODE + 1;
    }
    more(11 * count, 0)
}

/// How many lines FOR has beside its end, its start and its body.
pub fn for_size(variable: &Variable) -> usize
    ensures is { result ≡ for_size variable.now }
    ensures small { result < 40 }
{
    let place = variable_size(Want::Place, variable);
    place + (place + (variable_size(Want::Value, variable) + 10))
}
