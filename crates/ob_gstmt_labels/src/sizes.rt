//! How long the parts of a construct are.

ghost use Rattle.std.specs.Prelude.{◌≡◌, ◌+◌, ◌*◌, ◌<◌, ◌≤◌, length, IfOk};
ghost use Rattle.ob_scheme.specs.Context.{Context};
ghost use Rattle.ob_scheme.specs.Descriptions.{elements_of};
ghost use Rattle.ob_gstmt_labels.specs.Sizes.{place_size, measure_size, pointer_size, dropped_size, guard_size, pair_size, parameter_size, variable_size, text_size, constant_size, unary_size, between, joined};

use ob_gexpr_code::{CodeFault, Scope};
use ob_scheme::Want;
use ob_types::{Connective, Guarded, Passing, TypeRef, Unary, Value, Variable};

/// The most instructions that are counted. The limit of a module's code is lower, and is asked before.
const MOST: usize = 16_777_216;

/// The index so many lines further.
pub fn further(pc: usize, lines: usize) -> Result<usize, CodeFault>
    ensures { IfOk result (λ n. n ≡ pc + lines) }
{
    if pc > MOST || lines > MOST {
        return Err(CodeFault::Beyond);
    }
    Ok(pc + lines)
}

/// The index behind so many labels.
pub fn behind_labels(pc: usize, labels: usize) -> Result<usize, CodeFault>
    ensures { IfOk result (λ n. n ≡ pc + 11 * labels) }
{
    if labels > MOST {
        return Err(CodeFault::Beyond);
    }
    let lines = 11 * labels;
    further(pc, lines)
}

/// How many lines are behind a place.
pub fn place_size(want: Want) -> usize
    ensures is { result ≡ place_size want }
    ensures small { result < 5 }
{
    match want {
        Want::Value | Want::PlaceAndTag | Want::PlaceAndLength => 1,
        Want::Place | Want::Room(_) | Want::Tag | Want::Length => 0,
    }
}

// How many lines are behind the value of a pointer to an array whose length is wanted.
fn measure_size<S: Scope>(scope: &S, of: &TypeRef) -> Result<usize, CodeFault>
    ensures is { IfOk result (λ n. n ≡ measure_size (elements_of (S.context scope.now).types of.now)) }
    ensures small { IfOk result (λ n. n < 5) }
{
    match scope.elements(of)? {
        None => Ok(1),
        Some(_) => Ok(2),
    }
}

/// How many lines are behind the value of a pointer to a variable of a type.
pub fn pointer_size<S: Scope>(scope: &S, want: Want, of: &TypeRef) -> Result<usize, CodeFault>
    ensures is { IfOk result (λ n. n ≡ pointer_size want (elements_of (S.context scope.now).types of.now)) }
    ensures small { IfOk result (λ n. n < 5) }
{
    match want {
        Want::Value => Ok(2),
        Want::Place | Want::Room(_) | Want::PlaceAndTag => Ok(1),
        Want::Tag => Ok(0),
        Want::PlaceAndLength => measure_size(scope, of),
        Want::Length => Ok(3),
    }
}

fn dropped_size(want: Want) -> usize
    ensures is { result ≡ dropped_size want }
    ensures small { result < 5 }
{
    match want {
        Want::Place | Want::Room(_) => 1,
        Want::Value | Want::PlaceAndTag | Want::Tag | Want::PlaceAndLength | Want::Length => 0,
    }
}

/// How many lines are behind a guard.
pub fn guard_size(guarded: Guarded, want: Want) -> usize
    ensures is { result ≡ guard_size guarded want }
    ensures small { result < 5 }
{
    match guarded {
        Guarded::Pointer => place_size(want),
        Guarded::Record => dropped_size(want),
    }
}

fn pair_size(want: Want) -> usize
    ensures is { result ≡ pair_size want }
    ensures small { result < 5 }
{
    match want {
        Want::PlaceAndTag | Want::PlaceAndLength => 4,
        Want::Value | Want::Place | Want::Room(_) | Want::Tag | Want::Length => 2,
    }
}

fn parameter_size(how: Passing, want: Want) -> usize
    ensures is { result ≡ parameter_size how want }
    ensures small { result < 8 }
{
    match how {
        Passing::Scalar => place_size(want) + 1,
        Passing::Structure | Passing::Variable => place_size(want) + 2,
        Passing::OpenArray | Passing::VariableRecord | Passing::VariableOpenArray => pair_size(
            want,
        ),
    }
}

/// How many lines a variable has.
pub fn variable_size(want: Want, variable: &Variable) -> usize
    ensures is { result ≡ variable_size want variable.now }
    ensures small { result < 8 }
{
    match variable {
        Variable::Module { .. } | Variable::Local(_) => place_size(want) + 1,
        Variable::Parameter(how, _) => parameter_size(*how, want),
    }
}

fn text_size(want: Want) -> usize
    ensures { result ≡ text_size want }
{
    match want {
        Want::PlaceAndLength => 2,
        Want::Value | Want::Place | Want::Room(_) | Want::PlaceAndTag | Want::Tag | Want::Length =>
            1,
    }
}

/// How many lines a constant has.
pub fn constant_size(want: Want, value: &Value) -> usize
    ensures { result ≡ constant_size want value.now }
{
    match value {
        Value::Bool(_) | Value::Char(_) | Value::Int(_) | Value::Set(_) | Value::Nil => 1,
        Value::Str(_) => text_size(want),
    }
}

/// How many lines an operation on one value has, behind the value.
pub fn unary_size(op: Unary) -> usize
    ensures { result ≡ unary_size op }
{
    match op {
        Unary::Long(_) | Unary::Ord => 0,
        Unary::Negate(_)
        | Unary::Not
        | Unary::Complement
        | Unary::Abs(_)
        | Unary::Cap
        | Unary::Chr
        | Unary::Odd
        | Unary::Short(_)
        | Unary::Element => 1,
    }
}

/// How many lines are between the operands of & or OR.
pub fn between(connective: Connective) -> usize
    ensures { result ≡ between connective }
{
    match connective {
        Connective::And => 1,
        Connective::Or => 3,
    }
}

/// How many lines are behind the operands of & or OR.
pub fn joined(connective: Connective) -> usize
    ensures { result ≡ joined connective }
{
    match connective {
        Connective::And => 2,
        Connective::Or => 0,
    }
}
