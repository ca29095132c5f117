//! The rows of parameters and results.

ghost use Rattle.std.specs.Prelude.{◌≡◌, IfOk};
ghost use Rattle.ob_layout.specs.Words.{words_of as words_in_map};
ghost use Rattle.ob_scheme.specs.Descriptions.{open_words};
ghost use Rattle.ob_scheme.specs.Procedures.{has_result};
ghost use Rattle.ob_gproc.specs.Parts.{param_in, params_in};

use ob_gexpr_code::CodeFault;
use ob_instr::Param;
use ob_layout::words_of;
use ob_tree::List;
use ob_types::{Desc, Passing, TypeRef, TypedParameter, Types, shape_of, target_within};
use std::alloc::Global;

// The words of a type.
#[tactic(auto, using(crate::proofs::Placing::limited_is))]
fn words_in<T: Types>(types: &T, of: &TypeRef) -> Result<u32, CodeFault>
    ensures { IfOk result (λ n. n ≡ words_in_map (T.types types.now) of.now) }
{
    match words_of(types, of) {
        Some(words) => Ok(words),
        None => Err(CodeFault::Beyond),
    }
}

// The words of an element of an open array.
fn open_words<T: Types>(types: &T, of: &TypeRef) -> Result<u32, CodeFault>
    ensures { IfOk result (λ n. n ≡ open_words (T.types types.now) of.now) }
{
    match shape_of(types, target_within(types, of)) {
        Some(Desc::OpenArray(_, element)) => words_in(types, element),
        _ => Ok(0),
    }
}

fn param_of<T: Types>(types: &T, passing: Passing, of: &TypeRef) -> Result<Param, CodeFault>
    ensures { IfOk result (λ p. p ≡ param_in (T.types types.now) passing of.now) }
{
    match passing {
        Passing::Scalar => Ok(Param::Scalar),
        Passing::Structure => {
            let words = words_in(types, of)?;
            Ok(Param::Value(words))
        }
        Passing::OpenArray => {
            let words = open_words(types, of)?;
            Ok(Param::ValueArray(words))
        }
        Passing::Variable => Ok(Param::Var),
        Passing::VariableRecord => Ok(Param::VarRecord),
        Passing::VariableOpenArray => Ok(Param::VarArray),
    }
}

/// The kinds of parameters.
pub fn params_of<T: Types>(
    alloc: Global,
    types: &T,
    parameters: &[TypedParameter],
) -> Result<List<Param>, CodeFault>
    ensures { IfOk result (λ l. l ≡ params_in (T.types types.now) parameters.now) }
{
    let mut params = List::new(alloc);
    'parameters: for parameter in parameters {
        let param = param_of(types, parameter.passing, &parameter.of)?;
        params.push(param)?;
    }
    Ok(params)
}

/// Whether there is a result.
pub fn has_result(outcome: &Option<TypeRef>) -> bool
    ensures { result ≡ has_result outcome.now }
{
    match outcome {
        None => false,
        Some(_) => true,
    }
}
