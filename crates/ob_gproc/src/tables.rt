//! The tables in which a module's code looks up places and numbers.

ghost use Rattle.std.specs.Prelude.{◌≡◌, ◌<◌, IfOk};
ghost use Rattle.ob_layout.specs.Room.{slots};
ghost use Rattle.ob_layout.specs.Words.{words_of};
ghost use Rattle.ob_scheme.specs.Context.{is_record};
ghost use Rattle.ob_gproc.specs.Placed.{ArePlaces};
ghost use Rattle.ob_gproc.specs.Scoped.{variables_before, variables_words, parameters_before, parameters_slots, procedures_before, types_before, types_count};

use crate::places::Places;
use ob_gexpr_code::CodeFault;
use ob_layout::words_of;
use ob_types::{
    Desc, Passing, TypeRef, TypedParameter, TypedProcedure, TypedType, TypedVariable, Types,
};
use std::alloc::Global;

// The words of a type.
#[tactic(auto, using(crate::proofs::Placing::limited_is))]
fn words_in<T: Types>(types: &T, of: &TypeRef) -> Result<usize, CodeFault>
    ensures { IfOk result (λ n. n ≡ words_of (T.types types.now) of.now) }
{
    match words_of(types, of) {
        Some(words) => Ok(words as usize),
        None => Err(CodeFault::Beyond),
    }
}

/// Where variables stand, one behind the other.
pub fn places_of_variables<T: Types>(
    alloc: Global,
    types: &T,
    variables: &[TypedVariable],
) -> Result<Places, CodeFault>
    ensures places { IfOk result (λ p. ArePlaces p.index.positions p.total (variables_before (T.types types.now) variables.now)) }
    ensures total { IfOk result (λ p. p.total ≡ variables_words (T.types types.now) variables.now) }
{
    let mut places = Places::new(alloc);
    'variables: for variable in variables {
        let words = words_in(types, &variable.of)?;
        places = places.with(alloc, variable.name.as_bytes(), words)?;
    }
    Ok(places)
}

fn slots_of(how: Passing) -> usize
    ensures { result ≡ slots how }
{
    match how {
        Passing::Scalar | Passing::Structure | Passing::Variable => 1,
        Passing::OpenArray | Passing::VariableRecord | Passing::VariableOpenArray => 2,
    }
}

/// Which slots parameters have.
pub fn places_of_parameters(
    alloc: Global,
    parameters: &[TypedParameter],
) -> Result<Places, CodeFault>
    ensures places { IfOk result (λ p. ArePlaces p.index.positions p.total (parameters_before parameters.now)) }
    ensures total { IfOk result (λ p. p.total ≡ parameters_slots parameters.now) }
{
    let mut places = Places::new(alloc);
    'parameters: for parameter in parameters {
        places = places.with(
            alloc,
            parameter.name.as_bytes(),
            slots_of(parameter.passing),
        )?;
    }
    Ok(places)
}

/// Which numbers procedures have, counted from 0.
pub fn places_of_procedures(
    alloc: Global,
    procedures: &[TypedProcedure],
) -> Result<Places, CodeFault>
    ensures { IfOk result (λ p. ArePlaces p.index.positions p.total (procedures_before procedures.now)) }
{
    let mut places = Places::new(alloc);
    'procedures: for procedure in procedures {
        places = places.with(alloc, procedure.name.as_bytes(), 1)?;
    }
    Ok(places)
}

/// Whether a description is that of a record type.
pub fn is_record(desc: &Desc) -> bool
    ensures { result ≡ is_record desc.now }
{
    match desc {
        Desc::Record(_) => true,
        _ => false,
    }
}

/// Which numbers record types have, in the order of the text.
pub fn places_of_types(alloc: Global, types: &[TypedType]) -> Result<Places, CodeFault>
    ensures places { IfOk result (λ p. ArePlaces p.index.positions p.total (types_before types.now)) }
    ensures total { IfOk result (λ p. p.total ≡ types_count types.now) }
{
    let mut places = Places::new(alloc);
    'types: for named in types {
        if is_record(&named.desc) {
            places = places.with(alloc, named.name.as_bytes(), 1)?;
        }
    }
    Ok(places)
}
