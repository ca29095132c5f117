//! What a declaration uses.

ghost use Rattle.std.specs.Prelude.{◌≡◌, ◌∷◌, [], ◌++◌, OnOk, IfOk, Option, map as each};
ghost use Rattle.std.specs.List.{flat_map};
ghost use Rattle.std.specs.Option.{option_copied};
ghost use Rattle.ob_layout.specs.Members.{method_in};
ghost use Rattle.ob_types.specs.declared.types.TypeRef.TheVariants as ref;
ghost use Rattle.ob_types.specs.Maps.{listed};
ghost use Rattle.ob_types.specs.TypedView.{designator_view, procedure_view, mentioned_view, module_view};
ghost use Rattle.ob_uses_roots.specs.Counts.{Shapes, both, shapes, mode_of, formal_counts, counts_of_designator, counts_of_desc, counts_of_type, counts_of_variable, counts_of_parameter, counts_of_method, counts_of_binding, counts_of_procedure, counts_of_mentioned, counts_of_module};
ghost use Rattle.ob_uses_roots.specs.Noted.{noted, nothing};

use crate::exprs::count_designator;
use crate::methods::method_of;
use crate::noted::Noted;
use crate::notes::{
    note_both, note_formal, note_named, note_own, note_result, note_shape, note_signature,
};
use crate::stmts::count_stmts;
use ob_tree::{List, Name, QName};
use ob_types::{
    Binding, Desc, Designator, Field, Method, Mode, Passing, TypeRef, TypedModule, TypedParameter,
    TypedProcedure, TypedType, TypedVariable, Types,
};
use std::alloc::{AllocError, Global};

fn mode_of(passing: Passing) -> Mode
    ensures { result ≡ mode_of passing }
{
    match passing {
        Passing::Scalar => Mode::Value,
        Passing::Structure => Mode::Value,
        Passing::OpenArray => Mode::Value,
        Passing::Variable => Mode::Var,
        Passing::VariableRecord => Mode::Var,
        Passing::VariableOpenArray => Mode::Var,
    }
}

// ---- types

fn count_formals(found: &mut Noted, params: &[(Mode, TypeRef)]) -> Result<(), AllocError>
    ensures { OnOk result (found.new ≡ noted found.old (flat_map formal_counts params.now)) }
{
    'params: for param in params {
        note_formal(found, param.0, &param.1)?;
    }
    Ok(())
}

#[tactic(auto, using(crate::proofs::Parting::note_base_none, crate::proofs::Parting::note_base_some))]
fn count_base(found: &mut Noted, base: &Option<TypeRef>) -> Result<(), AllocError>
    ensures { OnOk result (found.new ≡ noted found.old (flat_map both (listed base.now))) }
{
    match base {
        None => Ok(()),
        Some(of) => note_both(found, of),
    }
}

fn count_fields(found: &mut Noted, fields: &[Field]) -> Result<(), AllocError>
    ensures { OnOk result (found.new ≡ noted found.old (flat_map (λ f. both f.of) fields.now)) }
{
    'fields: for field in fields {
        note_both(found, &field.of)?;
    }
    Ok(())
}

#[tactic(auto, using(crate::proofs::Parting::note_none, crate::proofs::Parting::note_two))]
fn count_desc(found: &mut Noted, desc: &Desc) -> Result<(), AllocError>
    ensures { OnOk result (found.new ≡ noted found.old (counts_of_desc desc.now)) }
{
    match desc {
        Desc::Const(_) => Ok(()),
        Desc::Var(_, _) => Ok(()),
        Desc::Proc(_) => Ok(()),
        Desc::Alias(_, _) => Ok(()),
        Desc::Array(_, _, t) => note_both(found, t),
        Desc::OpenArray(_, t) => note_both(found, t),
        Desc::Pointer(_, _) => Ok(()),
        Desc::ProcType(_, signature) => {
            count_formals(found, signature.params.as_slice())?;
            note_result(found, &signature.result)
        }
        Desc::Record(record) => {
            count_base(found, &record.base)?;
            count_fields(found, record.fields.as_slice())
        }
    }
}

#[tactic(auto, using(crate::proofs::Parting::note_first))]
fn count_type(
    alloc: Global,
    found: &mut Noted,
    module: &Name,
    t: &TypedType,
) -> Result<(), AllocError>
    ensures { OnOk result (found.new ≡ noted found.old (Shapes (ref.Named (record { «module» = «module».now; object = t.now.name })) ∷ counts_of_desc t.now.desc)) }
{
    note_own(alloc, found, module, &t.name)?;
    count_desc(found, &t.desc)
}

fn count_types(
    alloc: Global,
    found: &mut Noted,
    module: &TypedModule,
    types: &[TypedType],
) -> Result<(), AllocError>
    ensures { OnOk result (found.new ≡ noted found.old (flat_map (counts_of_type (module_view «module».now)) types.now)) }
{
    'types: for t in types {
        count_type(alloc, found, &module.name, t)?;
    }
    Ok(())
}

// ---- variables and procedures

fn count_variables(found: &mut Noted, variables: &[TypedVariable]) -> Result<(), AllocError>
    ensures { OnOk result (found.new ≡ noted found.old (flat_map counts_of_variable variables.now)) }
{
    'variables: for variable in variables {
        note_both(found, &variable.of)?;
    }
    Ok(())
}

fn count_parameters(found: &mut Noted, parameters: &[TypedParameter]) -> Result<(), AllocError>
    ensures { OnOk result (found.new ≡ noted found.old (flat_map counts_of_parameter parameters.now)) }
{
    'parameters: for parameter in parameters {
        note_formal(found, mode_of(parameter.passing), &parameter.of)?;
    }
    Ok(())
}

// The bound procedure that begins the family of what is bound.
fn bound_method<'a, T: Types>(types: &'a T, bound: &Binding) -> Option<&'a Method>
    ensures { option_copied result ≡ method_in (T.types types.now) bound.now.family.owner bound.now.family.name }
{
    method_of(types, &bound.family.owner, &bound.family.name.name())
}

// The parameters and the result of the bound procedure that a procedure redefines or begins.
#[tactic(auto, using(crate::proofs::Parting::note_none))]
fn count_binding<T: Types>(
    found: &mut Noted,
    types: &T,
    binding: &Option<Binding>,
) -> Result<(), AllocError>
    ensures { OnOk result (found.new ≡ noted found.old (counts_of_binding (T.types types.now) binding.now)) }
{
    match binding {
        None => Ok(()),
        Some(bound) => match bound_method(types, bound) {
            None => Ok(()),
            Some(method) => note_signature(found, &method.signature),
        },
    }
}

#[tactic(auto, using(crate::proofs::Parting::note_five))]
fn count_procedure<T: Types>(
    alloc: Global,
    found: &mut Noted,
    types: &T,
    procedure: &TypedProcedure,
) -> Result<(), AllocError>
    ensures { OnOk result (found.new ≡ noted found.old (counts_of_procedure (T.types types.now) (procedure_view procedure.now))) }
{
    count_parameters(found, procedure.parameters.as_slice())?;
    note_result(found, &procedure.result)?;
    count_variables(found, procedure.locals.as_slice())?;
    count_binding(found, types, &procedure.binding)?;
    count_stmts(alloc, found, procedure.body.as_slice())
}

fn count_procedures<T: Types>(
    alloc: Global,
    found: &mut Noted,
    types: &T,
    procedures: &[TypedProcedure],
) -> Result<(), AllocError>
    ensures { OnOk result (found.new ≡ noted found.old (flat_map (counts_of_procedure (T.types types.now)) (each procedure_view procedures.now))) }
{
    'procedures: for procedure in procedures {
        count_procedure(alloc, found, types, procedure)?;
    }
    Ok(())
}

// ---- what the text names and the tree has nothing of

fn count_objects(found: &mut Noted, objects: &[QName]) -> Result<(), AllocError>
    ensures { OnOk result (found.new ≡ noted found.old (each (λ q. Shapes (ref.Named q)) objects.now)) }
{
    'objects: for object in objects {
        note_named(found, object)?;
    }
    Ok(())
}

fn count_named_types(found: &mut Noted, types: &[TypeRef]) -> Result<(), AllocError>
    ensures { OnOk result (found.new ≡ noted found.old (shapes types.now)) }
{
    'types: for t in types {
        note_shape(found, t)?;
    }
    Ok(())
}

fn count_lengths(alloc: Global, found: &mut Noted, lengths: &[Designator]) -> Result<(), AllocError>
    ensures { OnOk result (found.new ≡ noted found.old (flat_map counts_of_designator (each designator_view lengths.now))) }
{
    'lengths: for d in lengths {
        count_designator(alloc, found, d)?;
    }
    Ok(())
}

#[tactic(auto, using(crate::proofs::Parting::note_three))]
fn count_mentioned(alloc: Global, found: &mut Noted, module: &TypedModule) -> Result<(), AllocError>
    ensures { OnOk result (found.new ≡ noted found.old (counts_of_mentioned (module_view «module».now))) }
{
    count_objects(found, module.mentioned.objects.as_slice())?;
    count_named_types(found, module.mentioned.types.as_slice())?;
    count_lengths(alloc, found, module.mentioned.lengths.as_slice())
}

#[tactic(auto, using(crate::proofs::Parting::note_five))]
fn count_all<T: Types>(
    alloc: Global,
    found: &mut Noted,
    types: &T,
    module: &TypedModule,
) -> Result<(), AllocError>
    ensures { OnOk result (found.new ≡ noted found.old (counts_of_module (T.types types.now) (module_view «module».now))) }
{
    count_mentioned(alloc, found, module)?;
    count_types(alloc, found, module, module.types.as_slice())?;
    count_variables(found, module.variables.as_slice())?;
    count_procedures(alloc, found, types, module.procedures.as_slice())?;
    count_stmts(alloc, found, module.body.as_slice())
}

/// All that counts in a module, over the map of its own types and of those around it. An error is
/// want of memory alone.
pub fn count_module<T: Types>(
    alloc: Global,
    types: &T,
    module: &TypedModule,
) -> Result<Noted, AllocError>
    ensures { IfOk result (λ n. n ≡ noted nothing (counts_of_module (T.types types.now) (module_view «module».now))) }
{
    let mut found = Noted {
        shapes: List::new(alloc),
        layouts: List::new(alloc),
    };
    count_all(alloc, &mut found, types, module)?;
    Ok(found)
}
