//! Where the search begins.

ghost use Rattle.std.specs.Prelude.{◌≡◌, ◌++◌, ◌∷◌, [], true, OnOk, IfOk, map as each};
ghost use Rattle.std.specs.List.{filter, flat_map};
ghost use Rattle.ob_types.specs.Maps.{signature_types};
ghost use Rattle.ob_types.specs.TypedView.{procedure_view, module_view};
ghost use Rattle.ob_desc.specs.Grammar.{is_shown};
ghost use Rattle.ob_env.specs.Shown.{is_visible};
ghost use Rattle.ob_uses_roots.specs.Counts.{own_name};
ghost use Rattle.ob_uses.specs.Objects.{formal_of, signature_of, is_exported, first_shown};
ghost use Rattle.ob_uses.specs.Ways.{type_names};

use ob_tree::{CompactName, Name, QName};
use ob_types::{Desc, TypedModule, TypedParameter, TypedProcedure, TypedType, TypedVariable};
use ob_uses::{add_optional, add_type, shows};
use std::alloc::{AllocError, Global};

/// Whether other modules may write an object with this description.
pub fn visible(desc: &Desc) -> bool
    ensures { result ≡ is_visible desc.now }
{
    match desc {
        Desc::Const(_) => true,
        Desc::Var(mark, _) => shows(*mark),
        Desc::Proc(_) => true,
        Desc::Alias(mark, _) => shows(*mark),
        Desc::Array(mark, _, _) => shows(*mark),
        Desc::OpenArray(mark, _) => shows(*mark),
        Desc::Pointer(mark, _) => shows(*mark),
        Desc::ProcType(mark, _) => shows(*mark),
        Desc::Record(found) => shows(found.mark),
    }
}

/// Whether the procedure is exported and not bound.
pub fn exported(procedure: &TypedProcedure) -> bool
    ensures { result ≡ is_exported (procedure_view procedure.now) }
{
    match procedure.binding {
        None => shows(procedure.mark),
        Some(_) => false,
    }
}

fn start_type(
    alloc: Global,
    left: &mut Vec<QName>,
    module: &TypedModule,
    t: &TypedType,
) -> Result<(), AllocError>
    ensures { OnOk result (left.new.items ≡ left.old.items ++ each (own_name (module_view «module».now)) (filter (λ t. is_visible t.desc) (t.now ∷ []))) }
{
    if !visible(&t.desc) {
        return Ok(());
    }
    let module = CompactName::of(alloc, &module.name)?;
    let object = t.name.clone()?;
    left.push(QName { module, object })?;
    Ok(())
}

fn start_types(
    alloc: Global,
    left: &mut Vec<QName>,
    module: &TypedModule,
    types: &[TypedType],
) -> Result<(), AllocError>
    ensures { OnOk result (left.new.items ≡ left.old.items ++ each (own_name (module_view «module».now)) (filter (λ t. is_visible t.desc) types.now)) }
{
    'types: for t in types {
        start_type(alloc, left, module, t)?;
    }
    Ok(())
}

fn start_variable(
    left: &mut Vec<QName>,
    own: &Name,
    variable: &TypedVariable,
) -> Result<(), AllocError>
    ensures { OnOk result (left.new.items ≡ left.old.items ++ type_names true own.now (each (λ v. v.of) (filter (λ v. is_shown v.mark) (variable.now ∷ [])))) }
{
    if !shows(variable.mark) {
        return Ok(());
    }
    add_type(left, true, own, &variable.of)
}

fn start_variables(
    left: &mut Vec<QName>,
    own: &Name,
    variables: &[TypedVariable],
) -> Result<(), AllocError>
    ensures { OnOk result (left.new.items ≡ left.old.items ++ type_names true own.now (each (λ v. v.of) (filter (λ v. is_shown v.mark) variables.now))) }
{
    'variables: for variable in variables {
        start_variable(left, own, variable)?;
    }
    Ok(())
}

fn start_parameters(
    left: &mut Vec<QName>,
    own: &Name,
    parameters: &[TypedParameter],
) -> Result<(), AllocError>
    ensures { OnOk result (left.new.items ≡ left.old.items ++ type_names true own.now (each (λ p. p.1) (each formal_of parameters.now))) }
{
    'parameters: for parameter in parameters {
        add_type(left, true, own, &parameter.of)?;
    }
    Ok(())
}

fn start_heading(
    left: &mut Vec<QName>,
    own: &Name,
    procedure: &TypedProcedure,
) -> Result<(), AllocError>
    ensures { OnOk result (left.new.items ≡ left.old.items ++ type_names true own.now (signature_types (signature_of (procedure_view procedure.now)))) }
{
    let parameters = procedure.parameters.as_slice();
    start_parameters(left, own, parameters)?;
    add_optional(left, true, own, &procedure.result)?;
    Ok(())
}

#[tactic(auto, using(crate::proofs::Starting::one_procedure))]
fn start_procedure(
    left: &mut Vec<QName>,
    own: &Name,
    procedure: &TypedProcedure,
) -> Result<(), AllocError>
    ensures { OnOk result (left.new.items ≡ left.old.items ++ type_names true own.now (flat_map (λ p. signature_types (signature_of p)) (filter is_exported (procedure_view procedure.now ∷ [])))) }
{
    if !exported(procedure) {
        return Ok(());
    }
    start_heading(left, own, procedure)
}

fn start_procedures(
    left: &mut Vec<QName>,
    own: &Name,
    procedures: &[TypedProcedure],
) -> Result<(), AllocError>
    ensures { OnOk result (left.new.items ≡ left.old.items ++ type_names true own.now (flat_map (λ p. signature_types (signature_of p)) (filter is_exported (each procedure_view procedures.now)))) }
{
    'procedures: for procedure in procedures {
        start_procedure(left, own, procedure)?;
    }
    Ok(())
}

/// The module's own types from which others are reached: those that are exported, and those of
/// exported variables and of the parameters and results of exported procedures.
pub fn shown_starts(alloc: Global, module: &TypedModule) -> Result<Vec<QName>, AllocError>
    ensures { IfOk result (λ v. v.items ≡ first_shown (module_view «module».now)) }
{
    let mut left = Vec::new(alloc);
    start_types(alloc, &mut left, module, module.types.as_slice())?;
    start_variables(&mut left, &module.name, module.variables.as_slice())?;
    start_procedures(&mut left, &module.name, module.procedures.as_slice())?;
    Ok(left)
}
