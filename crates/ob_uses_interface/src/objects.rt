//! The objects that a module shows.

ghost use Rattle.std.specs.Prelude.{◌≡◌, ◌++◌, ◌∷◌, [], OnOk, IfOk, Option, List, map as each};
ghost use Rattle.std.specs.Option.{option_map};
ghost use Rattle.std.specs.List.{filter};
ghost use Rattle.ob_tree.specs.declared.names.QName.{QName as Named};
ghost use Rattle.ob_types.specs.TypedView.{procedure_view, module_view};
ghost use Rattle.ob_desc.specs.Grammar.{is_shown, seen, layout_text};
ghost use Rattle.ob_fprint.specs.Print.{print_from};
ghost use Rattle.ob_env.specs.Faces.{object_of};
ghost use Rattle.ob_uses_roots.specs.Counts.{own_name};
ghost use Rattle.ob_uses_interface.specs.Entries.{entry_of};
ghost use Rattle.ob_uses.specs.Objects.{constant_object, variable_object, procedure_object, type_object, is_exported, objects_of as objects_in, HasOwnTypes};
ghost use Rattle.ob_uses.specs.Ways.{has_pair, paired};
ghost use Rattle.ob_types.specs.declared.face.Aspect.TheVariants.{Shape};

use crate::ascending::ascending;
use crate::copies::{copy_type, copy_value, seen_desc, signature_with};
use crate::entry::Entry;
use crate::starts::{exported, shown_starts};
use ob_desc::write_desc;
use ob_fprint::print_of;
use ob_tree::{Boxed, CompactName, List, Name, ObjName, Print, QName};
use ob_types::{
    Aspect, Desc, Object, TypedConstant, TypedModule, TypedProcedure, TypedType, TypedVariable,
    Types,
};
use ob_uses::{Pair, Way, search, shows};
use std::alloc::{AllocError, Global};
use std::collections::BTreeSet;

// The print of the layout text, which a record has.
fn layout_print(
    alloc: Global,
    module: &Name,
    name: &ObjName,
    desc: &Desc,
) -> Result<Option<Print>, AllocError>
    ensures { IfOk result (λ p. p ≡ option_map print_from (layout_text (record { «module» = «module».now; object = name.now }) desc.now)) }
{
    match desc {
        Desc::Record(_) => {
            let text = write_desc(alloc, module, name, desc, Aspect::Layout)?;
            Ok(Some(print_of(text.as_slice())))
        }
        Desc::Const(_) => Ok(None),
        Desc::Var(_, _) => Ok(None),
        Desc::Proc(_) => Ok(None),
        Desc::Alias(_, _) => Ok(None),
        Desc::Array(_, _, _) => Ok(None),
        Desc::OpenArray(_, _) => Ok(None),
        Desc::Pointer(_, _) => Ok(None),
        Desc::ProcType(_, _) => Ok(None),
    }
}

// The object with the prints of its texts.
fn entry(alloc: Global, module: &Name, name: ObjName, desc: Desc) -> Result<Entry, AllocError>
    requires { seen desc ≡ desc }
    ensures { IfOk result (λ e. e ≡ entry_of «module».now (name, desc)) }
{
    let text = write_desc(alloc, module, &name, &desc, Aspect::Shape)?;
    let shape = print_of(text.as_slice());
    let layout = layout_print(alloc, module, &name, &desc)?;
    let object = Object {
        name,
        desc,
        shape,
        layout,
    };
    let object = Boxed::new(alloc, object)?;
    Ok(Entry { object })
}

fn add_constant(
    alloc: Global,
    found: &mut Vec<Entry>,
    module: &Name,
    constant: &TypedConstant,
) -> Result<(), AllocError>
    ensures { OnOk result (found.new.items ≡ found.old.items ++ each (entry_of «module».now) (each constant_object (filter (λ c. is_shown c.mark) (constant.now ∷ [])))) }
{
    if !shows(constant.mark) {
        return Ok(());
    }
    let name = ObjName::from_name(alloc, &constant.name)?;
    let value = copy_value(alloc, &constant.value)?;
    let item = entry(alloc, module, name, Desc::Const(value))?;
    found.push(item)?;
    Ok(())
}

fn add_constants(
    alloc: Global,
    found: &mut Vec<Entry>,
    module: &Name,
    constants: &[TypedConstant],
) -> Result<(), AllocError>
    ensures { OnOk result (found.new.items ≡ found.old.items ++ each (entry_of «module».now) (each constant_object (filter (λ c. is_shown c.mark) constants.now))) }
{
    'constants: for constant in constants {
        add_constant(alloc, found, module, constant)?;
    }
    Ok(())
}

fn add_variable(
    alloc: Global,
    found: &mut Vec<Entry>,
    module: &Name,
    variable: &TypedVariable,
) -> Result<(), AllocError>
    ensures { OnOk result (found.new.items ≡ found.old.items ++ each (entry_of «module».now) (each variable_object (filter (λ v. is_shown v.mark) (variable.now ∷ [])))) }
{
    if !shows(variable.mark) {
        return Ok(());
    }
    let name = ObjName::from_name(alloc, &variable.name)?;
    let of = copy_type(&variable.of)?;
    let item = entry(alloc, module, name, Desc::Var(variable.mark, of))?;
    found.push(item)?;
    Ok(())
}

fn add_variables(
    alloc: Global,
    found: &mut Vec<Entry>,
    module: &Name,
    variables: &[TypedVariable],
) -> Result<(), AllocError>
    ensures { OnOk result (found.new.items ≡ found.old.items ++ each (entry_of «module».now) (each variable_object (filter (λ v. is_shown v.mark) variables.now))) }
{
    'variables: for variable in variables {
        add_variable(alloc, found, module, variable)?;
    }
    Ok(())
}

fn add_procedure(
    alloc: Global,
    found: &mut Vec<Entry>,
    module: &Name,
    procedure: &TypedProcedure,
) -> Result<(), AllocError>
    ensures { OnOk result (found.new.items ≡ found.old.items ++ each (entry_of «module».now) (each procedure_object (filter is_exported (procedure_view procedure.now ∷ [])))) }
{
    if !exported(procedure) {
        return Ok(());
    }
    let name = procedure.name.clone()?;
    let parameters = procedure.parameters.as_slice();
    let signature = signature_with(alloc, parameters, &procedure.result)?;
    let item = entry(alloc, module, name, Desc::Proc(signature))?;
    found.push(item)?;
    Ok(())
}

fn add_procedures(
    alloc: Global,
    found: &mut Vec<Entry>,
    module: &Name,
    procedures: &[TypedProcedure],
) -> Result<(), AllocError>
    ensures { OnOk result (found.new.items ≡ found.old.items ++ each (entry_of «module».now) (each procedure_object (filter is_exported (each procedure_view procedures.now)))) }
{
    'procedures: for procedure in procedures {
        add_procedure(alloc, found, module, procedure)?;
    }
    Ok(())
}

// Whether the type is among those that were reached.
fn is_reached(
    alloc: Global,
    reached: &BTreeSet<Pair, Global>,
    module: &Name,
    name: &ObjName,
) -> Result<bool, AllocError>
    ensures { IfOk result (λ b. b ≡ has_pair reached.now.keys (paired Shape (record { «module» = «module».now; object = name.now }))) }
{
    let module = CompactName::of(alloc, module)?;
    let object = name.clone()?;
    let pair = Pair {
        object: QName { module, object },
        aspect: Aspect::Shape,
    };
    Ok(reached.contains(&pair))
}

#[tactic(auto, using(ob_uses::proofs::Objecting::seen_twice))]
fn add_type_object(
    alloc: Global,
    found: &mut Vec<Entry>,
    module: &Name,
    reached: &BTreeSet<Pair, Global>,
    t: &TypedType,
) -> Result<(), AllocError>
    ensures { OnOk result (found.new.items ≡ found.old.items ++ each (entry_of «module».now) (each type_object (filter (λ t. has_pair reached.now.keys (paired Shape (record { «module» = «module».now; object = t.name }))) (t.now ∷ [])))) }
{
    if !is_reached(alloc, reached, module, &t.name)? {
        return Ok(());
    }
    let name = t.name.clone()?;
    let desc = seen_desc(alloc, &t.desc)?;
    let item = entry(alloc, module, name, desc)?;
    found.push(item)?;
    Ok(())
}

fn add_type_objects(
    alloc: Global,
    found: &mut Vec<Entry>,
    module: &Name,
    reached: &BTreeSet<Pair, Global>,
    types: &[TypedType],
) -> Result<(), AllocError>
    ensures { OnOk result (found.new.items ≡ found.old.items ++ each (entry_of «module».now) (each type_object (filter (λ t. has_pair reached.now.keys (paired Shape (record { «module» = «module».now; object = t.name }))) types.now))) }
{
    'types: for t in types {
        add_type_object(alloc, found, module, reached, t)?;
    }
    Ok(())
}

/// The objects of a module that is laid out, ascending by name, with the prints of their texts:
/// its exported constants, variables and procedures, and the types that are exported or reached.
///
/// `types` is a map that has the module's own types. An error is want of memory alone.
pub fn objects_of<T: Types>(
    alloc: Global,
    types: &T,
    module: &TypedModule,
) -> Result<List<Object>, AllocError>
    requires { HasOwnTypes (T.types types.now) (module_view «module».now) }
    ensures { IfOk result (λ l. l ≡ each (object_of «module».now.name) (objects_in (module_view «module».now))) }
{
    let starts = shown_starts(alloc, module)?;
    let first = starts.as_slice();
    let reached = search(alloc, types, Way::Shown, Aspect::Shape, &module.name, first)?;
    let mut found = Vec::new(alloc);
    let constants = module.constants.as_slice();
    add_constants(alloc, &mut found, &module.name, constants)?;
    let variables = module.variables.as_slice();
    add_variables(alloc, &mut found, &module.name, variables)?;
    let procedures = module.procedures.as_slice();
    add_procedures(alloc, &mut found, &module.name, procedures)?;
    let own_types = module.types.as_slice();
    add_type_objects(alloc, &mut found, &module.name, &reached, own_types)?;
    let objects = ascending(alloc, found)?;
    Ok(objects)
}
