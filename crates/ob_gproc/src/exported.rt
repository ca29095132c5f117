//! The exported variables and procedures of an object file.

ghost use Rattle.std.specs.Prelude.{◌≡◌, ◌+◌, ◌++◌, ◌∷◌, [], map, OnOk, IfOk};
ghost use Rattle.ob_types.specs.TypedView.{module_view, procedure_view};
ghost use Rattle.ob_scheme.specs.Object.{is_seen, is_full, is_free, seen_variables, commands_among, variables, commands};

use crate::module_scope::ModuleScope;
use ob_gexpr_code::CodeFault;
use ob_gproc_tables::{commands_in_order, variables_in_order};
use ob_obj::{Command, Variable};
use ob_tree::{List, Mark, Name, ObjName};
use ob_types::{Binding, TypedProcedure, TypedVariable, Types};
use std::alloc::Global;

fn is_seen(mark: Mark) -> bool
    ensures { result ≡ is_seen mark }
{
    match mark {
        Mark::Hidden => false,
        Mark::ReadOnly => true,
        Mark::Full => true,
    }
}

fn is_full(mark: Mark) -> bool
    ensures { result ≡ is_full mark }
{
    match mark {
        Mark::Full => true,
        Mark::Hidden => false,
        Mark::ReadOnly => false,
    }
}

fn is_free(binding: &Option<Binding>) -> bool
    ensures { result ≡ is_free binding.now }
{
    match binding {
        None => true,
        Some(_) => false,
    }
}

// A variable that is exported stands behind the others, with its place.
fn add_seen<T: Types>(
    seen: &mut List<Variable>,
    scope: &ModuleScope<'_, T>,
    variable: &TypedVariable,
) -> Result<(), CodeFault>
    ensures { OnOk result (seen.new ≡ seen.old ++ seen_variables (T.types scope.now.types.now) (module_view scope.now.unit.now) (variable.now ∷ [])) }
{
    if !is_seen(variable.mark) {
        return Ok(());
    }
    let place = scope.variables.get(variable.name.as_bytes()) as u32;
    seen.push(Variable {
        name: variable.name,
        place,
    })?;
    Ok(())
}

// The exported ones of variables, each with its place.
fn seen_among<T: Types>(
    alloc: Global,
    scope: &ModuleScope<'_, T>,
    variables: &[TypedVariable],
) -> Result<List<Variable>, CodeFault>
    ensures { IfOk result (λ l. l ≡ seen_variables (T.types scope.now.types.now) (module_view scope.now.unit.now) variables.now) }
{
    let mut seen = List::new(alloc);
    'variables: for variable in variables {
        add_seen(&mut seen, scope, variable)?;
    }
    Ok(seen)
}

/// The exported variables of the module, in the order of their names.
pub fn exported_variables<T: Types>(
    alloc: Global,
    scope: &ModuleScope<'_, T>,
) -> Result<List<Variable>, CodeFault>
    ensures { IfOk result (λ l. l ≡ variables (T.types scope.now.types.now) (module_view scope.now.unit.now)) }
{
    let seen = seen_among(alloc, scope, scope.unit.variables.as_slice())?;
    variables_in_order(alloc, seen.as_slice())
}

// An exported procedure is named by an identifier.
fn name_of(name: &ObjName) -> Result<Name, CodeFault>
    ensures { IfOk result (λ n. n ≡ name.now) }
{
    let bytes = name.as_bytes();
    if bytes.len() > 64 {
        return Err(CodeFault::Beyond);
    }
    Ok(Name::new(bytes))
}

// A procedure that is exported and not bound stands behind the others, with its index.
fn add_command<T: Types>(
    found: &mut List<Command>,
    _scope: &ModuleScope<'_, T>,
    procedure: &TypedProcedure,
    index: u32,
) -> Result<(), CodeFault>
    ensures { OnOk result (found.new ≡ found.old ++ commands_among (T.types _scope.now.types.now) (module_view _scope.now.unit.now) (procedure_view procedure.now ∷ []) index) }
{
    if !is_full(procedure.mark) || !is_free(&procedure.binding) {
        return Ok(());
    }
    let name = name_of(&procedure.name)?;
    found.push(Command {
        name,
        procedure: index,
    })?;
    Ok(())
}

/// The next index.
pub fn next_index(index: u32) -> Result<u32, CodeFault>
    ensures { IfOk result (λ n. n ≡ index + 1) }
{
    if index >= 1 << 31 {
        return Err(CodeFault::Beyond);
    }
    Ok(index + 1)
}

// The exported ones of procedures that are not bound, each with its index.
fn commands_in<T: Types>(
    alloc: Global,
    scope: &ModuleScope<'_, T>,
    procedures: &[TypedProcedure],
) -> Result<List<Command>, CodeFault>
    ensures { IfOk result (λ l. l ≡ commands_among (T.types scope.now.types.now) (module_view scope.now.unit.now) (map procedure_view procedures.now) 1) }
{
    let mut found = List::new(alloc);
    let mut index: u32 = 1;
    'procedures: for procedure in procedures {
        add_command(&mut found, scope, procedure, index)?;
        index = next_index(index)?;
    }
    Ok(found)
}

/// The exported procedures of the module, in the order of their names.
pub fn exported_procedures<T: Types>(
    alloc: Global,
    scope: &ModuleScope<'_, T>,
) -> Result<List<Command>, CodeFault>
    ensures { IfOk result (λ l. l ≡ commands (T.types scope.now.types.now) (module_view scope.now.unit.now)) }
{
    let found = commands_in(alloc, scope, scope.unit.procedures.as_slice())?;
    commands_in_order(alloc, found.as_slice())
}
