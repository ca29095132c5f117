//! The rows of an object file's tables, in their order.

ghost use Rattle.std.specs.Prelude.{◌≡◌, map, IfOk};
ghost use Rattle.ob_obj.specs.Grammar.{by_variable, by_command, by_number};
ghost use Rattle.ob_layout.specs.Lists.{in_order};
ghost use Rattle.ob_gproc_tables.specs.Ordered.{of_variable, to_variable, of_command, to_command, of_definition, to_definition};

use crate::defined::Defined;
use crate::named::Named;
use ob_gexpr_code::CodeFault;
use ob_layout::ordered_set;
use ob_obj::{Command, Definition, Variable};
use ob_tree::List;
use std::alloc::{AllocError, Global};
use std::collections::BTreeSet;

fn variables_of(alloc: Global, found: &[Variable]) -> Result<Vec<Named>, AllocError>
    ensures { IfOk result (λ v. v.items ≡ map of_variable found.now) }
{
    let mut items = Vec::new(alloc);
    'items: for item in found {
        items.push(Named {
            name: item.name,
            number: item.place,
        })?;
    }
    Ok(items)
}

fn variables_in(alloc: Global, set: BTreeSet<Named, Global>) -> Result<List<Variable>, AllocError>
    ensures { IfOk result (λ l. l ≡ map to_variable set.keys) }
{
    let mut left = set;
    let mut items = List::new(alloc);
    'items: while let Some(item) = left.pop_first() {
        items.push(Variable {
            name: item.name,
            place: item.number,
        })?;
    }
    Ok(items)
}

/// Variables in the order of their names; of those that have one name, the last.
pub fn variables_in_order(alloc: Global, found: &[Variable]) -> Result<List<Variable>, CodeFault>
    ensures { IfOk result (λ l. l ≡ in_order by_variable found.now) }
{
    let items = variables_of(alloc, found)?;
    let set = ordered_set(alloc, items)?;
    let list = variables_in(alloc, set)?;
    Ok(list)
}

fn commands_of(alloc: Global, found: &[Command]) -> Result<Vec<Named>, AllocError>
    ensures { IfOk result (λ v. v.items ≡ map of_command found.now) }
{
    let mut items = Vec::new(alloc);
    'items: for item in found {
        items.push(Named {
            name: item.name,
            number: item.procedure,
        })?;
    }
    Ok(items)
}

fn commands_in(alloc: Global, set: BTreeSet<Named, Global>) -> Result<List<Command>, AllocError>
    ensures { IfOk result (λ l. l ≡ map to_command set.keys) }
{
    let mut left = set;
    let mut items = List::new(alloc);
    'items: while let Some(item) = left.pop_first() {
        items.push(Command {
            name: item.name,
            procedure: item.number,
        })?;
    }
    Ok(items)
}

/// Exported procedures in the order of their names; of those that have one name, the last.
pub fn commands_in_order(alloc: Global, found: &[Command]) -> Result<List<Command>, CodeFault>
    ensures { IfOk result (λ l. l ≡ in_order by_command found.now) }
{
    let items = commands_of(alloc, found)?;
    let set = ordered_set(alloc, items)?;
    let list = commands_in(alloc, set)?;
    Ok(list)
}

fn definitions_of(alloc: Global, found: &[Definition]) -> Result<Vec<Defined>, AllocError>
    ensures { IfOk result (λ v. v.items ≡ map of_definition found.now) }
{
    let mut items = Vec::new(alloc);
    'items: for item in found {
        items.push(Defined {
            number: item.number,
            procedure: item.procedure,
        })?;
    }
    Ok(items)
}

fn definitions_in(
    alloc: Global,
    set: BTreeSet<Defined, Global>,
) -> Result<List<Definition>, AllocError>
    ensures { IfOk result (λ l. l ≡ map to_definition set.keys) }
{
    let mut left = set;
    let mut items = List::new(alloc);
    'items: while let Some(item) = left.pop_first() {
        items.push(Definition {
            number: item.number,
            procedure: item.procedure,
        })?;
    }
    Ok(items)
}

/// Definitions in the order of their numbers; of those that have one number, the last.
pub fn definitions_in_order(
    alloc: Global,
    found: &[Definition],
) -> Result<List<Definition>, CodeFault>
    ensures { IfOk result (λ l. l ≡ in_order by_number found.now) }
{
    let items = definitions_of(alloc, found)?;
    let set = ordered_set(alloc, items)?;
    let list = definitions_in(alloc, set)?;
    Ok(list)
}
