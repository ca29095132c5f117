//! The links of a module, resolved.

ghost use Rattle.std.specs.Prelude.{◌≡◌, ◌≤◌, length};
ghost use Rattle.std.specs.List.Sorted.{IsStrictlySortedBy};
ghost use Rattle.ob_obj.specs.Grammar.{by_name};
ghost use Rattle.ob_obj.specs.Images.{same, named, module_from, linked_variable, linked_procedure};
ghost use Rattle.ob_machine_image.specs.Cut.{has};
ghost use Rattle.ob_machine_image.specs.Whole.{by_entry};

use crate::loaded::Module;
use ob_obj::Link;
use ob_tree::{Name, ProcRef};
use std::cmp::Ordering;

// The order of two names.
fn compare(a: &[u8], b: &[u8]) -> Ordering
    ensures { result ≡ by_name a.now b.now }
{
    a.cmp(b)
}

// Whether two names are the same.
fn is_same(a: &[u8], b: &[u8]) -> bool
    ensures { result ≡ same a.now b.now }
{
    a.cmp(b) == Ordering::Equal
}

// The address of the variable of a name.
fn variable_at(variables: &[(Name, u64)], name: &Name) -> Option<u64>
    requires { IsStrictlySortedBy by_entry variables.now }
    ensures { result ≡ named variables.now name.now }
{
    match variables.binary_search_by(|variable| {
        compare(variable.0.as_bytes(), name.as_bytes())
    }) {
        Ok(place) => Some(variables[place].1),
        Err(_) => None,
    }
}

// The number of the command of a name.
fn command_at(commands: &[(Name, u32)], name: &Name) -> Option<u32>
    requires { IsStrictlySortedBy by_entry commands.now }
    ensures { result ≡ named commands.now name.now }
{
    match commands.binary_search_by(|command| { compare(command.0.as_bytes(), name.as_bytes()) }) {
        Ok(place) => Some(commands[place].1),
        Err(_) => None,
    }
}

/// Whether there is a module of the name.
pub fn has_module(modules: &[Module], name: &Name) -> bool
    ensures { result ≡ has modules.now name.now }
{
    let mut rest = modules;
    while let [unit, more @ ..] = rest {
        if is_same(name.as_bytes(), unit.name.as_bytes()) {
            return true;
        }
        rest = more;
    }
    false
}

/// The number of the module of a name.
pub fn module_number(modules: &[Module], name: &Name) -> Option<u32>
    requires { length modules.now ≤ 255 }
    ensures { result ≡ module_from 0 modules.now name.now }
{
    let mut number = 0;
    let mut rest = modules;
    while let [unit, more @ ..] = rest {
        if is_same(name.as_bytes(), unit.name.as_bytes()) {
            return Some(number);
        }
        number += 1;
        rest = more;
    }
    None
}

/// The address of the variable that a link names.
pub fn linked_variable(modules: &[Module], link: &Link) -> Option<u64>
    requires { length modules.now ≤ 255 }
    ensures { result ≡ linked_variable modules.now link.now }
{
    let number = module_number(modules, &link.module)?;
    let unit = modules.get(number as usize)?;
    variable_at(unit.variables.as_slice(), &link.name)
}

/// The procedure that a link names.
pub fn linked_procedure(modules: &[Module], link: &Link) -> Option<ProcRef>
    requires { length modules.now ≤ 255 }
    ensures { result ≡ linked_procedure modules.now link.now }
{
    let number = module_number(modules, &link.module)?;
    let unit = modules.get(number as usize)?;
    let procedure = command_at(unit.commands.as_slice(), &link.name)?;
    Some(ProcRef {
        module: number,
        proc: procedure,
    })
}
