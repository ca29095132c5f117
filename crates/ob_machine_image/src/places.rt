//! The places of a module's variables, strings and procedures.

ghost use Rattle.std.specs.Prelude.{◌≡◌, ◌+◌, ◌≤◌, ◌<◌, ◌^◌, length, map, IfOk};
ghost use Rattle.std.specs.List.{AllByRecursion};
ghost use Rattle.ob_instr.specs.Parts.{slots, most_words};
ghost use Rattle.ob_obj.specs.Grammar.{words_of};
ghost use Rattle.ob_obj.specs.Images.{string_places, linked_variable, linked_procedure, or_zero, or_first};

use crate::callable::Callable;
use crate::links::{linked_procedure, linked_variable};
use crate::loaded::Module;
use ob_instr::Procedure;
use ob_obj::{Command, Link, StringConst, Variable};
use ob_tree::{List, Name, ProcRef};
use std::alloc::{AllocError, Global};

/// The addresses of variables, where the first word of the module has the address `first`.
pub fn variable_places(
    alloc: Global,
    first: u32,
    variables: &[Variable],
) -> Result<List<(Name, u64)>, AllocError>
    ensures { IfOk result (λ l. l ≡ map (λ v. (v.name, first + v.place)) variables.now) }
{
    let mut places = List::new(alloc);
    let mut rest = variables;
    while let [variable, more @ ..] = rest {
        places.push((variable.name, first as u64 + variable.place as u64))?;
        rest = more;
    }
    Ok(places)
}

/// The exported procedures with their numbers.
pub fn command_numbers(alloc: Global, commands: &[Command]) -> Result<List<(Name, u32)>, AllocError>
    ensures { IfOk result (λ l. l ≡ map (λ c. (c.name, c.procedure)) commands.now) }
{
    let mut numbers = List::new(alloc);
    let mut rest = commands;
    while let [command, more @ ..] = rest {
        numbers.push((command.name, command.procedure))?;
        rest = more;
    }
    Ok(numbers)
}

/// The addresses of strings, the first of which has the address `first`.
pub fn string_places(
    alloc: Global,
    first: u32,
    strings: &[StringConst],
) -> Result<List<u32>, AllocError>
    requires { first + words_of strings.now < 2 ^ 32 }
    ensures { IfOk result (λ l. l ≡ string_places first strings.now) }
{
    let mut places = List::new(alloc);
    let mut next = first;
    let mut rest = strings;
    while let [string, more @ ..] = rest {
        places.push(next)?;
        next += string.words;
        rest = more;
    }
    Ok(places)
}

/// The same procedures, with what calls make of their arguments.
pub fn copy_procedures(
    alloc: Global,
    procedures: &[Procedure],
) -> Result<List<Callable>, AllocError>
    requires { AllByRecursion (λ q. slots q.params + q.locals ≤ most_words) procedures.now }
    ensures { IfOk result (λ l. l ≡ procedures.now) }
{
    let mut copies = List::new(alloc);
    let mut rest = procedures;
    while let [procedure, more @ ..] = rest {
        let params = List::from_slice(alloc, procedure.params.as_slice())?;
        copies.push(Callable::new(Procedure {
            entry: procedure.entry,
            params,
            locals: procedure.locals,
            has_result: procedure.has_result,
        }))?;
        rest = more;
    }
    Ok(copies)
}

/// The addresses of the variables that links name.
pub fn variable_links(
    alloc: Global,
    modules: &[Module],
    links: &[Link],
) -> Result<List<u64>, AllocError>
    requires { length modules.now ≤ 255 }
    ensures { IfOk result (λ l. l ≡ map (λ k. or_zero (linked_variable modules.now k)) links.now) }
{
    let mut addresses = List::new(alloc);
    let mut rest = links;
    while let [link, more @ ..] = rest {
        addresses.push(linked_variable(modules, link).unwrap_or(0))?;
        rest = more;
    }
    Ok(addresses)
}

fn or_first(r: Option<ProcRef>) -> ProcRef
    ensures { result ≡ or_first r }
{
    match r {
        Some(r) => r,
        None => ProcRef { module: 0, proc: 0 },
    }
}

/// The procedures that links name.
pub fn procedure_links(
    alloc: Global,
    modules: &[Module],
    links: &[Link],
) -> Result<List<ProcRef>, AllocError>
    requires { length modules.now ≤ 255 }
    ensures { IfOk result (λ l. l ≡ map (λ k. or_first (linked_procedure modules.now k)) links.now) }
{
    let mut procedures = List::new(alloc);
    let mut rest = links;
    while let [link, more @ ..] = rest {
        procedures.push(or_first(linked_procedure(modules, link)))?;
        rest = more;
    }
    Ok(procedures)
}
