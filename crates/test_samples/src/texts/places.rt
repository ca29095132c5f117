//! Where the nodes of a tree stand.

use crate::texts::nodes::{place_of, place_of_statement, places_of_module};
use ob_parse_text::parse_text;
use ob_tree::{Module, Pos, Stmt};
use std::alloc::Global;

fn module_of(alloc: Global, bytes: &[u8]) -> anyhow::Result<Module> {
    if bytes.len() >= 1_000_000 {
        anyhow::bail!("too long");
    }
    match parse_text(alloc, bytes) {
        Ok(tree) => Ok(tree),
        Err(_) => anyhow::bail!("no module"),
    }
}

fn put(said: &mut String, alloc: Global, at: Pos) -> anyhow::Result<()> {
    let Pos { line, col } = at;
    said.push_str(&format!(in alloc; " {line}:{col}")?)?;
    Ok(())
}

/// Of each node of a module, in the order of the text.
pub fn of_nodes(alloc: Global, bytes: &[u8]) -> anyhow::Result<String> {
    let tree = module_of(alloc, bytes)?;
    let places = places_of_module(alloc, &tree)?;
    let mut said = String::from_str(alloc, "\n ")?;
    for place in places.as_slice() {
        put(&mut said, alloc, *place)?;
    }
    Ok(said)
}

/// Of the statements of a module's body.
pub fn of_statements(alloc: Global, bytes: &[u8]) -> anyhow::Result<String> {
    let tree = module_of(alloc, bytes)?;
    let mut said = String::from_str(alloc, "\n ")?;
    for statement in tree.body.as_slice() {
        put(&mut said, alloc, place_of_statement(statement))?;
    }
    Ok(said)
}

/// Of a value, at the beginning of a line.
pub fn of_value(alloc: Global, value: &str) -> anyhow::Result<String> {
    let text = format!(in alloc; "MODULE M; BEGIN x :=\n{value} END M.")?;
    let tree = module_of(alloc, text.as_bytes())?;
    let mut said = String::from_str(alloc, " ->")?;
    match tree.body.as_slice() {
        [Stmt::Assign { value: found, .. }] => put(&mut said, alloc, place_of(found))?,
        _ => anyhow::bail!("no assignment"),
    }
    Ok(said)
}
