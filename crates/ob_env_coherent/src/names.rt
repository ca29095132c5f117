//! Whether the members of a record, with those of its bases, differ in name.

ghost use Rattle.std.specs.Prelude.{◌≡◌, ◌++◌, map as each, OnOk, IfOk};
ghost use Rattle.ob_env.specs.Mapped.{map_of};
ghost use Rattle.ob_env.specs.Fit.{own_names, visible_names, are_distinct, has_distinct_names};

use crate::targets::base_record;
use ob_env::Env;
use ob_layout::NameIndex;
use ob_tree::Name;
use ob_types::{Field, Method, RecordDesc};
use std::alloc::{AllocError, Global};

/// The most records in a chain of bases.
const CHAIN: usize = 201;

fn push_fields(names: &mut Vec<Name>, fields: &[Field]) -> Result<(), AllocError>
    ensures { OnOk result (names.new.items ≡ names.old.items ++ each (λ f. f.name) fields.now) }
{
    let mut rest = fields;
    while let [first, more @ ..] = rest {
        names.push(first.name)?;
        rest = more;
    }
    Ok(())
}

fn push_methods(names: &mut Vec<Name>, methods: &[Method]) -> Result<(), AllocError>
    ensures { OnOk result (names.new.items ≡ names.old.items ++ each (λ p. p.name) methods.now) }
{
    let mut rest = methods;
    while let [first, more @ ..] = rest {
        names.push(first.name)?;
        rest = more;
    }
    Ok(())
}

// The names that a record shows of itself.
fn push_own(names: &mut Vec<Name>, r: &RecordDesc) -> Result<(), AllocError>
    ensures { OnOk result (names.new.items ≡ names.old.items ++ own_names r.now) }
{
    push_fields(names, r.fields.as_slice())?;
    push_methods(names, r.methods.as_slice())?;
    Ok(())
}

// The names that a record and its bases show.
fn visible(alloc: Global, env: &Env, steps: usize, r: &RecordDesc) -> Result<Vec<Name>, AllocError>
    ensures { IfOk result (λ v. v.items ≡ visible_names (map_of env.now) steps CHAIN r.now) }
{
    let mut names = Vec::new(alloc);
    let mut current = r;
    for _ in 0..CHAIN {
        push_own(&mut names, current)?;
        match base_record(env, steps, current) {
            None => return Ok(names),
            Some(base) => current = base,
        }
    }
    Ok(names)
}

// Whether no name is there twice.
fn all_differ(alloc: Global, names: &[Name]) -> Result<bool, AllocError>
    ensures { IfOk result (λ b. b ≡ are_distinct names.now) }
{
    let mut later = NameIndex::new(alloc);
    let mut at = names.len();
    while at > 0 {
        at -= 1;
        let name = names[at];
        if later.get(name.as_bytes()).is_some() {
            return Ok(false);
        }
        later.note(alloc, name.as_bytes(), at)?;
    }
    Ok(true)
}

/// Whether the names differ that a record and its bases show.
pub fn names_differ(
    alloc: Global,
    env: &Env,
    steps: usize,
    r: &RecordDesc,
) -> Result<bool, AllocError>
    ensures { IfOk result (λ b. b ≡ has_distinct_names (map_of env.now) steps r.now) }
{
    let names = visible(alloc, env, steps, r)?;
    all_differ(alloc, &names)
}
