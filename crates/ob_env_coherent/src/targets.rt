//! What the types that an object names come to.

ghost use Rattle.std.specs.Prelude.{◌≡◌};
ghost use Rattle.std.specs.Option.{option_copied};
ghost use Rattle.ob_types.specs.Relations.{is_record, is_structure, is_open};
ghost use Rattle.ob_types.specs.Tests.{target_of, alias_of, target, shape_at};
ghost use Rattle.ob_env.specs.Mapped.{map_of};
ghost use Rattle.ob_env.specs.Fit.{is, record_of, base_of};

use ob_env::Env;
use ob_types::{Desc, RecordDesc, TypeRef, shape_of};

fn aliased(desc: &Desc) -> Option<&TypeRef>
    ensures { option_copied result ≡ target_of (Some desc.now) }
{
    match desc {
        Desc::Alias(_, of) => Some(of),
        _ => None,
    }
}

// What the type is equated to.
fn alias_target<'a>(env: &'a Env, t: &TypeRef) -> Option<&'a TypeRef>
    ensures { option_copied result ≡ alias_of (map_of env.now) t.now }
{
    aliased(shape_of(env, t)?)
}

// The type that t is equated to, at most so many equations on.
fn target_for<'a>(env: &'a Env, steps: usize, t: &'a TypeRef) -> &'a TypeRef
    ensures { result.now ≡ target (map_of env.now) steps t.now }
{
    let mut current = t;
    for _ in 0..steps {
        match alias_target(env, current) {
            None => return current,
            Some(of) => current = of,
        }
    }
    current
}

// What the type stands for.
fn shape_for<'a>(env: &'a Env, steps: usize, t: &'a TypeRef) -> Option<&'a Desc>
    ensures { option_copied result ≡ shape_at (map_of env.now) (target (map_of env.now) steps t.now) }
{
    shape_of(env, target_for(env, steps, t))
}

/// Whether the type stands for a record.
pub fn is_record_for(env: &Env, steps: usize, t: &TypeRef) -> bool
    ensures { result ≡ is (map_of env.now) steps is_record t.now }
{
    match shape_for(env, steps, t) {
        None => false,
        Some(desc) => matches!(desc, Desc::Record(_)),
    }
}

/// Whether the type stands for a record or an array.
pub fn is_structure_for(env: &Env, steps: usize, t: &TypeRef) -> bool
    ensures { result ≡ is (map_of env.now) steps is_structure t.now }
{
    match shape_for(env, steps, t) {
        None => false,
        Some(desc) => matches!(
            desc,
            Desc::Record(_) | Desc::Array(_, _, _) | Desc::OpenArray(_, _)
        ),
    }
}

/// Whether the type stands for an open array.
pub fn is_open_for(env: &Env, steps: usize, t: &TypeRef) -> bool
    ensures { result ≡ is (map_of env.now) steps is_open t.now }
{
    match shape_for(env, steps, t) {
        None => false,
        Some(desc) => matches!(desc, Desc::OpenArray(_, _)),
    }
}

fn record(desc: &Desc) -> Option<&RecordDesc>
    ensures { option_copied result ≡ record_of (Some desc.now) }
{
    match desc {
        Desc::Record(record) => Some(record),
        _ => None,
    }
}

/// The record that stands as the base of a record.
pub fn base_record<'a>(env: &'a Env, steps: usize, r: &'a RecordDesc) -> Option<&'a RecordDesc>
    ensures { option_copied result ≡ base_of (map_of env.now) steps r.now }
{
    match &r.base {
        None => None,
        Some(base) => match shape_for(env, steps, base) {
            None => None,
            Some(desc) => record(desc),
        },
    }
}
