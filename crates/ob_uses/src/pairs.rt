//! Which objects a module relies on, and for which aspects.

ghost use Rattle.std.specs.Prelude.{◌≡◌, ◌++◌, ◌∷◌, [], ◌&&◌, cond, not, List, length, OnOk, IfOk, codes, bytes_eq};
ghost use Rattle.std.specs.List.{filter};
ghost use Rattle.ob_tree.specs.declared.names.QName.{QName as Named};
ghost use Rattle.ob_types.specs.Relations.{is_record};
ghost use Rattle.ob_types.specs.AssigningTests.{described as is_described};
ghost use Rattle.ob_types.specs.TypedView.{module_view};
ghost use Rattle.ob_uses.specs.Uses.{pairs_of as pairs_in};
ghost use Rattle.ob_uses.specs.Ways.{is_of, is_foreign, AreAllNames};

use crate::leads::is_own;
use crate::pair::Pair;
use crate::reach::search;
use crate::sorted::sorted_pairs;
use crate::way::Way;
use ob_tree::{Name, QName};
use ob_types::{Aspect, Desc, TypedModule, Types};
use ob_uses_roots::count_module;
use std::alloc::{AllocError, Global};
use std::collections::BTreeSet;

// Whether the name is one of another module, but of Out.
fn is_foreign(name: &QName, own: &Name) -> bool
    ensures { result ≡ is_foreign own.now name.now }
{
    !is_own(name, own) && name.module.as_bytes() != b"Out".as_slice()
}

// Whether the map has a record of that name.
fn names_record<T: Types>(types: &T, name: &QName) -> bool
    ensures { result ≡ is_described is_record (T.types types.now name.now) }
{
    match types.desc_of(name) {
        None => false,
        Some(desc) => match desc {
            Desc::Record(_) => true,
            Desc::Const(_) => false,
            Desc::Var(_, _) => false,
            Desc::Proc(_) => false,
            Desc::Alias(_, _) => false,
            Desc::Array(_, _, _) => false,
            Desc::OpenArray(_, _) => false,
            Desc::Pointer(_, _) => false,
            Desc::ProcType(_, _) => false,
        },
    }
}

// Whether the name is that of a record of another module.
fn is_foreign_record<T: Types>(types: &T, name: &QName, own: &Name) -> bool
    ensures { result ≡ (is_foreign own.now name.now && is_described is_record (T.types types.now name.now)) }
{
    is_foreign(name, own) && names_record(types, name)
}

fn keep(found: &mut Vec<Pair>, pair: Pair, kept: bool) -> Result<(), AllocError>
    ensures { OnOk result (found.new.items ≡ found.old.items ++ cond kept (pair ∷ []) []) }
{
    if kept {
        found.push(pair)?;
    }
    Ok(())
}

// Adds those of the pairs that are of other modules.
fn keep_shapes(
    found: &mut Vec<Pair>,
    own: &Name,
    reached: BTreeSet<Pair, Global>,
) -> Result<(), AllocError>
    ensures { OnOk result (found.new.items ≡ found.old.items ++ filter (λ p. is_foreign own.now p.object) reached.keys) }
{
    let mut left = reached;
    'pairs: while let Some(pair) = left.pop_first() {
        let kept = is_foreign(&pair.object, own);
        keep(found, pair, kept)?;
    }
    Ok(())
}

// Adds those of the pairs that are records of other modules.
fn keep_layouts<T: Types>(
    found: &mut Vec<Pair>,
    types: &T,
    own: &Name,
    reached: BTreeSet<Pair, Global>,
) -> Result<(), AllocError>
    ensures { OnOk result (found.new.items ≡ found.old.items ++ filter (λ p. is_foreign own.now p.object && is_described is_record (T.types types.now p.object)) reached.keys) }
{
    let mut left = reached;
    'pairs: while let Some(pair) = left.pop_first() {
        let kept = is_foreign_record(types, &pair.object, own);
        keep(found, pair, kept)?;
    }
    Ok(())
}

/// The pairs of object and aspect that a module uses, ascending, each once.
pub fn pairs_of<T: Types>(
    alloc: Global,
    types: &T,
    module: &TypedModule,
) -> Result<Vec<Pair>, AllocError>
    ensures value { IfOk result (λ v. v.items ≡ pairs_in (T.types types.now) (length (T.finite types.now).0) (module_view «module».now)) }
    ensures steps { (names : List Named) → AreAllNames (T.types types.now) names
        → IfOk result (λ v. v.items ≡ pairs_in (T.types types.now) (length names) (module_view «module».now)) }
{
    let noted = count_module(alloc, types, module)?;
    let shapes = noted.shapes.as_slice();
    let layouts = noted.layouts.as_slice();
    let near = search(alloc, types, Way::Near, Aspect::Shape, &module.name, shapes)?;
    let flat = search(
        alloc,
        types,
        Way::Flat,
        Aspect::Layout,
        &module.name,
        layouts,
    )?;
    let mut found = Vec::new(alloc);
    keep_shapes(&mut found, &module.name, near)?;
    keep_layouts(&mut found, types, &module.name, flat)?;
    let pairs = sorted_pairs(found)?;
    Ok(pairs)
}
