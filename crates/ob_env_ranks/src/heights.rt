//! A height for each type, above those of the types that it names.

use crate::ranked::{CHAIN, height_placed};
use ob_env::Env;
use ob_env_files::SymbolFile;
use ob_layout::item_at;
use ob_tree::{List, QName};
use ob_types::{Desc, Field, Mode, Object, RecordDesc, Signature, TypeRef};
use std::alloc::{AllocError, Global};

// The heights known so far: those of the interfaces that come first, those of the ones behind
// them, those that the objects of this one had before, and those that they have anew.
#[derive(Drop)]
struct Known<'a> {
    env: &'a Env,
    first: &'a List<List<u32>>,
    rows: &'a List<List<u32>>,
    before: &'a List<u32>,
    anew: &'a List<u32>,
}

// The greatest rank so far, and whether none of them can still change: each was of a basic type, or
// of an object that comes before.
#[derive(Clone, Copy)]
struct Greatest {
    rank: u32,
    is_last: bool,
}

// The heights of the objects of an interface, and whether none of them can still change.
#[derive(Drop)]
struct Row {
    heights: List<u32>,
    is_last: bool,
}

// The rank of a name with that height.
fn above(height: u32) -> u32 {
    if height < CHAIN {
        return height + 1;
    }
    CHAIN
}

fn with_height(so_far: Greatest, height: Option<u32>, is_last: bool) -> Greatest {
    let rank = match height {
        None => so_far.rank,
        Some(h) => so_far.rank.max(above(h)),
    };
    Greatest {
        rank,
        is_last: so_far.is_last && is_last,
    }
}

fn with_name(known: &Known<'_>, so_far: Greatest, name: &QName) -> Greatest {
    let Some((face, object)) = known.env.place(name) else {
        return so_far;
    };
    if face < known.first.len() {
        let height = height_placed(known.first.as_slice(), face, object);
        return with_height(so_far, height, true);
    }
    let behind = face - known.first.len();
    if behind < known.rows.len() {
        let height = height_placed(known.rows.as_slice(), behind, object);
        return with_height(so_far, height, true);
    }
    match item_at(known.anew.as_slice(), object) {
        Some(height) => with_height(so_far, Some(*height), true),
        None => with_height(
            so_far,
            item_at(known.before.as_slice(), object).copied(),
            false,
        ),
    }
}

fn with_type(known: &Known<'_>, so_far: Greatest, t: &TypeRef) -> Greatest {
    match t {
        TypeRef::Basic(_) => so_far,
        TypeRef::Named(name) => with_name(known, so_far, name),
    }
}

fn with_listed(known: &Known<'_>, so_far: Greatest, t: &Option<TypeRef>) -> Greatest {
    match t {
        None => so_far,
        Some(of) => with_type(known, so_far, of),
    }
}

fn with_params(known: &Known<'_>, so_far: Greatest, params: &[(Mode, TypeRef)]) -> Greatest {
    let mut greatest = so_far;
    for param in params {
        greatest = with_type(known, greatest, &param.1);
    }
    greatest
}

fn with_fields(known: &Known<'_>, so_far: Greatest, fields: &[Field]) -> Greatest {
    let mut greatest = so_far;
    for field in fields {
        greatest = with_type(known, greatest, &field.of);
    }
    greatest
}

fn with_signature(known: &Known<'_>, so_far: Greatest, signature: &Signature) -> Greatest {
    let greatest = with_params(known, so_far, signature.params.as_slice());
    with_listed(known, greatest, &signature.result)
}

fn with_record(known: &Known<'_>, so_far: Greatest, record: &RecordDesc) -> Greatest {
    let greatest = with_listed(known, so_far, &record.base);
    with_fields(known, greatest, record.fields.as_slice())
}

// The greatest rank of what an object stands on.
fn greatest_of(known: &Known<'_>, desc: &Desc) -> Greatest {
    let none = Greatest {
        rank: 0,
        is_last: true,
    };
    match desc {
        Desc::Alias(_, of) => with_type(known, none, of),
        Desc::Array(_, _, of) => with_type(known, none, of),
        Desc::OpenArray(_, of) => with_type(known, none, of),
        Desc::ProcType(_, signature) => with_signature(known, none, signature),
        Desc::Record(record) => with_record(known, none, record),
        Desc::Const(_) => none,
        Desc::Var(_, _) => none,
        Desc::Proc(_) => none,
        Desc::Pointer(_, _) => none,
    }
}

fn next_row(
    alloc: Global,
    env: &Env,
    first: &List<List<u32>>,
    rows: &List<List<u32>>,
    before: &List<u32>,
    objects: &[Object],
) -> Result<Row, AllocError> {
    let mut heights = List::new(alloc);
    let mut is_last = true;
    for object in objects {
        let known = Known {
            env,
            first,
            rows,
            before,
            anew: &heights,
        };
        let greatest = greatest_of(&known, &object.desc);
        is_last = is_last && greatest.is_last;
        heights.push(greatest.rank)?;
    }
    Ok(Row { heights, is_last })
}

// The heights of the objects of the next interface. Some of them may stand on later ones, so the
// row is made anew until it stays the same.
fn next_heights(
    alloc: Global,
    env: &Env,
    first: &List<List<u32>>,
    rows: &List<List<u32>>,
    objects: &[Object],
) -> Result<List<u32>, AllocError> {
    let mut before = List::new(alloc);
    for pass in 0..CHAIN {
        let _ = pass;
        let Row { heights, is_last } = next_row(alloc, env, first, rows, &before, objects)?;
        if is_last || heights == before {
            return Ok(heights);
        }
        before = heights;
    }
    Ok(before)
}

/// A height for each object of the interfaces that stand behind those with these heights: more
/// than the heights of all on which it stands, wherever no chain of types is too long. Nothing is
/// proved of it, since the heights are tested.
pub fn heights_behind(
    alloc: Global,
    env: &Env,
    first: &List<List<u32>>,
    faces: &[SymbolFile],
) -> Result<List<List<u32>>, AllocError> {
    let mut rows = List::new(alloc);
    for face in faces {
        let row = next_heights(alloc, env, first, &rows, face.objects())?;
        rows.push(row)?;
    }
    Ok(rows)
}

/// Such a height for each object of each interface.
pub fn heights_of(alloc: Global, env: &Env) -> Result<List<List<u32>>, AllocError> {
    let none = List::new(alloc);
    heights_behind(alloc, env, &none, env.faces())
}
