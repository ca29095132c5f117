//! Whether each type stands above the types that it names.

ghost use Rattle.std.specs.Prelude.{◌≡◌, slice_get};
ghost use Rattle.ob_types.specs.declared.types.TypeRef.TheVariants as ref;
ghost use Rattle.ob_env_ranks.specs.Marks.{height_at, is_below, keeps_height, row_keeps, rows_keep, are_ranked};

use crate::tested::{Test, all_stood_on};
use ob_env::Env;
use ob_env_files::SymbolFile;
use ob_layout::item_at;
use ob_tree::{List, QName};
use ob_types::{Object, TypeRef};

/// The most types in a chain; each height is less.
pub const CHAIN: u32 = 201;

fn height_in(heights: &[u32], at: usize) -> Option<u32>
    ensures { result ≡ slice_get heights.now at }
{
    item_at(heights, at).copied()
}

/// The height at a place.
pub fn height_placed(heights: &[List<u32>], face: usize, object: usize) -> Option<u32>
    ensures { result ≡ height_at heights.now (face, object) }
{
    match item_at(heights, face) {
        None => None,
        Some(row) => height_in(row.as_slice(), object),
    }
}

// Whether the type of that name has a lower height.
fn is_name_below(env: &Env, heights: &[List<u32>], most: u32, name: &QName) -> bool
    ensures { result ≡ is_below env.now heights.now most (ref.Named name.now) }
{
    match env.place(name) {
        None => false,
        Some((face, object)) => match height_placed(heights, face, object) {
            None => false,
            Some(height) => height < most,
        },
    }
}

// Whether a type is below a height.
#[derive(Drop)]
struct RankTest<'a> {
    env: &'a Env,
    heights: &'a List<List<u32>>,
    most: u32,
}

impl Test for RankTest<'_> {
    ghost passes = { λ p t. is_below p.env.now p.heights.now p.most t };

    fn test(&self, t: &TypeRef) -> bool {
        match t {
            TypeRef::Basic(_) => true,
            TypeRef::Named(name) => {
                is_name_below(self.env, self.heights.as_slice(), self.most, name)
            }
        }
    }
}

// Whether all that an object stands on is below its height.
fn object_keeps(env: &Env, heights: &List<List<u32>>, object: &Object, height: u32) -> bool
    ensures { result ≡ keeps_height (is_below env.now heights.now) object.now height }
{
    if height >= CHAIN {
        return false;
    }
    let test = RankTest {
        env,
        heights,
        most: height,
    };
    all_stood_on(&test, &object.desc)
}

fn objects_keep(env: &Env, heights: &List<List<u32>>, objects: &[Object], row: &[u32]) -> bool
    ensures { result ≡ row_keeps (is_below env.now heights.now) objects.now row.now }
{
    let mut rest = objects;
    let mut left = row;
    while let [first, more @ ..] = rest {
        let [height, others @ ..] = left else {
            return false;
        };
        if !object_keeps(env, heights, first, *height) {
            return false;
        }
        rest = more;
        left = others;
    }
    true
}

/// Whether each object of some interfaces has a height in these rows, at most 200, that is above
/// the heights of all on which it stands.
pub fn faces_keep(
    env: &Env,
    heights: &List<List<u32>>,
    faces: &[SymbolFile],
    rows: &[List<u32>],
) -> bool
    ensures { result ≡ rows_keep (is_below env.now heights.now) faces.now rows.now }
{
    let mut rest = faces;
    let mut left = rows;
    while let [first, more @ ..] = rest {
        let [row, others @ ..] = left else {
            return false;
        };
        if !objects_keep(env, heights, first.objects(), row.as_slice()) {
            return false;
        }
        rest = more;
        left = others;
    }
    true
}

/// Whether each object has a height, at most 200, that is above the heights of all on which it
/// stands.
pub fn are_ranked(env: &Env, heights: &List<List<u32>>) -> bool
    ensures { result ≡ are_ranked env.now heights.now }
{
    faces_keep(env, heights, env.faces(), heights.as_slice())
}
