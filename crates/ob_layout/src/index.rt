//! Positions found by names.

ghost use Rattle.std.specs.Prelude.{◌≡◌, None, OnOk, IfOk, IsSome, slice_get};
ghost use Rattle.std.specs.Option.{option_copied};
ghost use Rattle.ob_layout.specs.Index.{at_name, Puts, Notes};

use std::alloc::{AllocError, Global};
use std::collections::HashMap;

/// Positions in a list, each found by a name.
#[derive(Drop)]
pub struct NameIndex {
    positions: HashMap<Vec<u8>, usize>,
}

// Puts a position at a name. What stood there is returned.
fn put(
    alloc: Global,
    positions: &mut HashMap<Vec<u8>, usize>,
    name: &[u8],
    position: usize,
) -> Result<Option<usize>, AllocError>
    ensures puts { OnOk result (Puts positions.old positions.new name.now position) }
    ensures earlier { IfOk result (λ o. o ≡ at_name positions.old name.now) }
{
    let key = Vec::from_slice(alloc, name)?;
    let earlier = positions.insert(key, position)?;
    Ok(earlier)
}

// Puts a position at a name that has one. Takes no memory.
fn put_back(positions: &mut HashMap<Vec<u8>, usize>, name: &[u8], position: usize)
    requires { IsSome (at_name positions.old name.now) }
    ensures { Puts positions.old positions.new name.now position }
{
    match positions.get_mut(name) {
        Some(place) => *place = position,
        None => unreachable!(),
    }
}

impl NameIndex {
    /// No names. Takes no memory.
    pub fn new(alloc: Global) -> NameIndex
        ensures { (x : _) → at_name result.positions x ≡ None }
    {
        NameIndex {
            positions: HashMap::new(alloc),
        }
    }

    /// The position of a name.
    pub fn get(&self, name: &[u8]) -> Option<usize>
        ensures { result ≡ at_name self.now.positions name.now }
    {
        self.positions.get(name).copied()
    }

    /// Notes a position under a name; a name that has one keeps it.
    pub fn note(&mut self, alloc: Global, name: &[u8], position: usize) -> Result<(), AllocError>
        ensures { OnOk result (Notes self.old.positions self.new.positions name.now position) }
    {
        if let Some(earlier) = put(alloc, &mut self.positions, name, position)? {
            put_back(&mut self.positions, name, earlier);
        }
        Ok(())
    }
}

/// The item at a position; none exactly behind the last one. Takes no memory.
pub fn item_at<T>(items: &[T], position: usize) -> Option<&T>
    ensures { option_copied result ≡ slice_get items.now position }
{
    items.get(position)
}
