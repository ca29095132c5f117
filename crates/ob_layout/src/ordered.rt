//! Items put in order.

ghost use Rattle.std.specs.Prelude.{◌≡◌, IfOk};
ghost use Rattle.ob_layout.specs.Lists.{in_order};

use std::alloc::{AllocError, Global};
use std::collections::BTreeSet;

/// The items that stand in a list, in their order; of those that are equal in it, the last. An `Err`
/// is a want of memory.
pub fn ordered_set<T: Ord + Drop>(
    alloc: Global,
    found: Vec<T>,
) -> Result<BTreeSet<T, Global>, AllocError>
    ensures { IfOk result (λ s. s.keys ≡ in_order T.cmp found.items) }
{
    let mut left = found;
    let mut set = BTreeSet::new(alloc);
    'entries: while let Some(entry) = left.pop() {
        set.insert(entry)?;
    }
    Ok(set)
}
