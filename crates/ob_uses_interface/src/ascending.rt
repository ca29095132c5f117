//! Objects, ascending.

ghost use Rattle.std.specs.Prelude.{◌≡◌, IfOk, map as each};
ghost use Rattle.ob_layout.specs.Lists.{in_order};
ghost use Rattle.ob_uses_interface.specs.Entries.{by_entry};

use crate::entry::Entry;
use ob_layout::ordered_set;
use ob_tree::List;
use ob_types::Object;
use std::alloc::{AllocError, Global};
use std::collections::BTreeSet;

// The objects of the set, ascending.
fn taken(alloc: Global, set: BTreeSet<Entry, Global>) -> Result<List<Object>, AllocError>
    ensures { IfOk result (λ l. l ≡ each (λ e. e.object) set.keys) }
{
    let mut left = set;
    let mut objects = List::new(alloc);
    'entries: while let Some(entry) = left.pop_first() {
        let Entry { object } = entry;
        objects.push(object.into_inner())?;
    }
    Ok(objects)
}

/// The objects ascending by name; of those that have one name, the last.
pub fn ascending(alloc: Global, found: Vec<Entry>) -> Result<List<Object>, AllocError>
    ensures { IfOk result (λ l. l ≡ each (λ e. e.object) (in_order by_entry found.items)) }
{
    let set = ordered_set(alloc, found)?;
    let objects = taken(alloc, set)?;
    Ok(objects)
}
