//! The search for all that is reached.

ghost use Rattle.std.specs.Prelude.{◌≡◌, ◌++◌, OnOk, IfOk};
ghost use Rattle.ob_uses.specs.Ways.{AreReached, leads_by};

use crate::leads::add_leads;
use crate::pair::Pair;
use crate::way::Way;
use ob_tree::{Name, QName};
use ob_types::{Aspect, Types};
use std::alloc::{AllocError, Global};
use std::collections::BTreeSet;

// Adds the names to which a name leads.
fn add_found<T: Types>(
    left: &mut Vec<QName>,
    types: &T,
    way: Way,
    own: &Name,
    name: &QName,
) -> Result<(), AllocError>
    ensures { OnOk result (left.new.items ≡ left.old.items ++ leads_by way (T.types types.now) own.now name.now) }
{
    match types.desc_of(name) {
        None => Ok(()),
        Some(desc) => add_leads(left, way, own, name, desc),
    }
}

// A copy of the names.
fn copies(alloc: Global, names: &[QName]) -> Result<Vec<QName>, AllocError>
    ensures { IfOk result (λ v. v.items ≡ names.now) }
{
    let mut all = Vec::new(alloc);
    'names: for name in names {
        let copy = name.clone()?;
        all.push(copy)?;
    }
    Ok(all)
}

/// All names that are reached from these, each as a pair with the aspect.
pub fn search<T: Types>(
    alloc: Global,
    types: &T,
    way: Way,
    aspect: Aspect,
    own: &Name,
    starts: &[QName],
) -> Result<BTreeSet<Pair, Global>, AllocError>
    ensures { IfOk result (λ s. AreReached (leads_by way (T.types types.now) own.now) starts.now aspect s.keys) }
{
    let mut seen = BTreeSet::new(alloc);
    let mut left = copies(alloc, starts)?;
    'reach: while let Some(object) = left.pop() {
        let pair = Pair { object, aspect };
        if !seen.contains(&pair) {
            add_found(&mut left, types, way, own, &pair.object)?;
            seen.insert(pair)?;
        }
    }
    Ok(seen)
}
