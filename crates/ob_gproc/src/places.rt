//! Places of variables, found by name.

ghost use Rattle.std.specs.Prelude.{◌≡◌, ◌+◌, ◌<◌, ◌^◌, ℕ, List, None, IfOk};
ghost use Rattle.ob_layout.specs.Index.{at_name, Notes};
ghost use Rattle.ob_gproc.specs.Placed.{place_of};

use ob_gexpr_code::CodeFault;
use ob_layout::NameIndex;
use std::alloc::Global;

/// As many words as no table reaches that keeps the limits.
const MOST: usize = 1 << 30;

/// Where the things of a list stand, each found by its name.
#[derive(Drop)]
pub struct Places {
    pub index: NameIndex,
    pub total: usize,
    ghost bounded: { (x : List ℕ) → place_of index.positions total x < 2 ^ 30 },
    ghost within: { total < 2 ^ 30 },
}

impl Places {
    /// Of no things. Takes no memory.
    pub fn new(alloc: Global) -> Places
        ensures empty { (x : _) → at_name result.index.positions x ≡ None }
        ensures total { result.total ≡ 0 }
    {
        Places {
            index: NameIndex::new(alloc),
            total: 0,
        }
    }

    /// With one thing more, behind the others; a name that is there already keeps its place.
    pub fn with(self, alloc: Global, name: &[u8], size: usize) -> Result<Places, CodeFault>
        ensures noted { IfOk result (λ p. Notes self.index.positions p.index.positions name.now self.total) }
        ensures total { IfOk result (λ p. p.total ≡ self.total + size) }
    {
        let Places { mut index, total } = self;
        if size >= MOST || total + size >= MOST {
            return Err(CodeFault::Beyond);
        }
        index.note(alloc, name, total)?;
        Ok(Places {
            index,
            total: total + size,
        })
    }

    /// What stands before the first of a name; of one that is not there, all that stands.
    pub fn get(&self, name: &[u8]) -> usize
        ensures is { result ≡ place_of self.now.index.positions self.now.total name.now }
        ensures within { result < 2 ^ 30 }
    {
        self.index.get(name).unwrap_or(self.total)
    }
}
