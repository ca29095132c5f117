//! Objects in the order of their names.

ghost use Rattle.std.specs.Prelude.{◌≡◌, Some, refl};
ghost use Rattle.std.specs.Ordering.{eq_by_cmp};
ghost use Rattle.std.specs.Cmp.{eq_by_cmp_equiv, partial_order_from_agreeing_total};
ghost use Rattle.std.specs.Cmp;
ghost use Rattle.ob_uses_interface.specs.Entries.{by_entry, entries_total};

use ob_tree::Boxed;
use ob_types::Object;
use std::cmp::Ordering;

/// An object, ordered by its name alone. It is boxed, since a set moves its entries about.
#[derive(Drop)]
pub struct Entry {
    pub object: Boxed<Object>,
}

impl PartialEq for Entry {
    ghost eq = { eq_by_cmp by_entry };

    ghost laws = { Cmp.partial_equiv_from_equiv (eq_by_cmp_equiv entries_total) };

    fn eq(&self, other: &Entry) -> bool {
        self.cmp(other).is_eq()
    }
}

impl Eq for Entry {
    ghost laws = { eq_by_cmp_equiv entries_total };
}

impl PartialOrd for Entry {
    ghost partial_cmp = { λ x y. Some (by_entry x y) };

    ghost laws = { partial_order_from_agreeing_total by_entry entries_total (λ x y. refl) (λ x y. refl) };

    fn partial_cmp(&self, other: &Entry) -> Option<Ordering> {
        Some(self.cmp(other))
    }
}

impl Ord for Entry {
    ghost cmp = { by_entry };

    ghost total = { entries_total };

    ghost matches_partial_cmp = { λ x y. refl };

    ghost matches_eq = { λ x y. refl };

    fn cmp(&self, other: &Entry) -> Ordering {
        self.object.get().name.compare(&other.object.get().name)
    }
}
