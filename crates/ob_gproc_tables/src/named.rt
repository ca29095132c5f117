//! Numbers in the order of their names.

ghost use Rattle.std.specs.Prelude.{◌≡◌, Some, refl};
ghost use Rattle.std.specs.Ordering.{eq_by_cmp};
ghost use Rattle.std.specs.Cmp.{eq_by_cmp_equiv, partial_order_from_agreeing_total};
ghost use Rattle.std.specs.Cmp;
ghost use Rattle.ob_gproc_tables.specs.Ordered.{by_named, named_total};

use ob_tree::Name;
use std::cmp::Ordering;

/// A number with a name, ordered by the name alone.
#[derive(Drop)]
pub struct Named {
    pub name: Name,
    pub number: u32,
}

impl PartialEq for Named {
    ghost eq = { eq_by_cmp by_named };

    ghost laws = { Cmp.partial_equiv_from_equiv (eq_by_cmp_equiv named_total) };

    fn eq(&self, other: &Named) -> bool {
        self.cmp(other).is_eq()
    }
}

impl Eq for Named {
    ghost laws = { eq_by_cmp_equiv named_total };
}

impl PartialOrd for Named {
    ghost partial_cmp = { λ x y. Some (by_named x y) };

    ghost laws = { partial_order_from_agreeing_total by_named named_total (λ x y. refl) (λ x y. refl) };

    fn partial_cmp(&self, other: &Named) -> Option<Ordering> {
        Some(self.cmp(other))
    }
}

impl Ord for Named {
    ghost cmp = { by_named };

    ghost total = { named_total };

    ghost matches_partial_cmp = { λ x y. refl };

    ghost matches_eq = { λ x y. refl };

    fn cmp(&self, other: &Named) -> Ordering {
        self.name.as_bytes().cmp(other.name.as_bytes())
    }
}
