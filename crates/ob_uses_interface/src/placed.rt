//! Fields in the order of their places.

ghost use Rattle.std.specs.Prelude.{◌≡◌, Some, refl};
ghost use Rattle.std.specs.Ordering.{eq_by_cmp};
ghost use Rattle.std.specs.Cmp.{eq_by_cmp_equiv, partial_order_from_agreeing_total};
ghost use Rattle.std.specs.Cmp;
ghost use Rattle.ob_uses_interface.specs.Placed.{by_placed, placed_total};

use ob_types::Field;
use std::cmp::Ordering;

/// A field, ordered by its place, and at one place by its name.
#[derive(Drop)]
pub struct Placed {
    pub field: Field,
}

impl PartialEq for Placed {
    ghost eq = { eq_by_cmp by_placed };

    ghost laws = { Cmp.partial_equiv_from_equiv (eq_by_cmp_equiv placed_total) };

    fn eq(&self, other: &Placed) -> bool {
        self.cmp(other).is_eq()
    }
}

impl Eq for Placed {
    ghost laws = { eq_by_cmp_equiv placed_total };
}

impl PartialOrd for Placed {
    ghost partial_cmp = { λ x y. Some (by_placed x y) };

    ghost laws = { partial_order_from_agreeing_total by_placed placed_total (λ x y. refl) (λ x y. refl) };

    fn partial_cmp(&self, other: &Placed) -> Option<Ordering> {
        Some(self.cmp(other))
    }
}

impl Ord for Placed {
    ghost cmp = { by_placed };

    ghost total = { placed_total };

    ghost matches_partial_cmp = { λ x y. refl };

    ghost matches_eq = { λ x y. refl };

    fn cmp(&self, other: &Placed) -> Ordering {
        let order = self.field.place.cmp(&other.field.place);
        if order != Ordering::Equal {
            return order;
        }
        self.field.name.as_bytes().cmp(other.field.name.as_bytes())
    }
}
