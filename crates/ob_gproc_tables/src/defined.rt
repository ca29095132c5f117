//! Procedures in the order of their numbers.

ghost use Rattle.std.specs.Prelude.{◌≡◌, Some, refl};
ghost use Rattle.std.specs.Ordering.{eq_by_cmp};
ghost use Rattle.std.specs.Cmp.{eq_by_cmp_equiv, partial_order_from_agreeing_total};
ghost use Rattle.std.specs.Cmp;
ghost use Rattle.ob_gproc_tables.specs.Ordered.{by_defined, defined_total};

use std::cmp::Ordering;

/// The procedure of a number, ordered by the number alone.
#[derive(Drop)]
pub struct Defined {
    pub number: u32,
    pub procedure: u32,
}

impl PartialEq for Defined {
    ghost eq = { eq_by_cmp by_defined };

    ghost laws = { Cmp.partial_equiv_from_equiv (eq_by_cmp_equiv defined_total) };

    fn eq(&self, other: &Defined) -> bool {
        self.cmp(other).is_eq()
    }
}

impl Eq for Defined {
    ghost laws = { eq_by_cmp_equiv defined_total };
}

impl PartialOrd for Defined {
    ghost partial_cmp = { λ x y. Some (by_defined x y) };

    ghost laws = { partial_order_from_agreeing_total by_defined defined_total (λ x y. refl) (λ x y. refl) };

    fn partial_cmp(&self, other: &Defined) -> Option<Ordering> {
        Some(self.cmp(other))
    }
}

impl Ord for Defined {
    ghost cmp = { by_defined };

    ghost total = { defined_total };

    ghost matches_partial_cmp = { λ x y. refl };

    ghost matches_eq = { λ x y. refl };

    fn cmp(&self, other: &Defined) -> Ordering {
        self.number.cmp(&other.number)
    }
}
