//! The types that are known at a place.

ghost use Rattle.std.specs.Prelude.{◌≡◌};
ghost use Rattle.ob_rules.specs.Names.{map_of};

use ob_rules::Surroundings;

/// The map of all types, as what stands around has it.
pub fn types<S: Surroundings>(here: &S) -> &S
    ensures same { result.now ≡ here.now }
    ensures map { S.types result.now ≡ map_of (S.around here.now) }
{
    here
}
