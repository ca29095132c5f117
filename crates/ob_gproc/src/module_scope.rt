//! What the code of a module looks up.

ghost use Rattle.std.specs.Prelude.{◌≡◌};
ghost use Rattle.ob_gproc.specs.Placed.{ArePlaces};
ghost use Rattle.ob_gproc.specs.Scoped.{variables_before, variables_words, procedures_before, types_before, types_count};

use crate::places::Places;
use ob_types::{TypedModule, Types};

/// A module, the descriptions of its types and of those around it, and where its things stand.
#[derive(Drop)]
pub struct ModuleScope<'a, T: Types> {
    pub types: &'a T,
    pub unit: &'a TypedModule,
    pub variables: &'a Places,
    pub procedures: &'a Places,
    pub records: &'a Places,
    ghost variables_placed: { ArePlaces variables.now.index.positions variables.now.total (variables_before (T.types types.now) unit.now.variables) },
    ghost variables_counted: { variables.now.total ≡ variables_words (T.types types.now) unit.now.variables },
    ghost procedures_placed: { ArePlaces procedures.now.index.positions procedures.now.total (procedures_before unit.now.procedures) },
    ghost records_placed: { ArePlaces records.now.index.positions records.now.total (types_before unit.now.types) },
    ghost records_counted: { records.now.total ≡ types_count unit.now.types },
}
