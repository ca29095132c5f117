//! Rows of actual parameters.

ghost use Rattle.std.specs.Prelude.{◌≡◌, IfOk};
ghost use Rattle.ob_cexpr_call.specs.Rows as rows;

use crate::actuals::Passed;
use ob_rules::Valued;
use ob_types_trees::ActualTrees;
use std::alloc::AllocError;

/// The row with one more actual parameter at its end. None where one of them is none.
pub fn row_with(
    row: Option<ActualTrees>,
    one: Option<Passed>,
) -> Result<Option<ActualTrees>, AllocError>
    ensures { IfOk result (λ r. rows.row_seen r ≡ rows.row_with (rows.row_seen row) (rows.one_seen one)) }
{
    match row {
        None => Ok(None),
        Some(mut all) => match one {
            None => Ok(None),
            Some(one) => {
                let Passed {
                    passing,
                    formal,
                    value,
                } = one;
                all.push(passing, formal, value)?;
                Ok(Some(all))
            }
        },
    }
}

/// The row behind which a value stands that no formal parameter takes. None where the row or the
/// value is none. Takes no memory.
pub fn row_before(row: Option<ActualTrees>, x: Option<Valued>) -> Option<ActualTrees>
    ensures { rows.row_seen result ≡ rows.row_before (rows.row_seen row) x }
{
    match row {
        None => None,
        Some(all) => match x {
            None => None,
            Some(_) => Some(all),
        },
    }
}
