//! Whether a module's code is short enough.

ghost use Rattle.std.specs.Prelude.{◌≡◌, ◌+◌, map};
ghost use Rattle.ob_types.specs.TypedView.{stmts_view, procedure_view, module_view};
ghost use Rattle.ob_scheme.specs.Needs.{has_short_code};
ghost use Rattle.ob_gproc_length.specs.Lengths.{capped, stmts_lines};
ghost use Rattle.ob_gproc_length.specs.Whole.{procedures_lines};

use crate::pieces::{MOST_CODE, more};
use crate::stmts::lines_of_stmts;
use ob_types::{TypedModule, TypedProcedure, TypedStmt, Types};

// Statements, and the line that ends a procedure.
#[tactic(auto, using(crate::proofs::Shapes::one))]
fn lines_of_body<T: Types>(types: &T, body: &[TypedStmt]) -> usize
    ensures { result ≡ capped (stmts_lines (T.types types.now) (stmts_view body.now) + 1) }
{
    let lines = lines_of_stmts(types, body);
    more(lines, 1)
}

fn lines_of_procedures<T: Types>(types: &T, procedures: &[TypedProcedure]) -> usize
    ensures { result ≡ capped (procedures_lines (T.types types.now) (map procedure_view procedures.now)) }
{
    let mut lines = 0;
    'procedures: for procedure in procedures {
        lines = more(lines, lines_of_body(types, procedure.body.as_slice()));
    }
    lines
}

/// Whether a module keeps the limit `code`. Takes no memory.
pub fn has_short_code<T: Types>(types: &T, unit: &TypedModule) -> bool
    ensures { result ≡ has_short_code (T.types types.now) (module_view unit.now) }
{
    let first = lines_of_body(types, unit.body.as_slice());
    let others = lines_of_procedures(types, unit.procedures.as_slice());
    more(first, others) <= MOST_CODE
}
