//! Whether a module needs few enough operands.

ghost use Rattle.std.specs.Prelude.{◌≡◌, Option, map, nat_le};
ghost use Rattle.ob_tree.specs.declared.names.QName.{QName};
ghost use Rattle.ob_types.specs.declared.desc.Desc.{Desc};
ghost use Rattle.ob_types.specs.TypedSyntax.{Module};
ghost use Rattle.ob_types.specs.TypedView.{stmts_view, procedure_view, module_view};
ghost use Rattle.ob_scheme.specs.Context.{Context};
ghost use Rattle.ob_scheme.specs.Needs.{need_stmts, have_few_operands, has_few_operands};

use crate::stmts::operands_of_stmts;
use crate::wants::MOST_OPERANDS;
use ob_types::{TypedModule, TypedProcedure, TypedStmt};

fn is_few(body: &[TypedStmt]) -> bool
    ensures { (c : Context) → result ≡ nat_le (need_stmts c (stmts_view body.now)) 256 }
{
    operands_of_stmts(body) <= MOST_OPERANDS
}

fn are_few(procedures: &[TypedProcedure]) -> bool
    ensures { (types : QName → Option Desc) (m : Module) → result ≡ have_few_operands types m (map procedure_view procedures.now) }
{
    'procedures: for procedure in procedures {
        if !is_few(procedure.body.as_slice()) {
            return false;
        }
    }
    true
}

/// Whether a module keeps the limit `operands`, whatever its types are. Takes no memory.
pub fn has_few_operands(unit: &TypedModule) -> bool
    ensures { (types : QName → Option Desc) → result ≡ has_few_operands types (module_view unit.now) }
{
    is_few(unit.body.as_slice()) && are_few(unit.procedures.as_slice())
}
