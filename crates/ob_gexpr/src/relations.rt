//! Code of relations of texts.

ghost use Rattle.std.specs.Prelude.{◌≡◌, ◌∷◌, [], pos, OnOk};
ghost use Rattle.ob_scheme.specs.Lines.{placed, count};
ghost use Rattle.ob_scheme.specs.Operations.{relation_number};
ghost use Rattle.ob_scheme.specs.Coded.{Coded, appended};

use ob_gexpr_code::{Code, CodeFault, put_placed};
use ob_instr::Opcode;
use ob_tree::Pos;
use ob_types::Comparison;

fn number_of(comparison: Comparison) -> i32
    ensures { result ≡ pos (relation_number comparison) }
{
    match comparison {
        Comparison::Equal => 0,
        Comparison::NotEqual => 1,
        Comparison::Less => 2,
        Comparison::LessEqual => 3,
        Comparison::Greater => 4,
        Comparison::GreaterEqual => 5,
    }
}

/// A relation of strings and character arrays, whose places and lengths were put.
pub fn put_relation(code: &mut Code, comparison: Comparison, at: Pos) -> Result<(), CodeFault>
    ensures { OnOk result (code.new ≡ appended code.old (placed Opcode.StrRel (count (relation_number comparison)) at ∷ [])) }
{
    put_placed(code, Opcode::StrRel, number_of(comparison), at)
}
