//! Code of operators, where that of their operands was put.

ghost use Rattle.std.specs.Prelude.{◌≡◌, ◌++◌, ◌∷◌, [], ◌<◌, ◌^◌, pos, OnOk};
ghost use Rattle.ob_scheme.specs.Coded.{Coded, appended};
ghost use Rattle.ob_scheme.specs.Operations.{unary_code, binary_line, comparison_code};
ghost use Rattle.ob_scheme.specs.Expressions.{first_word, both_words, second_word, pair_code, behind_guard};

use ob_gexpr_code::{Code, CodeFault, bytes_of, put_bare, put_bare_at, put_count, put_placed};
use ob_instr::Opcode;
use ob_scheme::Want;
use ob_tree::Pos;
use ob_types::{Binary, Comparison, Unary};

fn comparison_opcode(comparison: Comparison) -> Opcode
    ensures { result ≡ comparison_code comparison }
{
    match comparison {
        Comparison::Equal => Opcode::Eq,
        Comparison::NotEqual => Opcode::Ne,
        Comparison::Less => Opcode::Lt,
        Comparison::LessEqual => Opcode::Le,
        Comparison::Greater => Opcode::Gt,
        Comparison::GreaterEqual => Opcode::Ge,
    }
}

/// A sign, ~ or a predeclared function of one value.
#[tactic(auto, using(ob_scheme::proofs::Appends::appended_none))]
pub fn put_unary(code: &mut Code, op: Unary, at: Pos) -> Result<(), CodeFault>
    ensures { OnOk result (code.new ≡ appended code.old (unary_code op at)) }
{
    match op {
        Unary::Negate(width) => put_placed(code, Opcode::Neg, bytes_of(width), at),
        Unary::Not => put_bare(code, Opcode::Not),
        Unary::Complement => put_bare(code, Opcode::Compl),
        Unary::Abs(width) => put_placed(code, Opcode::Abs, bytes_of(width), at),
        Unary::Cap => put_bare(code, Opcode::Cap),
        Unary::Chr => put_bare_at(code, Opcode::Chr, at),
        Unary::Long(_) => Ok(()),
        Unary::Odd => put_bare(code, Opcode::Odd),
        Unary::Ord => Ok(()),
        Unary::Short(width) => put_placed(code, Opcode::Range, bytes_of(width), at),
        Unary::Element => put_bare_at(code, Opcode::Bit, at),
    }
}

/// An operator, a relation or ASH.
pub fn put_binary(code: &mut Code, op: Binary, at: Pos) -> Result<(), CodeFault>
    ensures { OnOk result (code.new ≡ appended code.old (binary_line op at ∷ [])) }
{
    match op {
        Binary::Add(width) => put_placed(code, Opcode::Add, bytes_of(width), at),
        Binary::Subtract(width) => put_placed(code, Opcode::Sub, bytes_of(width), at),
        Binary::Multiply(width) => put_placed(code, Opcode::Mul, bytes_of(width), at),
        Binary::Quotient(_) => put_bare_at(code, Opcode::Div, at),
        Binary::Remainder(_) => put_bare_at(code, Opcode::Mod, at),
        Binary::Union => put_bare(code, Opcode::Union),
        Binary::Difference => put_bare(code, Opcode::Minus),
        Binary::Intersection => put_bare(code, Opcode::Meet),
        Binary::SymmetricDifference => put_bare(code, Opcode::Xor),
        Binary::Range => put_bare_at(code, Opcode::Bits, at),
        Binary::In => put_bare_at(code, Opcode::In, at),
        Binary::Ash => put_bare_at(code, Opcode::Ash, at),
        Binary::Compare(comparison, _) => put_bare(code, comparison_opcode(comparison)),
    }
}

// The value or the address that the first word of a parameter has.
#[tactic(auto, using(ob_scheme::proofs::Appends::put_more, ob_scheme::proofs::Appends::put_two))]
fn put_first(code: &mut Code, slot: u32) -> Result<(), CodeFault>
    requires { slot < 2 ^ 30 }
    ensures { OnOk result (code.new ≡ appended code.old (first_word slot)) }
{
    put_count(code, Opcode::Local, slot)?;
    put_bare(code, Opcode::Load)
}

#[tactic(auto, using(ob_scheme::proofs::Appends::put_more, ob_scheme::proofs::Appends::put_two))]
fn put_second(code: &mut Code, slot: u32) -> Result<(), CodeFault>
    requires { slot < 2 ^ 30 }
    ensures { OnOk result (code.new ≡ appended code.old (second_word slot)) }
{
    put_count(code, Opcode::Local, slot + 1)?;
    put_bare(code, Opcode::Load)
}

#[tactic(auto, using(ob_scheme::proofs::Appends::put_more, ob_scheme::proofs::Appends::put_two))]
fn put_both(code: &mut Code, slot: u32) -> Result<(), CodeFault>
    requires { slot < 2 ^ 30 }
    ensures { OnOk result (code.new ≡ appended code.old (both_words slot)) }
{
    put_first(code, slot)?;
    put_second(code, slot)
}

/// A parameter of two words.
pub fn put_pair(code: &mut Code, slot: u32, want: Want) -> Result<(), CodeFault>
    requires { slot < 2 ^ 30 }
    ensures { OnOk result (code.new ≡ appended code.old (pair_code slot want)) }
{
    match want {
        Want::PlaceAndTag | Want::PlaceAndLength => put_both(code, slot),
        Want::Tag | Want::Length => put_second(code, slot),
        Want::Value | Want::Place | Want::Room(_) => put_first(code, slot),
    }
}

/// Behind the guard of a VAR record.
#[tactic(auto, using(ob_scheme::proofs::Appends::appended_none))]
pub fn put_behind_guard(code: &mut Code, want: Want) -> Result<(), CodeFault>
    ensures { OnOk result (code.new ≡ appended code.old (behind_guard want)) }
{
    match want {
        Want::Place | Want::Room(_) => put_bare(code, Opcode::Drop),
        _ => Ok(()),
    }
}
