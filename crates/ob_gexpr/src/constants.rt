//! Code of constants.

ghost use Rattle.std.specs.Prelude.{◌≡◌, ◌+◌, ◌<◌, ◌^◌, ◌∷◌, [], suc, pos, length, OnOk, IfOk};
ghost use Rattle.ob_scheme.specs.Lines.{Number, plain, count};
ghost use Rattle.ob_scheme.specs.Operations.{truth_word, set_word};
ghost use Rattle.ob_scheme.specs.Coded.{Coded, appended};
ghost use Rattle.ob_scheme.specs.Expressions.{string_line, text_code, constant_code};

use ob_gexpr_code::{Code, CodeFault, put_count, put_plain};
use ob_instr::Opcode;
use ob_scheme::Want;
use ob_tree::Text;
use ob_types::Value;

fn truth_word(b: bool) -> i32
    ensures { result ≡ truth_word b }
{
    if b { 1 } else { 0 }
}

fn set_word(set: u32) -> i32
    ensures { result ≡ set_word set }
{
    if set < 1 << 31 {
        set as i32
    } else {
        -((u32::MAX - set) as i32) - 1
    }
}

fn words_of(text: &Text) -> Result<u32, CodeFault>
    ensures is { IfOk result (λ n. n ≡ suc (length text.now)) }
    ensures within { IfOk result (λ n. n < 2 ^ 31) }
{
    let length = text.len();
    if length >= 1 << 30 {
        return Err(CodeFault::Beyond);
    }
    Ok(length as u32 + 1)
}

fn put_whole(code: &mut Code, text: &Text) -> Result<(), CodeFault>
    ensures { OnOk result (code.new ≡ appended code.old (string_line text.now (suc (length text.now)) ∷ [])) }
{
    let words = words_of(text)?;
    code.put_string(text, words)
}

fn put_text_length(code: &mut Code, text: &Text) -> Result<(), CodeFault>
    ensures { OnOk result (code.new ≡ appended code.old (plain Opcode.Int (count (suc (length text.now))) ∷ [])) }
{
    let words = words_of(text)?;
    put_count(code, Opcode::Int, words)
}

#[tactic(auto, using(ob_scheme::proofs::Appends::put_more))]
fn put_measured(code: &mut Code, text: &Text) -> Result<(), CodeFault>
    ensures { OnOk result (code.new ≡ appended code.old (string_line text.now (suc (length text.now)) ∷ plain Opcode.Int (count (suc (length text.now))) ∷ [])) }
{
    put_whole(code, text)?;
    put_text_length(code, text)
}

/// A constant: its word; a string is laid down.
pub fn put_constant(code: &mut Code, want: Want, value: &Value) -> Result<(), CodeFault>
    ensures { OnOk result (code.new ≡ appended code.old (constant_code want value.now)) }
{
    match value {
        Value::Bool(b) => put_plain(code, Opcode::Int, truth_word(*b)),
        Value::Char(c) => put_plain(code, Opcode::Int, *c as i32),
        Value::Int(z) => put_plain(code, Opcode::Int, *z),
        Value::Set(set) => put_plain(code, Opcode::Int, set_word(*set)),
        Value::Nil => put_plain(code, Opcode::Int, 0),
        Value::Str(text) => put_string(code, want, text),
    }
}

fn put_string(code: &mut Code, want: Want, text: &Text) -> Result<(), CodeFault>
    ensures { OnOk result (code.new ≡ appended code.old (text_code want text.now)) }
{
    match want {
        Want::Room(words) => code.put_string(text, words),
        Want::PlaceAndLength => put_measured(code, text),
        Want::Value | Want::Place | Want::PlaceAndTag | Want::Tag | Want::Length => put_whole(
            code, text,
        ),
    }
}
