//! Code that goes on from a place: indices, fields, lengths, pointers.

ghost use Rattle.std.specs.Prelude.{◌≡◌, ◌++◌, ◌∷◌, [], ◌<◌, ◌^◌, pos, negsuc, OnOk};
ghost use Rattle.ob_scheme.specs.Lines.{Number, plain, placed, placed_two, bare, bare_at, count};
ghost use Rattle.ob_scheme.specs.Context.{Context, words};
ghost use Rattle.ob_scheme.specs.Coded.{Coded, appended};
ghost use Rattle.ob_scheme.specs.Descriptions.{elements_of, field_place};
ghost use Rattle.ob_scheme.specs.Expressions.{index_line, measured_behind, length_operand, from_place, from_pointer, own_place, held_place, module_line, parameter_code, variable_code};

use crate::pieces::put_pair;
use crate::types::put_tag;
use ob_gexpr_code::{Code, CodeFault, Scope, put_bare, put_bare_at, put_count, put_plain};
use ob_instr::Opcode;
use ob_scheme::Want;
use ob_tree::{CompactName, Name, Pos, QName};
use ob_types::{Passing, TypeRef, Variable};

// The length of an array of a fixed length.
fn put_length<S: Scope>(code: &mut Code, scope: &S, of: &TypeRef) -> Result<(), CodeFault>
    ensures { OnOk result (code.new ≡ appended code.old (plain Opcode.Int (length_operand (elements_of (S.context scope.now).types of.now)) ∷ [])) }
{
    match scope.elements(of)? {
        None => put_plain(code, Opcode::Int, 0),
        Some(n) => put_plain(code, Opcode::Int, n),
    }
}

/// What is wanted of a variable whose place was put.
#[tactic(auto, using(ob_scheme::proofs::Appends::appended_none))]
pub fn put_from_place<S: Scope>(
    code: &mut Code,
    scope: &S,
    want: Want,
    of: &TypeRef,
) -> Result<(), CodeFault>
    ensures { OnOk result (code.new ≡ appended code.old (from_place (S.context scope.now) want of.now)) }
{
    match want {
        Want::Value => put_bare(code, Opcode::Load),
        Want::Place | Want::Room(_) | Want::Tag | Want::Length => Ok(()),
        Want::PlaceAndTag => put_tag(code, scope, of),
        Want::PlaceAndLength => put_length(code, scope, of),
    }
}

#[tactic(auto, using(ob_scheme::proofs::Appends::put_more))]
fn put_measured<S: Scope>(
    code: &mut Code,
    scope: &S,
    of: &TypeRef,
    at: Pos,
) -> Result<(), CodeFault>
    ensures { OnOk result (code.new ≡ appended code.old (measured_behind (elements_of (S.context scope.now).types of.now) at)) }
{
    match scope.elements(of)? {
        None => put_bare_at(code, Opcode::Lenned, at),
        Some(n) => {
            put_bare_at(code, Opcode::Deref, at)?;
            put_plain(code, Opcode::Int, n)
        }
    }
}

#[tactic(auto, using(ob_scheme::proofs::Appends::put_more))]
fn put_pointee_value(code: &mut Code, at: Pos) -> Result<(), CodeFault>
    ensures { OnOk result (code.new ≡ appended code.old (bare_at Opcode.Deref at ∷ bare Opcode.Load ∷ [])) }
{
    put_bare_at(code, Opcode::Deref, at)?;
    put_bare(code, Opcode::Load)
}

#[tactic(auto, using(ob_scheme::proofs::Appends::put_more))]
fn put_open_length(code: &mut Code, at: Pos) -> Result<(), CodeFault>
    ensures { OnOk result (code.new ≡ appended code.old (bare_at Opcode.Deref at ∷ plain Opcode.Offset (Number (negsuc 0)) ∷ bare Opcode.Load ∷ [])) }
{
    put_bare_at(code, Opcode::Deref, at)?;
    put_plain(code, Opcode::Offset, -1)?;
    put_bare(code, Opcode::Load)
}

/// What is wanted of a variable to which a pointer points whose value was put.
#[tactic(auto, using(ob_scheme::proofs::Appends::appended_none))]
pub fn put_from_pointer<S: Scope>(
    code: &mut Code,
    scope: &S,
    want: Want,
    of: &TypeRef,
    at: Pos,
) -> Result<(), CodeFault>
    ensures { OnOk result (code.new ≡ appended code.old (from_pointer (S.context scope.now) want of.now at)) }
{
    match want {
        Want::Value => put_pointee_value(code, at),
        Want::Place | Want::Room(_) => put_bare_at(code, Opcode::Deref, at),
        Want::PlaceAndTag => put_bare_at(code, Opcode::Tagged, at),
        Want::Tag => Ok(()),
        Want::PlaceAndLength => put_measured(code, scope, of, at),
        Want::Length => put_open_length(code, at),
    }
}

#[tactic(auto, using(ob_scheme::proofs::Appends::put_more))]
fn put_own<S: Scope>(
    code: &mut Code,
    scope: &S,
    slot: i32,
    want: Want,
    of: &TypeRef,
) -> Result<(), CodeFault>
    ensures { OnOk result (code.new ≡ appended code.old (plain Opcode.Local (Number slot) ∷ from_place (S.context scope.now) want of.now)) }
{
    put_plain(code, Opcode::Local, slot)?;
    put_from_place(code, scope, want, of)
}

#[tactic(auto, using(ob_scheme::proofs::Appends::put_more))]
fn put_held<S: Scope>(
    code: &mut Code,
    scope: &S,
    slot: u32,
    want: Want,
    of: &TypeRef,
) -> Result<(), CodeFault>
    requires { slot < 2 ^ 30 }
    ensures { OnOk result (code.new ≡ appended code.old (held_place (S.context scope.now) slot want of.now)) }
{
    put_count(code, Opcode::Local, slot)?;
    put_bare(code, Opcode::Load)?;
    put_from_place(code, scope, want, of)
}

#[tactic(auto, using(ob_scheme::proofs::Appends::put_more))]
fn put_slot<S: Scope>(
    code: &mut Code,
    scope: &S,
    slot: u32,
    want: Want,
    of: &TypeRef,
) -> Result<(), CodeFault>
    requires { slot < 2 ^ 30 }
    ensures { OnOk result (code.new ≡ appended code.old (own_place (S.context scope.now) slot want of.now)) }
{
    put_count(code, Opcode::Local, slot)?;
    put_from_place(code, scope, want, of)
}

fn put_parameter<S: Scope>(
    code: &mut Code,
    scope: &S,
    how: Passing,
    slot: u32,
    want: Want,
    of: &TypeRef,
) -> Result<(), CodeFault>
    requires { slot < 2 ^ 30 }
    ensures { OnOk result (code.new ≡ appended code.old (parameter_code (S.context scope.now) how slot want of.now)) }
{
    match how {
        Passing::Scalar => put_slot(code, scope, slot, want, of),
        Passing::Structure | Passing::Variable => put_held(code, scope, slot, want, of),
        Passing::OpenArray | Passing::VariableRecord | Passing::VariableOpenArray => put_pair(
            code, slot, want,
        ),
    }
}

#[tactic(auto, using(ob_scheme::proofs::Appends::put_more))]
fn put_global<S: Scope>(
    code: &mut Code,
    scope: &S,
    unit: &CompactName,
    name: &CompactName,
    want: Want,
    of: &TypeRef,
) -> Result<(), CodeFault>
    ensures { OnOk result (code.new ≡ appended code.old (module_line (S.context scope.now) unit.now name.now ∷ from_place (S.context scope.now) want of.now)) }
{
    put_module_line(code, scope, unit, name)?;
    put_from_place(code, scope, want, of)
}

fn put_module_line<S: Scope>(
    code: &mut Code,
    scope: &S,
    unit: &CompactName,
    name: &CompactName,
) -> Result<(), CodeFault>
    ensures { OnOk result (code.new ≡ appended code.old (module_line (S.context scope.now) unit.now name.now ∷ [])) }
{
    if scope.is_own(unit.as_bytes()) {
        put_plain(code, Opcode::Global, scope.variable_place(name.as_bytes()))
    } else {
        code.put_variable(&unit.name(), &name.name())
    }
}

/// What is wanted of a variable.
pub fn put_variable<S: Scope>(
    code: &mut Code,
    scope: &S,
    want: Want,
    variable: &Variable,
    of: &TypeRef,
) -> Result<(), CodeFault>
    ensures { OnOk result (code.new ≡ appended code.old (variable_code (S.context scope.now) want variable.now of.now)) }
{
    match variable {
        Variable::Module { module, name } => put_global(code, scope, module, name, want, of),
        Variable::Local(name) => put_own(code, scope, scope.local_slot(name.as_bytes()), want, of),
        Variable::Parameter(how, name) => put_parameter(
            code,
            scope,
            *how,
            scope.parameter_slot(name.as_bytes()),
            want,
            of,
        ),
    }
}

fn put_index_line(code: &mut Code, length: u32, words: u32, at: Pos) -> Result<(), CodeFault>
    requires { words < 2 ^ 31 }
    ensures { OnOk result (code.new ≡ appended code.old (placed_two Opcode.Index (count length) (count words) at ∷ [])) }
{
    if length >= 1 << 31 {
        return Err(CodeFault::Beyond);
    }
    code.put(Opcode::Index, length as i32, words as i32, Some(at))
}

fn put_open_index_line(code: &mut Code, words: u32, at: Pos) -> Result<(), CodeFault>
    requires { words < 2 ^ 31 }
    ensures { OnOk result (code.new ≡ appended code.old (placed Opcode.IndexO (count words) at ∷ [])) }
{
    code.put(Opcode::IndexO, words as i32, 0, Some(at))
}

fn put_any_index<S: Scope>(
    code: &mut Code,
    scope: &S,
    length: Option<u32>,
    of: &TypeRef,
    at: Pos,
) -> Result<(), CodeFault>
    ensures { OnOk result (code.new ≡ appended code.old (index_line (S.context scope.now) length of.now at ∷ [])) }
{
    let words = scope.words(of)?;
    match length {
        None => put_open_index_line(code, words, at),
        Some(length) => put_index_line(code, length, words, at),
    }
}

/// What is wanted of an element of an array, whose place, length where it is open, and index were put.
#[tactic(auto, using(ob_scheme::proofs::Appends::put_more))]
pub fn put_index<S: Scope>(
    code: &mut Code,
    scope: &S,
    length: Option<u32>,
    want: Want,
    of: &TypeRef,
    at: Pos,
) -> Result<(), CodeFault>
    ensures { OnOk result (code.new ≡ appended code.old (index_line (S.context scope.now) length of.now at ∷ from_place (S.context scope.now) want of.now)) }
{
    put_any_index(code, scope, length, of, at)?;
    put_from_place(code, scope, want, of)
}

/// What is wanted of a field of a record whose place was put.
#[tactic(auto, using(ob_scheme::proofs::Appends::put_more))]
pub fn put_field<S: Scope>(
    code: &mut Code,
    scope: &S,
    owner: &QName,
    name: &Name,
    want: Want,
    of: &TypeRef,
) -> Result<(), CodeFault>
    ensures { OnOk result (code.new ≡ appended code.old (plain Opcode.Offset (count (field_place (S.context scope.now).types owner.now name.now)) ∷ from_place (S.context scope.now) want of.now)) }
{
    let place = scope.field_place(owner, name)?;
    put_plain(code, Opcode::Offset, place)?;
    put_from_place(code, scope, want, of)
}
