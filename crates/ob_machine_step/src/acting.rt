//! What each instruction does.

ghost use Rattle.std.specs.Prelude.{◌≡◌, ◌≤◌, ◌<◌, ◌^◌, ℕ, true, false, length, vec_len, vec_capacity};
ghost use Rattle.ob_instr.specs.Image.{ModuleImage, Image};
ghost use Rattle.ob_instr.specs.Table.{row};
ghost use Rattle.ob_machine_operands.specs.Effects.{Does, Moves};
ghost use Rattle.ob_machine_step.specs.Bases.{AreBelow};
ghost use Rattle.ob_machine_step.specs.Places.{IsPlace, image_at, module_at, is_call};

use crate::jumps::{assert_true, jump, jump_at_false, trap};
use crate::memory::{copy, dec, deref, exclude, inc, include, load, store, tagged};
use crate::objects::{make_array, make_open_array, make_record};
use crate::records::copy_record;
use crate::shifts::ash;
use crate::texts::{copy_text, relate};
use crate::types::{
    external, guard_at, guard_record, is_pointer, is_record, linked_procedure, own_procedure,
    push_tag,
};
use crate::writing::write;
use ob_instr::{Instr, Opcode};
use ob_machine_operands::{
    Comparison, State, Step, abs, add, address, bit, bits, cap, character, compare, complement,
    contains, differ, div, drop_one, index, index_open, meet, minus, modulo, mul, neg, not, odd,
    offset, push, range, sub, union,
};
use ob_tdesc::Descriptors;
use ob_tree::ProcRef;

/// What the instructions read of their module and of the machine.
#[derive(Clone, Copy)]
pub struct Place<'a> {
    /// The module's number.
    pub module: u32,
    /// The address of the call's first word.
    pub frame: u32,
    /// The address of the module's first word of globals.
    pub first: u32,
    /// How many instructions the module has.
    pub instructions: usize,
    /// How many procedures it has.
    pub procedures: usize,
    /// The addresses of the variables that its links name.
    pub variable_links: &'a [u64],
    /// The procedures that its links name.
    pub procedure_links: &'a [ProcRef],
    /// The numbers of the descriptors of its own types, and then of those that its links name.
    pub types: &'a [u32],
    /// The descriptors of the machine.
    pub descriptors: &'a Descriptors,
    /// How many they are.
    pub count: u32,
}

/// Does one instruction, the one of index `pc` of its module, but for what it writes, by its row of the
/// table. For a call or a return it answers `Calls` and does nothing.
///
/// At most 256 operands stand before it, and there is room for one more. Takes no memory.
#[tactic(auto, using(ob_machine_operands::specs::Laws::keeps_moves))]
pub fn effect(place: &Place<'_>, pc: u32, instr: Instr, state: &mut State) -> Step
    requires room { 257 ≤ vec_capacity state.old.operands }
    requires few { vec_len state.old.operands ≤ 256 }
    requires count { place.now.count ≡ length place.now.descriptors.now.list }
    requires few_types { place.now.count < 2 ^ 31 }
    requires bases { AreBelow place.now.descriptors.now.list }
    ensures does { is_call instr.op ≡ false → (img : Image) → (u : ModuleImage) → IsPlace place.now u → (p : ℕ) → Does (λ ops w. row (image_at place.now img) (module_at place.now u) place.now.module p place.now.frame pc instr.op instr.a instr.b ops w) state.old state.new result }
    ensures moves { is_call instr.op ≡ false → Moves pc state.old state.new result }
    ensures calls { is_call instr.op ≡ true → (result ≡ Step.Calls) × (state.new ≡ state.old) }
    ensures room { vec_capacity state.new.operands ≡ vec_capacity state.old.operands }
{
    let Instr { op, a, b } = instr;
    match op {
        Opcode::Int => push(state, a),
        Opcode::Local => address(state, place.frame, a),
        Opcode::Global => address(state, place.first, a),
        Opcode::ExtVar => external(state, place.variable_links, a),
        Opcode::Load => load(state),
        Opcode::Store => store(state),
        Opcode::Copy => copy(state, a),
        Opcode::CopyRec => copy_record(state, place.types, a, b),
        Opcode::Offset => offset(state, a),
        Opcode::Index => index(state, a, b),
        Opcode::IndexO => index_open(state, a),
        Opcode::Deref => deref(state),
        Opcode::Tagged | Opcode::Lenned => tagged(state),
        Opcode::Tag => push_tag(state, place.types, a),
        Opcode::IsP => is_pointer(state, place.descriptors, place.count, place.types, a),
        Opcode::IsR => is_record(state, place.descriptors, place.count, place.types, a),
        Opcode::GuardAt => guard_at(state, place.descriptors, place.count, place.types, a),
        Opcode::GuardR => guard_record(state, place.descriptors, place.count, place.types, a),
        Opcode::Drop => drop_one(state),
        Opcode::Add => add(state, a),
        Opcode::Sub => sub(state, a),
        Opcode::Mul => mul(state, a),
        Opcode::Div => div(state),
        Opcode::Mod => modulo(state),
        Opcode::Neg => neg(state, a),
        Opcode::Abs => abs(state, a),
        Opcode::Eq => compare(state, Comparison::Equal),
        Opcode::Ne => compare(state, Comparison::Unequal),
        Opcode::Lt => compare(state, Comparison::Less),
        Opcode::Le => compare(state, Comparison::LessOrEqual),
        Opcode::Gt => compare(state, Comparison::Greater),
        Opcode::Ge => compare(state, Comparison::GreaterOrEqual),
        Opcode::Not => not(state),
        Opcode::Union => union(state),
        Opcode::Minus => minus(state),
        Opcode::Meet => meet(state),
        Opcode::Xor => differ(state),
        Opcode::Compl => complement(state),
        Opcode::Bit => bit(state),
        Opcode::Bits => bits(state),
        Opcode::In => contains(state),
        Opcode::Incl => include(state),
        Opcode::Excl => exclude(state),
        Opcode::Range => range(state, a),
        Opcode::Chr => character(state),
        Opcode::Odd => odd(state),
        Opcode::Cap => cap(state),
        Opcode::Ash => ash(state),
        Opcode::Inc => inc(state, a),
        Opcode::Dec => dec(state, a),
        Opcode::StrRel => relate(state, a),
        Opcode::StrCopy => copy_text(state),
        Opcode::Jump => jump(state, pc, place.instructions, a),
        Opcode::JumpF => jump_at_false(state, pc, place.instructions, a),
        Opcode::Trap => trap(state, a, b),
        Opcode::Assert => assert_true(state, a),
        Opcode::NewR => make_record(state, place.descriptors, place.count, place.types, a),
        Opcode::NewA => make_array(state, a),
        Opcode::NewO => make_open_array(state, a),
        Opcode::Proc => own_procedure(state, place.procedures, place.module, a),
        Opcode::ProcX => linked_procedure(state, place.procedure_links, a),
        Opcode::Out => write(state, a),
        Opcode::Call
        | Opcode::CallX
        | Opcode::CallV
        | Opcode::CallP
        | Opcode::CallR
        | Opcode::CallS
        | Opcode::Ret
        | Opcode::RetV => Step::Calls,
    }
}
