//! What an object file has to keep beside its grammar.

ghost use Rattle.std.specs.Prelude.{◌≡◌, ◌+◌, ◌≤◌, length, nat_lt, nat_le, IfOk};
ghost use Rattle.std.specs.List.{list_all};
ghost use Rattle.ob_format.specs.Order.{differ};
ghost use Rattle.ob_obj.specs.Grammar.{by_type, is_import, repeats, names_in, words_of, base_stands, bases_stand, has_procedures, begins_with_body, can_stop, is_jump, has_position, are_placed};

use crate::parts::{Base, Command, Definition, Export, RecordType, StringConst};
use ob_instr::{Instr, Opcode, Position, Procedure};
use ob_tree::Name;
use std::alloc::{AllocError, Global};
use std::cmp::Ordering;
use std::collections::BTreeSet;

/// The most words of globals.
const MOST_GLOBALS: u64 = 262_144;

fn is_import_name(name: &Name) -> bool
    ensures { result ≡ is_import name.now }
{
    let out: &[u8] = &[79, 117, 116];
    let system: &[u8] = &[83, 89, 83, 84, 69, 77];
    name.as_bytes().cmp(out) != Ordering::Equal && name.as_bytes().cmp(system) != Ordering::Equal
}

/// Whether none of the names is one that no file imports.
pub fn are_imports(names: &[Name]) -> bool
    ensures { result ≡ list_all is_import names.now }
{
    let mut rest = names;
    while let [first, more @ ..] = rest {
        if !is_import_name(first) {
            return false;
        }
        rest = more;
    }
    true
}

fn is_repeated(export: &Export, exports: &[Export]) -> bool
    ensures { result ≡ repeats export.now exports.now }
{
    match exports {
        [] => false,
        [next, ..] => export.name.compare(&next.name) == Ordering::Equal,
    }
}

/// How many names stand among exports in order.
pub fn count_names(exports: &[Export]) -> usize
    ensures { result ≡ names_in exports.now }
{
    let mut count = 0;
    let mut rest = exports;
    while let [first, more @ ..] = rest {
        if !is_repeated(first, more) {
            count += 1;
        }
        rest = more;
    }
    count
}

/// Whether the variables and strings keep the limit of words.
pub fn has_few_words(variables: u32, strings: &[StringConst]) -> bool
    ensures { result ≡ nat_le (variables + words_of strings.now) 262144 }
{
    let mut words = variables as u64;
    let mut rest = strings;
    while let [string, more @ ..] = rest {
        if words > MOST_GLOBALS {
            return false;
        }
        words += string.words as u64;
        rest = more;
    }
    words <= MOST_GLOBALS
}

/// Whether no two types have the same name. An `Err` is a want of memory.
pub fn has_distinct_names(alloc: Global, types: &[RecordType]) -> Result<bool, AllocError>
    ensures { IfOk result (λ b. b ≡ differ by_type types.now) }
{
    let mut names = BTreeSet::new(alloc);
    for entry in types {
        if !names.insert(entry.name.as_bytes())? {
            return Ok(false);
        }
    }
    Ok(true)
}

fn base_stands_at(base: Base, links: usize, index: usize) -> bool
    ensures { result ≡ base_stands links index base }
{
    match base {
        Base::None => true,
        Base::Own(own) => (own as usize) < index,
        Base::Link(link) => (link as usize) < links,
    }
}

/// Whether each own base stands before its type, and each other one is one of so many links.
pub fn has_bases(types: &[RecordType], links: usize) -> bool
    ensures { result ≡ bases_stand links 0 types.now }
{
    let mut index = 0;
    let mut rest = types;
    while let [entry, more @ ..] = rest {
        if !base_stands_at(entry.base, links, index) {
            return false;
        }
        index += 1;
        rest = more;
    }
    true
}

fn has_procedures_within(definitions: &[Definition], limit: usize) -> bool
    ensures { result ≡ list_all (λ d. nat_lt d.procedure limit) definitions.now }
{
    let mut rest = definitions;
    while let [definition, more @ ..] = rest {
        if definition.procedure as usize >= limit {
            return false;
        }
        rest = more;
    }
    true
}

/// Whether each type's own bound procedures are procedures.
pub fn has_definitions_within(types: &[RecordType], limit: usize) -> bool
    ensures { result ≡ list_all (has_procedures limit) types.now }
{
    let mut rest = types;
    while let [entry, more @ ..] = rest {
        if !has_procedures_within(entry.definitions.as_slice(), limit) {
            return false;
        }
        rest = more;
    }
    true
}

/// Whether the first procedure has no parameters and no result.
pub fn begins_with_main(procedures: &[Procedure]) -> bool
    ensures { result ≡ begins_with_body procedures.now }
{
    match procedures {
        [] => false,
        [first, ..] => first.params.as_slice().len() == 0 && !first.has_result,
    }
}

/// Whether each entry is an index of the code.
pub fn has_entries_within(procedures: &[Procedure], limit: usize) -> bool
    ensures { result ≡ list_all (λ q. nat_lt q.entry limit) procedures.now }
{
    let mut rest = procedures;
    while let [procedure, more @ ..] = rest {
        if procedure.entry as usize >= limit {
            return false;
        }
        rest = more;
    }
    true
}

/// Whether each exported procedure is a procedure.
pub fn has_commands_within(commands: &[Command], limit: usize) -> bool
    ensures { result ≡ list_all (λ c. nat_lt c.procedure limit) commands.now }
{
    let mut rest = commands;
    while let [command, more @ ..] = rest {
        if command.procedure as usize >= limit {
            return false;
        }
        rest = more;
    }
    true
}

fn can_stop_at(op: Opcode) -> bool
    ensures { result ≡ can_stop op }
{
    matches!(
        op,
        Opcode::CopyRec
            | Opcode::Index
            | Opcode::IndexO
            | Opcode::Deref
            | Opcode::Tagged
            | Opcode::Lenned
            | Opcode::GuardAt
            | Opcode::GuardR
            | Opcode::Add
            | Opcode::Sub
            | Opcode::Mul
            | Opcode::Div
            | Opcode::Mod
            | Opcode::Neg
            | Opcode::Abs
            | Opcode::Bit
            | Opcode::Bits
            | Opcode::In
            | Opcode::Incl
            | Opcode::Excl
            | Opcode::Range
            | Opcode::Chr
            | Opcode::Ash
            | Opcode::Inc
            | Opcode::Dec
            | Opcode::StrRel
            | Opcode::StrCopy
            | Opcode::Trap
            | Opcode::Assert
            | Opcode::NewR
            | Opcode::NewA
            | Opcode::NewO
            | Opcode::Call
            | Opcode::CallX
            | Opcode::CallV
            | Opcode::CallP
            | Opcode::CallR
            | Opcode::CallS
            | Opcode::Out
    )
}

fn has_position_at(index: u32, instr: Instr) -> bool
    ensures { result ≡ has_position index instr }
{
    match instr.op {
        Opcode::Jump | Opcode::JumpF => instr.a as i64 <= index as i64,
        op => can_stop_at(op),
    }
}

/// Whether the positions are those of exactly the instructions that have one, in order.
pub fn has_places(code: &[Instr], positions: &[Position]) -> bool
    requires { length code.now ≤ 262144 }
    ensures { result ≡ are_placed 0 code.now positions.now }
{
    let mut index = 0;
    let mut rest = code;
    let mut left = positions;
    while let [instr, more @ ..] = rest {
        if has_position_at(index, *instr) {
            match left {
                [position, after @ ..] if position.at == index => left = after,
                _ => return false,
            }
        }
        index += 1;
        rest = more;
    }
    left.is_empty()
}
