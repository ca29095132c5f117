//! Object files written in words.

use ob_instr::Param;
use std::alloc::{AllocError, AllocFailed, Global};
use std::num::{ParseIntError, TryFromIntError};
use thiserror::Error;

// The operations in the order of their numbers, from 1 on.
const OPERATIONS: &str =
    "Int Local Global ExtVar Load Store Copy CopyRec Offset Index IndexO Deref Tagged Lenned Tag IsP IsR GuardAt GuardR Drop Add Sub Mul Div Mod Neg Abs Eq Ne Lt Le Gt Ge Not Union Minus Meet Xor Compl Bit Bits In Incl Excl Range Chr Odd Cap Ash Inc Dec StrRel StrCopy Jump JumpF Trap Assert NewR NewA NewO Proc ProcX Call CallX CallV CallP CallR CallS Ret RetV Out";

// Those that can neither trap nor spend a turn. A jump can where it goes to its own index or a lower one.
const WITHOUT_POSITION: &str =
    "Int Local Global ExtVar Load Store Copy Offset Tag IsP IsR Drop Eq Ne Lt Le Gt Ge Not Union Minus Meet Xor Compl Odd Cap Jump JumpF Proc ProcX Ret RetV";

/// Why no object file was made of a module.
#[derive(Clone, Copy, Debug, Error)]
pub enum Misspelt {
    /// There is no operation of a name.
    #[error("no operation")]
    Operation,
    /// An operand, a length or an index is no number of its range.
    #[error("no number")]
    Number,
    /// Memory was wanting.
    #[error("no memory")]
    Memory,
}

impl From<AllocError> for Misspelt {
    fn from(_: AllocError) -> Misspelt {
        Misspelt::Memory
    }
}

impl<T: Drop> From<AllocFailed<T>> for Misspelt {
    fn from(_: AllocFailed<T>) -> Misspelt {
        Misspelt::Memory
    }
}

impl From<ParseIntError> for Misspelt {
    fn from(_: ParseIntError) -> Misspelt {
        Misspelt::Number
    }
}

impl From<TryFromIntError> for Misspelt {
    fn from(_: TryFromIntError) -> Misspelt {
        Misspelt::Number
    }
}

/// A procedure with at most one parameter.
#[derive(Clone, Copy)]
pub struct Procedure {
    /// Its instructions, as the body's.
    pub code: &'static str,
    pub param: Option<Param>,
    /// The words of the locals.
    pub locals: u32,
    pub has_result: bool,
}

/// A record type that defines one bound procedure.
#[derive(Clone, Copy)]
pub struct RecordType {
    pub name: &'static str,
    /// The index of the type that it extends.
    pub base: Option<u32>,
    /// The words of a record.
    pub words: u32,
    /// How many bound procedures it has.
    pub bound: u32,
    /// Which of them it defines.
    pub number: u32,
    /// By which procedure it defines it.
    pub procedure: u32,
}

/// A module M of a body and procedures, without imports, exports and links.
#[derive(Clone, Copy)]
pub struct Module<'a> {
    /// The body's instructions, each its operation and its operands, with `;` between two. `p` stands for
    /// two instructions, which write the number below.
    pub body: &'a str,
    /// The words of the variables.
    pub words: u32,
    /// The strings, which stand behind the variables.
    pub strings: &'a [&'static str],
    pub types: &'a [RecordType],
    /// The procedures from the number 1 on. Their instructions stand behind the body's.
    pub procedures: &'a [Procedure],
}

// An instruction by the number of its operation, and whether it has a position.
#[derive(Clone, Copy)]
struct Instruction {
    number: u8,
    a: i32,
    b: i32,
    has_position: bool,
}

fn number_of(operation: &str) -> Option<u8> {
    let mut number = 0u8;
    for other in OPERATIONS.split(' ') {
        number = number.saturating_add(1);
        if other == operation {
            return Some(number);
        }
    }
    None
}

fn is_among(operation: &str, list: &str) -> bool {
    for other in list.split(' ') {
        if other == operation {
            return true;
        }
    }
    false
}

// The instruction that a text spells, at an index.
fn instruction_of(text: &str, at: usize) -> Result<Instruction, Misspelt> {
    let mut words = text.split(' ');
    let operation = words.next().unwrap_or("");
    let a: i32 = words.next().unwrap_or("0").parse()?;
    let b: i32 = words.next().unwrap_or("0").parse()?;
    let Some(number) = number_of(operation) else {
        return Err(Misspelt::Operation);
    };
    let is_jump = operation == "Jump" || operation == "JumpF";
    let jumps_back = is_jump && i64::from(a) <= i64::try_from(at)?;
    Ok(Instruction {
        number,
        a,
        b,
        has_position: jumps_back || !is_among(operation, WITHOUT_POSITION),
    })
}

fn put_one(code: &mut Vec<Instruction>, text: &str) -> Result<(), Misspelt> {
    let next = instruction_of(text, code.len())?;
    code.push(next)?;
    Ok(())
}

// Puts the instructions that a text spells behind others.
fn put_code(code: &mut Vec<Instruction>, text: &str) -> Result<(), Misspelt> {
    for part in text.split(';') {
        match part.trim() {
            "p" => {
                put_one(code, "Int 0")?;
                put_one(code, "Out 3")?;
            }
            one => put_one(code, one)?,
        }
    }
    Ok(())
}

fn put_number(bytes: &mut Vec<u8>, number: u32) -> Result<(), Misspelt> {
    bytes.extend_from_slice(&number.to_be_bytes())?;
    Ok(())
}

fn put_length(bytes: &mut Vec<u8>, length: usize) -> Result<(), Misspelt> {
    put_number(bytes, u32::try_from(length)?)
}

// A string of n characters has n + 1 words.
fn put_string(bytes: &mut Vec<u8>, string: &str) -> Result<(), Misspelt> {
    put_length(bytes, string.len())?;
    bytes.extend_from_slice(string.as_bytes())?;
    put_length(bytes, string.len().saturating_add(1))
}

fn put_type(bytes: &mut Vec<u8>, record: &RecordType) -> Result<(), Misspelt> {
    bytes.extend_from_slice(&u16::try_from(record.name.len())?.to_be_bytes())?;
    bytes.extend_from_slice(record.name.as_bytes())?;
    match record.base {
        Some(base) => {
            bytes.push(1)?;
            put_number(bytes, base)?;
        }
        None => bytes.push(0)?,
    }
    put_number(bytes, record.words)?;
    put_number(bytes, record.bound)?;
    put_number(bytes, 1)?;
    put_number(bytes, record.number)?;
    put_number(bytes, record.procedure)
}

// The number of a parameter's kind, and its words.
fn kind_of(param: Param) -> (u8, u32) {
    match param {
        Param::Scalar => (0, 0),
        Param::Var => (1, 0),
        Param::VarRecord => (2, 0),
        Param::VarArray => (3, 0),
        Param::Value(words) => (4, words),
        Param::ValueArray(words) => (5, words),
    }
}

fn put_procedure(
    bytes: &mut Vec<u8>,
    entry: usize,
    param: Option<Param>,
    locals: u32,
    has_result: bool,
) -> Result<(), Misspelt> {
    put_length(bytes, entry)?;
    match param {
        Some(param) => {
            let (kind, words) = kind_of(param);
            put_number(bytes, 1)?;
            bytes.push(kind)?;
            put_number(bytes, words)?;
        }
        None => put_number(bytes, 0)?,
    }
    put_number(bytes, locals)?;
    bytes.push(u8::from(has_result))?;
    Ok(())
}

fn put_instructions(bytes: &mut Vec<u8>, code: &[Instruction]) -> Result<(), Misspelt> {
    put_length(bytes, code.len())?;
    for instruction in code {
        bytes.push(instruction.number)?;
        bytes.extend_from_slice(&instruction.a.to_be_bytes())?;
        bytes.extend_from_slice(&instruction.b.to_be_bytes())?;
    }
    Ok(())
}

// Each position is on line 1, at a column one above the index.
fn put_positions(bytes: &mut Vec<u8>, code: &[Instruction]) -> Result<(), Misspelt> {
    let mut count = 0u32;
    for instruction in code {
        count = count.saturating_add(u32::from(instruction.has_position));
    }
    put_number(bytes, count)?;
    let mut at = 0u32;
    for instruction in code {
        let column = at.saturating_add(1);
        if instruction.has_position {
            put_number(bytes, at)?;
            put_number(bytes, 1)?;
            put_number(bytes, column)?;
        }
        at = column;
    }
    Ok(())
}

fn put_globals(bytes: &mut Vec<u8>, module: &Module<'_>) -> Result<(), Misspelt> {
    put_number(bytes, module.words)?;
    put_length(bytes, module.strings.len())?;
    for string in module.strings {
        put_string(bytes, string)?;
    }
    // no exported variables
    put_number(bytes, 0)
}

// The body and the procedures; no exported procedures; and the code.
fn put_procedures(alloc: Global, bytes: &mut Vec<u8>, module: &Module<'_>) -> Result<(), Misspelt> {
    let mut code = Vec::new(alloc);
    put_code(&mut code, module.body)?;
    put_length(bytes, module.procedures.len().saturating_add(1))?;
    put_procedure(bytes, 0, None, 0, false)?;
    for next in module.procedures {
        put_procedure(bytes, code.len(), next.param, next.locals, next.has_result)?;
        put_code(&mut code, next.code)?;
    }
    put_number(bytes, 0)?;
    put_instructions(bytes, &code)?;
    put_positions(bytes, &code)
}

/// The bytes of the module's object file, whose instruction i has the position 1:i+1, if it has one. Whether
/// they are one is for `read_obj` to tell: nothing is asked of the numbers.
pub fn assemble(alloc: Global, module: &Module<'_>) -> Result<Vec<u8>, Misspelt> {
    let mut bytes = Vec::new(alloc);
    bytes.extend_from_slice(b"OOBJ\x01\0\x01M".as_slice())?;
    // no imports, exports and uses
    bytes.extend_from_slice(b"\0\0\0\0\0\0\0\0\0\0\0\0".as_slice())?;
    put_globals(&mut bytes, module)?;
    // no links
    bytes.extend_from_slice(b"\0\0\0\0\0\0\0\0\0\0\0\0".as_slice())?;
    put_length(&mut bytes, module.types.len())?;
    for record in module.types {
        put_type(&mut bytes, record)?;
    }
    put_procedures(alloc, &mut bytes, module)?;
    Ok(bytes)
}
