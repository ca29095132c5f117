//! The 71 operations of the machine, and the operands that each names.

ghost use Rattle.std.specs.Prelude.{◌≡◌};
ghost use Rattle.ob_instr.specs.Spelling.{operands};

/// The operations of the machine, each with the number that stands for it in an object file.
#[derive(Clone, Copy, Debug, PartialEq, Eq)]
pub enum Opcode {
    Int = 1,
    Local,
    Global,
    ExtVar,
    Load,
    Store,
    Copy,
    CopyRec,
    Offset,
    Index,
    IndexO,
    Deref,
    Tagged,
    Lenned,
    Tag,
    IsP,
    IsR,
    GuardAt,
    GuardR,
    Drop,
    Add,
    Sub,
    Mul,
    Div,
    Mod,
    Neg,
    Abs,
    Eq,
    Ne,
    Lt,
    Le,
    Gt,
    Ge,
    Not,
    Union,
    Minus,
    Meet,
    Xor,
    Compl,
    Bit,
    Bits,
    In,
    Incl,
    Excl,
    Range,
    Chr,
    Odd,
    Cap,
    Ash,
    Inc,
    Dec,
    StrRel,
    StrCopy,
    Jump,
    JumpF,
    Trap,
    Assert,
    NewR,
    NewA,
    NewO,
    Proc,
    ProcX,
    Call,
    CallX,
    CallV,
    CallP,
    CallR,
    CallS,
    Ret,
    RetV,
    Out,
}

/// The operations by number, that of number 1 first.
pub const OPCODES: [Opcode; 71] = [
    Opcode::Int,
    Opcode::Local,
    Opcode::Global,
    Opcode::ExtVar,
    Opcode::Load,
    Opcode::Store,
    Opcode::Copy,
    Opcode::CopyRec,
    Opcode::Offset,
    Opcode::Index,
    Opcode::IndexO,
    Opcode::Deref,
    Opcode::Tagged,
    Opcode::Lenned,
    Opcode::Tag,
    Opcode::IsP,
    Opcode::IsR,
    Opcode::GuardAt,
    Opcode::GuardR,
    Opcode::Drop,
    Opcode::Add,
    Opcode::Sub,
    Opcode::Mul,
    Opcode::Div,
    Opcode::Mod,
    Opcode::Neg,
    Opcode::Abs,
    Opcode::Eq,
    Opcode::Ne,
    Opcode::Lt,
    Opcode::Le,
    Opcode::Gt,
    Opcode::Ge,
    Opcode::Not,
    Opcode::Union,
    Opcode::Minus,
    Opcode::Meet,
    Opcode::Xor,
    Opcode::Compl,
    Opcode::Bit,
    Opcode::Bits,
    Opcode::In,
    Opcode::Incl,
    Opcode::Excl,
    Opcode::Range,
    Opcode::Chr,
    Opcode::Odd,
    Opcode::Cap,
    Opcode::Ash,
    Opcode::Inc,
    Opcode::Dec,
    Opcode::StrRel,
    Opcode::StrCopy,
    Opcode::Jump,
    Opcode::JumpF,
    Opcode::Trap,
    Opcode::Assert,
    Opcode::NewR,
    Opcode::NewA,
    Opcode::NewO,
    Opcode::Proc,
    Opcode::ProcX,
    Opcode::Call,
    Opcode::CallX,
    Opcode::CallV,
    Opcode::CallP,
    Opcode::CallR,
    Opcode::CallS,
    Opcode::Ret,
    Opcode::RetV,
    Opcode::Out,
];

/// How many operands the operation names.
pub fn operands_of(op: Opcode) -> u8
    ensures { result ≡ operands op }
{
    match op {
        Opcode::CopyRec
        | Opcode::Index
        | Opcode::Trap
        | Opcode::CallP
        | Opcode::CallR
        | Opcode::CallS => 2,
        Opcode::Load
        | Opcode::Store
        | Opcode::Deref
        | Opcode::Tagged
        | Opcode::Lenned
        | Opcode::Drop
        | Opcode::Div
        | Opcode::Mod
        | Opcode::Eq
        | Opcode::Ne
        | Opcode::Lt
        | Opcode::Le
        | Opcode::Gt
        | Opcode::Ge
        | Opcode::Not
        | Opcode::Union
        | Opcode::Minus
        | Opcode::Meet
        | Opcode::Xor
        | Opcode::Compl
        | Opcode::Bit
        | Opcode::Bits
        | Opcode::In
        | Opcode::Incl
        | Opcode::Excl
        | Opcode::Chr
        | Opcode::Odd
        | Opcode::Cap
        | Opcode::Ash
        | Opcode::StrCopy
        | Opcode::Ret
        | Opcode::RetV => 0,
        _ => 1,
    }
}
