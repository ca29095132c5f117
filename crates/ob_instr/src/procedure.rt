//! The row of a procedure in an object file.

ghost use Rattle.std.specs.Prelude.{◌≡◌, ◌+◌, OnOk, nat_le};
ghost use Rattle.ob_format.specs.Format.{Adds, Gives, Finds};
ghost use Rattle.ob_instr.specs.Parts.{most_words, slots, slots_of, param_form, param_of, param_pair, flag, procedure, position};
ghost use Rattle.ob_instr.specs.PartLaws.{param_exact, procedure_exact, position_exact};

use ob_format::{Fault, Wire, put_bytes};
use ob_tree::{List, Pos};
use std::alloc::{AllocError, Global};

/// How a call passes a parameter: the slots that it has in the new activation.
#[derive(Clone, Copy, PartialEq, Eq, Drop)]
pub enum Param {
    /// One slot with a scalar value; a pointer receiver too.
    Scalar,
    /// One slot with the address of a variable that is neither a record nor an open array.
    Var,
    /// Two slots with a record's address and its tag; a record receiver too.
    VarRecord,
    /// Two slots with an open array's address and its length.
    VarArray,
    /// One slot with the address of the copy of a record or array of so many words.
    Value(u32),
    /// Two slots with the address of the copy of an open array and its length; an element has so
    /// many words.
    ValueArray(u32),
}

/// A procedure of a module.
#[derive(Drop)]
pub struct Procedure {
    /// The index of its first instruction.
    pub entry: u32,
    /// Its parameters, the receiver first.
    pub params: List<Param>,
    /// The words of its locals.
    pub locals: u32,
    /// Whether a call of it has a result.
    pub has_result: bool,
}

/// The position in the source of an instruction that can trap or spend a turn.
#[derive(Clone, Copy, PartialEq, Eq, Drop)]
pub struct Position {
    /// The instruction's index in its module's code.
    pub at: u32,
    pub pos: Pos,
}

/// The most words of a type, of a parameter, and of a procedure's slots and locals together.
pub const MOST_WORDS: u32 = 1_048_576;

fn param_from(kind: u8, words: u32) -> Option<Param>
    ensures { result ≡ param_of kind words }
{
    match (kind, words) {
        (0, 0) => Some(Param::Scalar),
        (1, 0) => Some(Param::Var),
        (2, 0) => Some(Param::VarRecord),
        (3, 0) => Some(Param::VarArray),
        (4, _) if words <= MOST_WORDS => Some(Param::Value(words)),
        (5, _) if words <= MOST_WORDS => Some(Param::ValueArray(words)),
        _ => None,
    }
}

impl Param {
    /// How many slots the parameter has.
    pub fn slots(&self) -> u32
        ensures { result ≡ slots_of self.now }
    {
        match self {
            Param::Scalar | Param::Var | Param::Value(_) => 1,
            Param::VarRecord | Param::VarArray | Param::ValueArray(_) => 2,
        }
    }

    fn parts(&self) -> (u8, u32)
        ensures { result ≡ param_pair self.now }
    {
        match self {
            Param::Scalar => (0, 0),
            Param::Var => (1, 0),
            Param::VarRecord => (2, 0),
            Param::VarArray => (3, 0),
            Param::Value(words) => (4, *words),
            Param::ValueArray(words) => (5, *words),
        }
    }
}

impl Wire for Param {
    ghost form = { param_form };

    #[tactic(auto, unfolding(crate::specs::Parts::param_form, ob_format::specs::Format::parsed_at, ob_format::specs::Format::pair_at))]
    fn read(alloc: Global, bytes: &[u8]) -> Result<(Param, &[u8]), Fault> {
        let (kind, rest) = u8::read(alloc, bytes)?;
        let (words, rest) = u32::read(alloc, rest)?;
        match param_from(kind, words) {
            Some(param) => Ok((param, rest)),
            None => Err(Fault::Damaged),
        }
    }

    #[tactic(auto, unfolding(crate::specs::Parts::param_form, ob_format::specs::Format::byte, ob_format::specs::Format::word32), using(ob_format::specs::Exact::then_adds))]
    fn write(&self, out: &mut Vec<u8>) -> Result<(), AllocError> {
        let (kind, words) = self.parts();
        kind.write(out)?;
        words.write(out)
    }

    ghost exact = { param_exact };
}

#[tactic(auto, unfolding(crate::specs::Parts::flag, ob_format::specs::Format::parsed_at, ob_format::specs::Format::byte, ob_format::specs::Format::byte_at))]
fn read_flag(bytes: &[u8]) -> Result<(bool, &[u8]), Fault>
    ensures { Gives (λ x. (x.0, x.1.now)) result (flag.take bytes.now) }
{
    match bytes {
        [0, rest @ ..] => Ok((false, rest)),
        [1, rest @ ..] => Ok((true, rest)),
        _ => Err(Fault::Damaged),
    }
}

#[tactic(auto, unfolding(crate::specs::Parts::flag, ob_format::specs::Format::byte))]
fn write_flag(value: bool, out: &mut Vec<u8>) -> Result<(), AllocError>
    ensures { OnOk result (Adds out.old.items out.new.items (flag.spell value)) }
{
    put_bytes(out, &[if value { 1 } else { 0 }])
}

/// The slots and the words of the locals are together at most as many as a procedure may have.
fn has_room(params: &[Param], locals: u32) -> bool
    ensures { result ≡ nat_le (slots params.now + locals) most_words }
{
    let mut words = locals;
    let mut rest = params;
    while let [param, more @ ..] = rest {
        if words > MOST_WORDS {
            return false;
        }
        words += param.slots();
        rest = more;
    }
    words <= MOST_WORDS
}

impl Wire for Procedure {
    ghost form = { procedure };

    #[tactic(auto, unfolding(crate::specs::Parts::procedure, ob_format::specs::Format::such_that_at, ob_format::specs::Format::made_at, ob_format::specs::Format::pair_at))]
    fn read(alloc: Global, bytes: &[u8]) -> Result<(Procedure, &[u8]), Fault> {
        let (entry, rest) = u32::read(alloc, bytes)?;
        let (params, rest) = List::<Param>::read(alloc, rest)?;
        let (locals, rest) = u32::read(alloc, rest)?;
        let (has_result, rest) = read_flag(rest)?;
        if !has_room(params.as_slice(), locals) {
            return Err(Fault::Damaged);
        }
        let found = Procedure {
            entry,
            params,
            locals,
            has_result,
        };
        Ok((found, rest))
    }

    #[tactic(auto, unfolding(crate::specs::Parts::procedure), using(ob_format::specs::Exact::then_adds))]
    fn write(&self, out: &mut Vec<u8>) -> Result<(), AllocError> {
        self.entry.write(out)?;
        self.params.write(out)?;
        self.locals.write(out)?;
        write_flag(self.has_result, out)
    }

    ghost exact = { procedure_exact };
}

impl Wire for Position {
    ghost form = { position };

    #[tactic(auto, unfolding(crate::specs::Parts::position, ob_format::specs::Format::made_at, ob_format::specs::Format::pair_at))]
    fn read(alloc: Global, bytes: &[u8]) -> Result<(Position, &[u8]), Fault> {
        let (at, rest) = u32::read(alloc, bytes)?;
        let (line, rest) = u32::read(alloc, rest)?;
        let (col, rest) = u32::read(alloc, rest)?;
        let pos = Pos { line, col };
        Ok((Position { at, pos }, rest))
    }

    #[tactic(auto, unfolding(crate::specs::Parts::position), using(ob_format::specs::Exact::then_adds))]
    fn write(&self, out: &mut Vec<u8>) -> Result<(), AllocError> {
        self.at.write(out)?;
        self.pos.line.write(out)?;
        self.pos.col.write(out)
    }

    ghost exact = { position_exact };
}
