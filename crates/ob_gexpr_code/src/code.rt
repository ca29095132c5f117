//! The code so far: instructions, positions and links.

ghost use Rattle.std.specs.Prelude.{◌≡◌, ◌+◌, ◌≤◌, ◌<◌, ◌^◌, ◌∷◌, ◌++◌, [], length, pos, OnOk, IfOk, Some, None};
ghost use Rattle.ob_scheme.specs.Lines.{Number, StringHere, OtherVariable, OtherProcedure, OtherType, none, count, line_of};
ghost use Rattle.ob_scheme.specs.Numbers.{instr, same_type, number_among, with_position};
ghost use Rattle.ob_scheme.specs.Coded.{Coded, nothing_coded, appended, with_instr, with_type};
ghost use Rattle.ob_gexpr_code.specs.Parts.{parts_of};

use crate::fault::CodeFault;
use crate::links::Links;
use crate::type_links::TypeLinks;
use ob_instr::{Instr, Opcode, Position};
use ob_obj::{Link, StringConst};
use ob_tree::{List, Name, Pos, QName, Text};
use std::alloc::Global;
use std::marker::Model;

/// The most instructions that are counted. The limit of a module's code is lower, and is asked before.
const MOST: usize = 16_777_216;

/// The instructions, positions, strings and links so far. After a fault it is given up.
#[derive(Drop)]
pub struct Code {
    instrs: Vec<Instr>,
    positions: List<Position>,
    strings: List<StringConst>,
    next: u32,
    variables: Links,
    procedures: Links,
    types: TypeLinks,
}

/// The parts of the code of a module.
#[derive(Drop)]
pub struct CodeParts {
    pub instrs: List<Instr>,
    /// The positions of the instructions that can trap or spend a turn.
    pub positions: List<Position>,
    /// The strings, in the order of their places behind the variables.
    pub strings: List<StringConst>,
    pub variables: List<Link>,
    pub procedures: List<Link>,
    pub types: List<QName>,
}

impl Model for Code {
    ghost use Rattle.ob_scheme.specs.Coded.{Coded};

    ghost Value = { Coded };

    ghost view = { λ c. record { instrs = c.instrs.items; positions = c.positions; named = record { strings = c.strings; next = c.next; variables = c.variables; procedures = c.procedures; types = c.types } } };
}

fn put_instr(instrs: &mut Vec<Instr>, op: Opcode, a: i32, b: i32) -> Result<(), CodeFault>
    ensures { OnOk result (instrs.new.items ≡ instrs.old.items ++ instr op a b ∷ []) }
{
    match instrs.push(Instr { op, a, b }) {
        Ok(()) => Ok(()),
        Err(_) => Err(CodeFault::Memory),
    }
}

fn put_position(positions: &mut List<Position>, at: u32, pos: Option<Pos>) -> Result<(), CodeFault>
    ensures { OnOk result (positions.new ≡ positions.old ++ with_position pos at []) }
{
    match pos {
        None => Ok(()),
        Some(pos) => match positions.push(Position { at, pos }) {
            Ok(()) => Ok(()),
            Err(_) => Err(CodeFault::Memory),
        },
    }
}

fn put_text(strings: &mut List<StringConst>, text: &Text, words: u32) -> Result<(), CodeFault>
    ensures { OnOk result (strings.new ≡ strings.old ++ record { text = text.now; words = words } ∷ []) }
{
    let Ok(text) = text.clone() else {
        return Err(CodeFault::Memory);
    };
    match strings.push(StringConst { text, words }) {
        Ok(()) => Ok(()),
        Err(_) => Err(CodeFault::Memory),
    }
}

// The place of a string among the globals, and behind it the next one's.
fn take_words(next: u32, words: u32) -> Result<u32, CodeFault>
    ensures is { IfOk result (λ n. n ≡ next + words) }
    ensures within { IfOk result (λ n. next < 2 ^ 31) }
{
    if next >= 1 << 31 || words >= 1 << 31 {
        return Err(CodeFault::Beyond);
    }
    Ok(next + words)
}

impl Code {
    /// No code, in a module whose variables have so many words. Takes no memory.
    pub fn new(alloc: Global, words: u32) -> Code
        ensures { result ≡ nothing_coded words }
    {
        Code {
            instrs: Vec::new(alloc),
            positions: List::new(alloc),
            strings: List::new(alloc),
            next: words,
            variables: Links::new(alloc),
            procedures: Links::new(alloc),
            types: TypeLinks::new(alloc),
        }
    }

    /// What the parts of the code take their memory from.
    pub fn allocator(&self) -> Global {
        *self.instrs.allocator()
    }

    /// The index of the next instruction.
    pub fn place(&self) -> usize
        ensures { result ≡ length self.now.instrs }
    {
        self.instrs.len()
    }

    /// One more instruction, with its position where it can trap or spend a turn.
    pub fn put(&mut self, op: Opcode, a: i32, b: i32, at: Option<Pos>) -> Result<(), CodeFault>
        ensures { OnOk result (self.new ≡ appended self.old (line_of op (Number a) (Number b) at ∷ [])) }
    {
        let place = self.instrs.len();
        if place >= MOST {
            return Err(CodeFault::Beyond);
        }
        put_position(&mut self.positions, place as u32, at)?;
        put_instr(&mut self.instrs, op, a, b)?;
        Ok(())
    }

    /// One more instruction, which names a variable of another module.
    pub fn put_variable(&mut self, unit: &Name, name: &Name) -> Result<(), CodeFault>
        ensures { OnOk result (self.new ≡ appended self.old (line_of Opcode.ExtVar (OtherVariable unit.now name.now) none None ∷ [])) }
    {
        if self.instrs.len() >= MOST {
            return Err(CodeFault::Beyond);
        }
        let number = self.variables.number(unit, name)?;
        put_instr(&mut self.instrs, Opcode::ExtVar, number as i32, 0)?;
        Ok(())
    }

    /// One more instruction, which names a record type of another module, counted behind so many own ones.
    pub fn put_type(
        &mut self,
        op: Opcode,
        own: u32,
        name: &QName,
        b: i32,
        at: Option<Pos>,
    ) -> Result<(), CodeFault>
        requires { own < 2 ^ 30 }
        ensures { OnOk result (self.new ≡ appended self.old (line_of op (OtherType own name.now) (Number b) at ∷ [])) }
    {
        let place = self.instrs.len();
        if place >= MOST {
            return Err(CodeFault::Beyond);
        }
        let number = self.types.number(name)?;
        put_position(&mut self.positions, place as u32, at)?;
        put_instr(&mut self.instrs, op, (own + number) as i32, b)?;
        Ok(())
    }

    /// One more instruction, with its position, which names behind another operand a record type
    /// of another module, counted behind so many own ones.
    pub fn put_type_behind(
        &mut self,
        op: Opcode,
        a: i32,
        own: u32,
        name: &QName,
        at: Pos,
    ) -> Result<(), CodeFault>
        requires { own < 2 ^ 30 }
        ensures { OnOk result (self.new ≡ appended self.old (line_of op (Number a) (OtherType own name.now) (Some at) ∷ [])) }
    {
        let place = self.instrs.len();
        if place >= MOST {
            return Err(CodeFault::Beyond);
        }
        let number = self.types.number(name)?;
        put_position(&mut self.positions, place as u32, Some(at))?;
        put_instr(&mut self.instrs, op, a, (own + number) as i32)?;
        Ok(())
    }

    /// One more instruction, which names a procedure of another module.
    pub fn put_procedure(
        &mut self,
        op: Opcode,
        unit: &Name,
        name: &Name,
        at: Option<Pos>,
    ) -> Result<(), CodeFault>
        ensures { OnOk result (self.new ≡ appended self.old (line_of op (OtherProcedure unit.now name.now) none at ∷ [])) }
    {
        let place = self.instrs.len();
        if place >= MOST {
            return Err(CodeFault::Beyond);
        }
        let number = self.procedures.number(unit, name)?;
        put_position(&mut self.positions, place as u32, at)?;
        put_instr(&mut self.instrs, op, number as i32, 0)?;
        Ok(())
    }

    /// The instruction at an index becomes a jump to the next one that will be put.
    pub fn aim(&mut self, at: usize, op: Opcode) -> Result<(), CodeFault>
        ensures { OnOk result (self.new ≡ with_instr self.old at (instr op (pos (length self.old.instrs)) (pos 0))) }
    {
        let target = self.instrs.len();
        if target > MOST {
            return Err(CodeFault::Beyond);
        }
        if at >= target {
            return Err(CodeFault::Beyond);
        }
        self.instrs[at] = Instr {
            op,
            a: target as i32,
            b: 0,
        };
        Ok(())
    }

    /// One more instruction, for a string of so many words, which is laid down behind the others.
    pub fn put_string(&mut self, text: &Text, words: u32) -> Result<(), CodeFault>
        ensures { OnOk result (self.new ≡ appended self.old (line_of Opcode.Global (StringHere text.now words) none None ∷ [])) }
    {
        if self.instrs.len() >= MOST {
            return Err(CodeFault::Beyond);
        }
        let place = self.next;
        let next = take_words(place, words)?;
        put_text(&mut self.strings, text, words)?;
        put_instr(&mut self.instrs, Opcode::Global, place as i32, 0)?;
        self.next = next;
        Ok(())
    }

    /// A record type of another module stands among the links from then on, and has that number.
    pub fn name_type(&mut self, name: &QName) -> Result<u32, CodeFault>
        ensures number { IfOk result (λ n. n ≡ number_among same_type self.old.named.types name.now) }
        ensures types { OnOk result (self.new ≡ with_type self.old name.now) }
    {
        self.types.number(name)
    }

    /// The number that a record type of another module has, or would have as the next one. Takes
    /// no memory.
    pub fn type_number(&self, name: &QName) -> usize
        ensures { result ≡ number_among same_type self.now.named.types name.now }
    {
        self.types.number_of(name)
    }

    /// The parts of the code.
    pub fn finish(self, alloc: Global) -> Result<CodeParts, CodeFault>
        ensures { IfOk result (λ parts. parts ≡ parts_of self) }
    {
        let Code {
            instrs,
            positions,
            strings,
            variables,
            procedures,
            types,
            ..
        } = self;
        let instrs = List::from_slice(alloc, instrs.as_slice())?;
        Ok(CodeParts {
            instrs,
            positions,
            strings,
            variables: variables.into_list(),
            procedures: procedures.into_list(),
            types: types.into_list(),
        })
    }
}
