//! Parts of an object file.

ghost use Rattle.std.specs.Prelude.{◌≡◌, ◌+◌, ◌<◌, ◌≤◌, ◌^◌, true, length, IfSome};
ghost use Rattle.ob_instr.specs.Parts.{most_words, slots, slots_of};
ghost use Rattle.ob_instr.specs.Spelling.{IsInstr};
ghost use Rattle.std.specs.List.{AllByRecursion};
ghost use Rattle.ob_types.specs.Spelled.{print_form};
ghost use Rattle.ob_obj.specs.Grammar.{record_parts, IsRecord};

use crate::lists::{Spelled, is_list, is_rising_list};
use ob_instr::{Instr, Opcode, Param, Position, Procedure, put_instr, take_instr};
use ob_obj::{Base, Command, Definition, Export, Link, RecordType, StringConst, Variable};
use ob_tree::Print;
use ob_types::{Aspect, Use};

/// The most words of a parameter, and of a procedure's slots and locals.
const MOST_WORDS: u32 = 1_048_576;

/// The same, as a sum.
const MOST_SLOTS: u64 = 1_048_576;

impl Spelled for Aspect {
    #[tactic(auto, unfolding(ob_types::specs::Spelled::aspect))]
    fn is_spelled(&self) -> bool {
        true
    }
}

// Any number of 32 bits.
fn is_word(n: u32) -> bool
    ensures { result ≡ true → n < 2 ^ 32 }
{
    let _ = n;
    true
}

fn are_eight(bytes: [u8; 8]) -> bool
    ensures { result ≡ true → length bytes ≡ 8 }
{
    bytes.len() == 8
}

// A print, which has eight bytes.
#[tactic(auto, unfolding(ob_types::specs::Spelled::print_form))]
fn is_print(print: &Print) -> bool
    ensures { result ≡ true → print_form.fits print.now }
{
    are_eight(print.0)
}

impl Spelled for Use {
    #[tactic(auto, unfolding(ob_types::specs::Spelled::use_form))]
    fn is_spelled(&self) -> bool {
        self.object.is_spelled() && self.aspect.is_spelled() && is_print(&self.print)
    }
}

impl Spelled for Export {
    #[tactic(auto, unfolding(ob_obj::specs::Grammar::export))]
    fn is_spelled(&self) -> bool {
        self.name.is_spelled() && self.aspect.is_spelled() && is_print(&self.print)
    }
}

impl Spelled for StringConst {
    #[tactic(auto, unfolding(ob_obj::specs::Grammar::string, ob_format::specs::Format::text32, ob_format::specs::Format::word32))]
    fn is_spelled(&self) -> bool {
        let words = self.words;
        self.text.len() < 4_294_967_296 && self.text.len() < words as usize
    }
}

impl Spelled for Variable {
    #[tactic(auto, unfolding(ob_obj::specs::Grammar::variable, ob_format::specs::Format::word32))]
    fn is_spelled(&self) -> bool {
        let _place = self.place;
        self.name.is_spelled()
    }
}

impl Spelled for Link {
    #[tactic(auto, unfolding(ob_obj::specs::Grammar::link))]
    fn is_spelled(&self) -> bool {
        self.module.is_spelled() && self.name.is_spelled()
    }
}

impl Spelled for Base {
    #[tactic(auto, unfolding(ob_obj::specs::Grammar::base_form, ob_format::specs::Format::word32))]
    fn is_spelled(&self) -> bool {
        match *self {
            Base::None => true,
            Base::Own(index) => is_word(index),
            Base::Link(index) => is_word(index),
        }
    }
}

impl Spelled for Definition {
    #[tactic(auto, unfolding(ob_obj::specs::Grammar::definition, ob_format::specs::Format::word32))]
    fn is_spelled(&self) -> bool {
        is_word(self.number) && is_word(self.procedure)
    }
}

impl Spelled for Command {
    #[tactic(auto, unfolding(ob_obj::specs::Grammar::command, ob_format::specs::Format::word32))]
    fn is_spelled(&self) -> bool {
        let _procedure = self.procedure;
        self.name.is_spelled()
    }
}

impl Spelled for Param {
    #[tactic(auto, unfolding(ob_instr::specs::Parts::param_form))]
    fn is_spelled(&self) -> bool {
        match *self {
            Param::Scalar => true,
            Param::Var => true,
            Param::VarRecord => true,
            Param::VarArray => true,
            Param::Value(words) => words <= MOST_WORDS,
            Param::ValueArray(words) => words <= MOST_WORDS,
        }
    }
}

fn slots_of(param: Param) -> u64
    ensures { result ≡ slots_of param }
{
    match param {
        Param::Scalar => 1,
        Param::Var => 1,
        Param::VarRecord => 2,
        Param::VarArray => 2,
        Param::Value(_) => 1,
        Param::ValueArray(_) => 2,
    }
}

// Whether the slots of parameters and these words are few enough.
fn has_few_slots(params: &[Param], words: u32) -> bool
    ensures { result ≡ true → slots params.now + words ≤ most_words }
{
    let mut total = u64::from(words);
    'params: for param in params {
        total += slots_of(*param);
        if total > MOST_SLOTS {
            return false;
        }
    }
    total <= MOST_SLOTS
}

impl Spelled for Procedure {
    #[tactic(auto, unfolding(ob_instr::specs::Parts::procedure, ob_instr::specs::Parts::flag, ob_format::specs::Format::word32))]
    fn is_spelled(&self) -> bool {
        let _entry = self.entry;
        is_list(&self.params) && has_few_slots(self.params.as_slice(), self.locals)
    }
}

impl Spelled for Position {
    #[tactic(auto, unfolding(ob_instr::specs::Parts::position, ob_format::specs::Format::word32))]
    fn is_spelled(&self) -> bool {
        is_word(self.at) && is_word(self.pos.line) && is_word(self.pos.col)
    }
}

// What the nine bytes of an instruction are read as.
fn read_again(i: Instr) -> Option<Instr>
    ensures { IfSome result IsInstr }
{
    take_instr(&put_instr(i))
}

fn is_same(a: i32, b: i32) -> bool
    ensures { result ≡ true → a ≡ b }
{
    a == b
}

fn is_same_opcode(a: Opcode, b: Opcode) -> bool
    ensures { result ≡ true → a ≡ b }
{
    a == b
}

// Whether the nine bytes of an instruction are read as it is, which they are where the operands
// that it does not name are 0.
#[tactic(auto, using(crate::proofs::Sorted::same_instr))]
fn is_instr(i: Instr) -> bool
    ensures { result ≡ true → IsInstr i }
{
    match read_again(i) {
        None => false,
        Some(again) => {
            is_same_opcode(again.op, i.op) && is_same(again.a, i.a) && is_same(again.b, i.b)
        }
    }
}

impl Spelled for Instr {
    #[tactic(auto, using(crate::proofs::Sorted::instr_fits))]
    fn is_spelled(&self) -> bool {
        is_instr(*self)
    }
}

// Whether each definition has a number below this one.
fn has_numbers_below(definitions: &[Definition], count: u32) -> bool
    ensures { result ≡ true → AllByRecursion (λ d. d.number < count) definitions.now }
{
    let mut rest = definitions;
    while let [first, more @ ..] = rest {
        if first.number >= count {
            return false;
        }
        rest = more;
    }
    true
}

// Whether the parts of a record type have spellings.
#[tactic(auto, unfolding(ob_obj::specs::Grammar::record_parts, ob_format::specs::Format::word32), using(crate::proofs::Sorted::definitions_total))]
fn has_record_parts(of: &RecordType) -> bool
    ensures { result ≡ true → record_parts.fits of.now }
{
    let _words = of.words;
    let _count = of.count;
    of.name.is_spelled() && of.base.is_spelled() && is_rising_list(&of.definitions)
}

#[tactic(auto, using(crate::proofs::Sorted::is_record))]
fn is_record(of: &RecordType) -> bool
    ensures { result ≡ true → IsRecord of.now }
{
    of.words <= MOST_WORDS
        && of.count <= MOST_WORDS
        && has_numbers_below(of.definitions.as_slice(), of.count)
}

impl Spelled for RecordType {
    #[tactic(auto, unfolding(ob_obj::specs::Grammar::record_type))]
    fn is_spelled(&self) -> bool {
        has_record_parts(self) && is_record(self)
    }
}
