//! What a call needs to know of a procedure.

ghost use Rattle.std.specs.Prelude.{◌≡◌, ◌≤◌};
ghost use Rattle.ob_instr.specs.Parts.{slots, most_words};
ghost use Rattle.ob_machine_image.specs.Copies.{is_copied, has_copies};

use ob_instr::{Param, Procedure};
use std::marker::Model;

// What a call makes of its arguments.
#[derive(Clone, Copy, Drop)]
struct Shape {
    // how many words they have
    words: u32,
    // whether one of them is copied
    copies: bool,
}

/// A procedure of a module in the machine, and what a call makes of its arguments, which is found where
/// the module is entered. Contracts see it as the procedure.
#[derive(Drop)]
pub struct Callable {
    procedure: Procedure,
    shape: Shape,
}

impl Model for Callable {
    ghost use Rattle.std.specs.Prelude.{◌≡◌};
    ghost use Rattle.ob_instr.specs.declared.procedure.Procedure.{Procedure as Called};
    ghost use Rattle.ob_instr.specs.Parts.{slots};
    ghost use Rattle.ob_machine_image.specs.Copies.{has_copies};

    ghost Value = { Called };

    ghost view = { λ c. c.procedure };

    ghost invariant = { λ c. (c.shape.words ≡ slots c.procedure.params) × (c.shape.copies ≡ has_copies c.procedure.params) };
}

// Whether a call copies a parameter's argument.
fn is_copied(param: Param) -> bool
    ensures { result ≡ is_copied param }
{
    match param {
        Param::Scalar | Param::Var | Param::VarRecord | Param::VarArray => false,
        Param::Value(_) | Param::ValueArray(_) => true,
    }
}

// What a call makes of the arguments of these parameters.
fn shape_of(params: &[Param]) -> Shape
    requires { slots params.now ≤ most_words }
    ensures words { result.words ≡ slots params.now }
    ensures copies { result.copies ≡ has_copies params.now }
{
    let mut words = 0;
    let mut copies = false;
    let mut rest = params;
    while let [param, more @ ..] = rest {
        words += param.slots();
        copies = copies || is_copied(*param);
        rest = more;
    }
    Shape { words, copies }
}

impl Callable {
    /// A procedure of a module that is entered.
    pub fn new(procedure: Procedure) -> Callable
        requires { slots procedure.params ≤ most_words }
        ensures { result ≡ procedure }
    {
        let shape = shape_of(procedure.params.as_slice());
        Callable { procedure, shape }
    }

    /// The index of its first instruction.
    pub fn entry(&self) -> u32
        ensures { result ≡ self.now.entry }
    {
        self.procedure.entry
    }

    /// Its parameters, the receiver first.
    pub fn params(&self) -> &[Param]
        ensures { result.now ≡ self.now.params }
    {
        self.procedure.params.as_slice()
    }

    /// How many words a call of it has for its arguments.
    pub fn slots(&self) -> u32
        ensures { result ≡ slots self.now.params }
    {
        self.shape.words
    }

    /// Whether a call of it copies an argument.
    pub fn copies(&self) -> bool
        ensures { result ≡ has_copies self.now.params }
    {
        self.shape.copies
    }

    /// The words of its locals.
    pub fn locals(&self) -> u32
        ensures { result ≡ self.now.locals }
    {
        self.procedure.locals
    }

    /// Whether a call of it has a result.
    pub fn has_result(&self) -> bool
        ensures { result ≡ self.now.has_result }
    {
        self.procedure.has_result
    }
}
