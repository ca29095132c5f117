//! The grammar as a datum, what a text is read as by it, and what holds of that reading. There is
//! nothing to run here but what makes a fault.
#![tactic(auto)]

ghost use Rattle.std.specs.Prelude.{ℕ};
ghost use Rattle.ob_parse_grammar.specs.Phrase.{Tokens};
ghost use Rattle.ob_parse_grammar.specs.Grammar.{reads};
ghost use Rattle.ob_parse_grammar.specs.Declarations.{«module»};
ghost use Rattle.ob_parse_grammar.specs.Laws.{IsVerdict, IsReadWhole};

mod fault;

pub use fault::ParseFault;

/// A law, with nothing to run: what the reading of a module within any number of levels says of
/// any tokens. What it finds is spelled by the front that it took. A token that it finds wrong
/// is the first that no module goes on with. One that is too deep stands behind a front that some
/// module begins with, and no module within these levels goes on with it and the symbol behind
/// it. And tokens that spell a module are read as that one.
pub fn reading_is_exact()
    ensures verdict { (d : ℕ) (ts : Tokens) → IsVerdict d ts (reads d «module» ts) }
    ensures only { (d : ℕ) (ts : Tokens) → IsReadWhole d ts (reads d «module» ts) }
{}
