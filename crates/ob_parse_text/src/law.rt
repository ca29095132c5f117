//! What holds of every answer. There is nothing to run here.

ghost use Rattle.std.specs.Prelude.{◌≡◌, map, Result, Ok};
ghost use Rattle.ob_tree.specs.declared.decl.Module.{Module};
ghost use Rattle.ob_scan.specs.Scanning.{Input, lexeme_of, Scans};
ghost use Rattle.ob_parse_grammar.specs.Phrase.{Tokens};
ghost use Rattle.ob_parse_text.specs.declared.fault.TextFault.{TextFault};
ghost use Rattle.ob_parse_text.specs.Answers.{AreOne};

/// A law, with nothing to run. Any two lists of tokens that scanning gives of one text have the
/// same symbols, texts and places. And a text has one answer: two that the clause of `parse_text`
/// allows, of which none is Memory, are the same.
pub fn answers_are_one()
    ensures tokens { (i : Input) (ts us : Tokens) → Scans i (Ok ts) → Scans i (Ok us) → map lexeme_of ts ≡ map lexeme_of us }
    ensures answer { (i : Input) (r q : Result Module TextFault) → AreOne i r q }
{}
