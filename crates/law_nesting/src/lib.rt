//! How many levels each token of a module is inside of, and what it says of a token that it is
//! too deep. There is nothing to run here.
#![tactic(auto)]

ghost use Rattle.std.specs.Prelude.{◌≡◌, ℕ, List};
ghost use Rattle.ob_tree.specs.declared.decl.Module.{Module};
ghost use Rattle.ob_parse_grammar.specs.Phrase.{Tokens};
ghost use Rattle.ob_parse_grammar.specs.Reading.{Fails, Deep, Wrong};
ghost use Rattle.ob_parse_grammar.specs.Grammar.{reads};
ghost use Rattle.ob_parse_grammar.specs.Declarations.{«module»};
ghost use Rattle.law_nesting.specs.Levels.{Placed, tokens_of, IsPlaced, NextGoesOn, IsFirstTooDeep, NoneIsEarlier, IsInside, IsSpelled, HasPlaces};

/// A law, with nothing to run. Where the reading of a module within any number of levels finds a
/// token too deep, some module, of more levels, begins with the front and this very token: so the
/// token is at fault for its depth alone. Of some module that begins so it is the first token that
/// is inside more levels than these; and none before it is, in any module that begins so.
pub fn too_deep_alone()
    ensures next { (d : ℕ) (ts r : Tokens) → reads d «module» ts ≡ Fails Deep r → NextGoesOn ts r }
    ensures first { (d : ℕ) (ts r : Tokens) → reads d «module» ts ≡ Fails Deep r → IsFirstTooDeep d ts r }
    ensures before { (d : ℕ) (ts r : Tokens) → reads d «module» ts ≡ Fails Deep r → NoneIsEarlier d ts r }
{}

/// A law, with nothing to run. Where the reading of a module within any number of levels finds a
/// token wrong, some module begins with what is before it, and of that each token is inside these
/// levels: so none before it is too deep.
pub fn wrong_alone()
    ensures { (d : ℕ) (ts r : Tokens) → reads d «module» ts ≡ Fails Wrong r → IsInside d ts r }
{}

/// A law, with nothing to run. Tokens with their places in a module spell it. Tokens that spell a
/// module within d levels have such places, each inside d levels at most. And the tokens of a
/// module have no other places.
pub fn places_are_levels()
    ensures spelled { (j : ℕ) (m : Module) → IsSpelled j m }
    ensures placed { (d : ℕ) (m : Module) → HasPlaces d m }
    ensures once { (i j : ℕ) (m n : Module) (us vs : List Placed) → IsPlaced i m us → IsPlaced j n vs → tokens_of us ≡ tokens_of vs → us ≡ vs }
{}
