//! Constants and lengths of arrays are in range.
#![tactic(auto)]

ghost use Rattle.law_spelling_values.specs.Left.{LeftAreWritten};
ghost use Rattle.law_spelling_values.specs.Laws.{SpelledAreShown, ModulesAreInRange, CompiledAreInRange};

/// A law, with nothing to run: the constants and the lengths of arrays that interfaces show are
/// constants, where each interface has a spelling; and so are those of a module that is read,
/// imports others than itself, and keeps the rules against such interfaces, as each one that compiles
/// does.
pub fn ranges()
    ensures shown { SpelledAreShown }
    ensures modules { ModulesAreInRange }
    ensures compiled { CompiledAreInRange }
{}

/// A law, with nothing to run: what compiles against interfaces that have a spelling is written,
/// where what is left to be seen of its module is so (`specs/Left.antt`): that names of types are
/// short, chains of types end, and bases stand before their extensions.
pub fn written()
    ensures { LeftAreWritten }
{}
