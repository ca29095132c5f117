//! What the rules accept is well typed: the law from the rules to what code and meaning ask of a
//! checked tree.
#![tactic(auto)]

ghost use Rattle.law_typing.specs.Laws.{ExpressionsFit, DesignatorsFit, StatementsFit, SurroundingsFit};

/// A law, with nothing to run. Where the types, variables, constants and procedures that the rules
/// know around a part of a text are so in a program (`specs/Known.antt`: `IsScoped`): an expression
/// of the grammar that keeps the rules is well typed (`specs/Kept.antt`), and of each scalar type
/// that it is assignable to; a designator that keeps them comes to what is well typed
/// (`specs/Meant.antt`); statements that keep them are well typed, where the procedure has the
/// variables that FOR and CASE keep (`specs/Bodies.antt`). And what is known around is so where the map
/// of types is formed and steady, and the declared names are so one by one
/// (`specs/Surrounded.antt`).
pub fn well_typed()
    ensures expressions { ExpressionsFit }
    ensures designators { DesignatorsFit }
    ensures statements { StatementsFit }
    ensures surroundings { SurroundingsFit }
{}
