//! That what is compiled stands in the machine as the law of simulation asks: the code of each tree, the positions, the
//! procedures and the record types.
//!
//! What is well typed is as the code wants its parts, where the names in it are there.
#![tactic(auto)]

ghost use Rattle.law_image_code.specs.Laws.{TypedStatementsFit};

/// A law, with nothing to run. Well typed statements (`law_simulation_relation/specs/Typed.antt`) fit what the
/// code rests on (`law_image_code/specs/Fits.antt`), where the variables of the procedure that they
/// name are there (`specs/There.antt`) and the names of the program stand (`specs/Laws.antt`).
pub fn well_typed_fits()
    ensures { TypedStatementsFit }
{}
