//! The law of simulation: what the machine does with a module's code is what the module means.
//!
//! What is well typed is of the forms for which the law of simulation is proved.
//!
//! An example of the law of simulation, from a module's tree to the text that the machine writes.
#![tactic(auto)]

ghost use Rattle.law_simulation.specs.Simulates.{CommandsSimulate, BodiesSimulate};
ghost use Rattle.law_simulation.specs.Laws.{StatementsAreIn, ProceduresAreIn, BodiesAreIn};
ghost use Rattle.law_simulation.specs.Matching.{TypesMatch};
ghost use Rattle.law_simulation.specs.Sum.{Example};

/// A law, with nothing to run. Where an image has each procedure of a program and the descriptor of
/// each record type with those of its bases and its procedure table, and tells the procedures that
/// variables may have by their numbers (`specs/Simulates.antt`: `ImageStands`), and the procedures
/// are of the forms that `specs/Slice.antt` has (`AllIn`), and words stand for a state of the
/// meaning: the run of a command, or of a module's body, by the table ends as its meaning ends, by
/// the same trap or spent turns at the same place, and the words left stand for the state left, with
/// the same variables, objects, turns and text.
pub fn simulation()
    ensures commands { CommandsSimulate }
    ensures bodies { BodiesSimulate }
{}

/// A law, with nothing to run. Well typed statements (`law_simulation_relation/specs/Typed.antt`) are of the
/// forms that the law of simulation has (`law_simulation/specs/Slice.antt`), and so are the bodies of
/// all procedures that stand in an image as that law asks, and those of modules.
pub fn well_typed_is_in()
    ensures statements { StatementsAreIn }
    ensures procedures { ProceduresAreIn }
    ensures bodies { BodiesAreIn }
{}

/// A law, with nothing to run. The module of `specs/Sum.antt` has a variable, a procedure with a
/// parameter by VAR and one by value, and a command with a loop, calls and output. Its image and the
/// words at its start meet all premises of the law of simulation, so the machine's run of the command
/// ends, and has written what the meaning of the tree writes: 5.
pub fn example()
    ensures { Example }
{}

/// A law, with nothing to run. Two procedure types of `specs/Matching.antt` differ in no more than
/// the names by which the parameters of their parameter's type are written, and are one form; one
/// with its parameter by VAR is another.
pub fn types_match()
    ensures { TypesMatch }
{}
