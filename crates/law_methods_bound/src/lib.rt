//! What the rules see to of bound procedures: those that a record introduces are procedures of the
//! module.
//!
//! The bound procedures that records introduce are there: in a checked module each is one of the
//! module's procedures, bound to its record, and in a program that has the module it is a method.
#![tactic(auto)]

ghost use Rattle.law_methods_bound.specs.Bound.{ArraysHaveElements, MethodsAreThere};
ghost use Rattle.law_methods_bound.specs.Methods.{IntroducedAreMethods};
ghost use Rattle.law_methods_bound.specs.There.{MethodsAreIntroduced};
ghost use Rattle.law_methods_bound.specs.Matched.{BindingsMatch, HeadingsAreJudged};
ghost use Rattle.law_methods_bound.specs.Procedures.{ProceduresMatch};

/// A law, with nothing to run: a bound procedure that a record of a checked module introduces is one
/// of the module's procedures, whose parameters are the receiver and then those of its signature, or
/// its heading breaks a rule, and then its signature says nothing.
pub fn methods_are_there()
    ensures { MethodsAreThere }
{}

/// A law, with nothing to run: each array of a checked module has elements.
pub fn arrays_have_elements()
    ensures { ArraysHaveElements }
{}

/// A law, with nothing to run: a bound procedure that a record of a checked module introduces is one
/// of the module's procedures, which is bound to the record, is named by both, receives the record,
/// and takes and gives what the description of the record says.
pub fn methods_are_introduced()
    ensures { MethodsAreIntroduced }
{}

/// A law, with nothing to run: such a procedure of a module of a program is a method of the program.
pub fn introduced_are_methods()
    ensures { IntroducedAreMethods }
{}

/// A law, with nothing to run. Where the bound procedures of a module have their parameters and nothing
/// is broken, each whose method is introduced by another record than its own matches that method, and
/// has a receiver of its kind, by what was known of the types where it was bound.
pub fn bindings_match()
    ensures { BindingsMatch }
{}

/// A law, with nothing to run: the headings of a checked module that count for its bound procedures have
/// their parameters, and nothing that they bind is broken, where the interfaces hold the bases of the
/// pointers that they show.
pub fn headings_are_judged()
    ensures { HeadingsAreJudged }
{}

/// A law, with nothing to run: each bound procedure of a checked module is that of a heading, with its
/// parameters behind the receiver, and matches the method of its family where another record introduces
/// that.
pub fn procedures_match()
    ensures { ProceduresMatch }
{}
