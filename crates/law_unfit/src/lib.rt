//! The interfaces around a compile that are those of builds: what of the fit can fail, and what
//! cannot.
#![tactic(auto)]

ghost use Rattle.law_unfit.specs.Unfit.{BuildsFitElse};

/// A law, with nothing to run. Where the interfaces around a compile are those of valid builds, as in a
/// library, and the stored uses agree, each object among them keeps all conditions of the fit but two:
/// each type that it names is there; bases are records, and pointers point to records and arrays; open
/// arrays and results stand where they may; words and bound procedures keep their limits; and a record
/// covers its base, with its fields and numbers behind those of the base. So the first object that does
/// not fit, and that a compile is refused for, is a type that stands on itself or on a chain of more
/// than 200 others, or a record in which two visible names are the same. A type stands on such a chain
/// only where an interface that its module was compiled against is another one by now, or is gone.
pub fn builds_fit_else()
    ensures { BuildsFitElse }
{}
