//! Chains of types end: the maps of the types of checked modules are grounded, or steady.
#![tactic(auto)]

ghost use Rattle.law_acyclic.specs.Laws.{ModulesAreGrounded};
ghost use Rattle.law_acyclic.specs.Bodies.{BodiesAreGrounded};
ghost use Rattle.law_acyclic.specs.Steady.{TypesAreHeld, BodiesAreSteady};

/// A law, with nothing to run: of a module that keeps the rules and the limit of depth, against
/// interfaces whose map is grounded, the map of its types is grounded. Each type that a description
/// names is there; chains of types end; and bases, elements, results and what pointers point to are
/// of the kinds that they have to be.
pub fn modules_are_grounded()
    ensures { ModulesAreGrounded }
{}

/// A law, with nothing to run: the bodies of such a module, and of its procedures, are judged where the
/// map of the types that are known is grounded, and where what is known is as the module has it.
pub fn bodies_are_grounded()
    ensures { BodiesAreGrounded }
{}

/// A law, with nothing to run: of a module that keeps the rules, against interfaces whose types are
/// held and keep what they have to, each type that one of its types names is held.
pub fn types_are_held()
    ensures { TypesAreHeld }
{}

/// A law, with nothing to run: where moreover the chains of its types end, and those of aliases,
/// elements and bases are short, its bodies are judged where the map of the types that are known is
/// steady. No depth is asked of the interfaces.
pub fn bodies_are_steady()
    ensures { BodiesAreSteady }
{}
