//! Types stand in the order of the text: bases before their extensions.

ghost use Rattle.law_builds_written.specs.based_laws.Laws.{BuildsAreBased, ModulesAreBased, ViewsAreBased};

/// A law, with nothing to run: in the list of types of a checked module the base of each record, and
/// what each alias is equated to, stand before it. So where records are laid out, and in valid builds,
/// the number of a base, if it is a record of the module, is below those of its extensions.
pub fn builds_are_based()
    ensures modules { ModulesAreBased }
    ensures views { ViewsAreBased }
    ensures builds { BuildsAreBased }
{}
