//! What the rules look at in the descriptions of other modules is what a text mentions.
#![tactic(auto)]

ghost use Rattle.law_local_judged.specs.Laws.{TypesAgree, NamesAgree, ExpressionsAgree, DesignatorsAgree, ConstantsAgree, StatementsAgree, WrittenAgree, DeclarationsAgree, HeadingsAgree, CountedIsSaid, BindingsAgree, ForwardsAgree, LaterAgrees, BodiesAgree};

/// Laws, with nothing to run. Where two maps of descriptions say the same of these names, and what
/// is near each of them is among them (`specs/Agreement.antt`), each test of types that the rules
/// make comes out the same over both (`specs/Laws.antt`: `Alike`). And where what stands around a
/// part of a text agrees so with another that differs in what imported modules show
/// (`specs/Followed.antt`): names of types, expressions, designators, constants, statements and
/// types as they are written are judged the same there where they have a node; so are, where no rule
/// is broken, constants, types and variables that are declared in their order
/// (`specs/Declared.antt`), headings of procedures, and what is bound, declared forward and left for
/// later (`specs/Headed.antt`): each if all that it mentions is among these names
/// (`specs/Said.antt`), as it is where the types whose shapes count for the uses of the module are.
pub fn judged_alike()
    ensures types { TypesAgree }
    ensures names { NamesAgree }
    ensures expressions { ExpressionsAgree }
    ensures designators { DesignatorsAgree }
    ensures constants { ConstantsAgree }
    ensures statements { StatementsAgree }
    ensures written { WrittenAgree }
    ensures declarations { DeclarationsAgree }
    ensures headings { HeadingsAgree }
    ensures counted { CountedIsSaid }
    ensures bindings { BindingsAgree }
    ensures forwards { ForwardsAgree }
    ensures later { LaterAgrees }
    ensures bodies { BodiesAgree }
{}
