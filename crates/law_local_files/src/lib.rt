//! Two sets of interfaces with the same texts of a module's uses: layout, uses, interface and code of
//! the module are the same.
#![tactic(auto)]

ghost use Rattle.law_local_files.specs.Checked.{CountsAreEnough};
ghost use Rattle.law_local_files.specs.Laws.{ModulesAreLocal, ShapesAreTold};

/// A law, with nothing to run. A checked module whose uses have their texts in other interfaces is
/// laid out alike against those, shows the same and has the same code (`same`): where what counts for
/// its uses is there, and its layout and code read nothing else (`IsTied`), symbol files can hold all
/// these interfaces, and none of them is of the built-in module Out. And what those show to the rules
/// of what counts is the same (`shown`). Layout and code read nothing but what counts, where the tree
/// is tied to the types that it names (`specs/Tied.antt`) and its types differ in name (`read`).
pub fn modules_are_local()
    ensures same { ModulesAreLocal }
    ensures shown { ShapesAreTold }
    ensures read { CountsAreEnough }
{}
