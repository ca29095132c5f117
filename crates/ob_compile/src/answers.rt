//! Faults of the steps, as a compile answers them.

ghost use Rattle.std.specs.Prelude.{◌≡◌, List, ℕ, Result, Err};
ghost use Rattle.ob_tree.specs.declared.print.Print.{Print as PrintValue};
ghost use Rattle.ob_tree.specs.declared.decl.Module.{Module as Tree};
ghost use Rattle.ob_env.specs.Answer.{Standing};
ghost use Rattle.ob_env.specs.Building.{Named, fault_of};
ghost use Rattle.ob_parse_grammar.specs.TextReading.{NoModule, Scan, Parse};
ghost use Rattle.ob_parse_text.specs.Reading.{IsReading};
ghost use Rattle.ob_env_walk.specs.Walk.{Walked, Entry};
ghost use Rattle.ob_env_walk.specs.Walking.{StopsAs};
ghost use Rattle.ob_env_walk.specs.Answer.{after_walk};
ghost use Rattle.ob_compile_model.specs.Compiling.{Unread, of_reading, of_reached, of_standing, prints};
ghost use Rattle.ob_compile_trait.specs.Contract.{Compiles};
ghost use Rattle.ob_compile.specs.Steps.{stood, Makes};

use ob_compile_model::{CompileFault, CompileRefusal};
use ob_env::EnvFault;
use ob_env_walk::WalkStop;
use ob_parse_grammar::ParseFault;
use ob_parse_text::TextFault;
use ob_scan::ScanFault;
use ob_tree::Which;

/// A limit is exceeded.
pub fn over_limit(which: Which) -> CompileFault
    ensures { result ≡ CompileFault.Refused (CompileRefusal.Limit which) }
{
    CompileFault::Refused(CompileRefusal::Limit(which))
}

fn fault_of_scan(fault: ScanFault) -> CompileFault
    ensures { Makes (Err (Unread (Scan fault))) (Err result) }
{
    match fault {
        ScanFault::Symbol { pos } => CompileFault::Refused(CompileRefusal::Symbol(pos)),
        ScanFault::Real { pos } => CompileFault::Refused(CompileRefusal::Real(pos)),
        ScanFault::Limit { pos } => CompileFault::Refused(CompileRefusal::LongName(pos)),
        ScanFault::Memory => CompileFault::Memory,
    }
}

fn fault_of_parse(fault: ParseFault) -> CompileFault
    ensures { Makes (Err (Unread (Parse fault))) (Err result) }
{
    match fault {
        ParseFault::Syntax { pos } => CompileFault::Refused(CompileRefusal::Syntax(pos)),
        ParseFault::TooDeep { pos } => CompileFault::Refused(CompileRefusal::TooDeep(pos)),
        ParseFault::Memory => CompileFault::Memory,
    }
}

/// A text that is no module.
pub fn fault_of_text(fault: TextFault) -> CompileFault
    ensures { (entry : List ℕ → Entry PrintValue) (r : Result Tree NoModule) → IsReading r (Err fault) → Makes (of_reading prints entry r) (Err result) }
{
    match fault {
        TextFault::Scan(fault) => fault_of_scan(fault),
        TextFault::Parse(fault) => fault_of_parse(fault),
        TextFault::Memory => CompileFault::Memory,
    }
}

/// A walk of the imports that ended early.
pub fn fault_of_walk(stop: WalkStop) -> CompileFault
    ensures stopped { (tree : Tree) (w : Walked PrintValue) → StopsAs w stop → Compiles (of_reached prints tree (after_walk stood w)) (Err result) }
    ensures folder { result ≡ CompileFault.Folder → stop ≡ WalkStop.Folder }
{
    match stop {
        WalkStop::NoInterface(module) => {
            CompileFault::Refused(CompileRefusal::NoInterface(module))
        }
        WalkStop::Damaged(module) => CompileFault::Refused(CompileRefusal::Damaged(module)),
        WalkStop::Cycle(module) => CompileFault::Refused(CompileRefusal::Cycle(module)),
        WalkStop::TooMany => over_limit(Which::Modules),
        WalkStop::Folder => CompileFault::Folder,
        WalkStop::Memory => CompileFault::Memory,
    }
}

/// Interfaces that do not stand together.
pub fn fault_of_env(fault: EnvFault) -> CompileFault
    ensures { (tree : Tree) (s : Standing PrintValue) → Named (fault_of s) fault → Makes (of_standing prints tree s) (Err result) }
{
    match fault {
        EnvFault::Absent { client, object } => {
            CompileFault::Refused(CompileRefusal::Absent { client, object })
        }
        EnvFault::Changed {
            client,
            object,
            aspect,
            wanted,
            found,
        } => CompileFault::Refused(CompileRefusal::Changed {
            client,
            object,
            aspect,
            wanted,
            found,
        }),
        EnvFault::Unfit { object } => CompileFault::Refused(CompileRefusal::Unfit(object)),
        EnvFault::Memory => CompileFault::Memory,
    }
}
