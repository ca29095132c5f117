//! What a compile and a demo print.

ghost use Rattle.std.specs.Prelude.{◌≡◌, ◌++◌, true, false, codes};
ghost use Rattle.ob_shell_reports.specs.Texts.{refused, of_object, place, rule_text, which_text, reason_answered, compiled_line, demo_text};
ghost use Rattle.ob_shell_reports.specs.Prints.{PrintDoes, SinkCause};

use crate::counts::Counts;
use crate::files::refuse;
use crate::printing::tell;
use crate::stop::Stop;
use itoa::Buffer;
use ob_compile_model::CompileRefusal;
use ob_io::Sink;
use ob_rules::Broken;
use ob_tree::{Name, Pos, QName, Which};

// Prints that a text is refused for what stands at a place.
fn refuse_at<O: Sink>(name: &[u8], what: &[u8], at: Pos, out: &mut O) -> Result<bool, Stop>
    ensures does { PrintDoes (O.tells out.old) (O.taken out.old) (O.taken out.new) (refused name.now (what.now ++ place at)) true result }
    ensures told { O.tells out.new ≡ O.tells out.old }
    ensures cause { SinkCause (O.faults out.old) (O.faults out.new) result }
{
    let mut line = Buffer::new();
    let mut col = Buffer::new();
    let texts = [
        b"refused ",
        name,
        b": ",
        what,
        line.format(at.line).as_bytes(),
        b":",
        col.format(at.col).as_bytes(),
        b"\n",
    ];
    tell(&texts, true, out)
}

// Prints that a text is refused for a rule that it breaks.
fn refuse_rule<O: Sink>(name: &[u8], broken: Broken, out: &mut O) -> Result<bool, Stop>
    ensures does { PrintDoes (O.tells out.old) (O.taken out.old) (O.taken out.new) (refused name.now (rule_text broken)) true result }
    ensures told { O.tells out.new ≡ O.tells out.old }
    ensures cause { SinkCause (O.faults out.old) (O.faults out.new) result }
{
    let mut rule = Buffer::new();
    let mut line = Buffer::new();
    let mut col = Buffer::new();
    let texts = [
        b"refused ",
        name,
        b": ",
        b"rule ",
        rule.format(broken.rule.number()).as_bytes(),
        b" at ",
        line.format(broken.pos.line).as_bytes(),
        b":",
        col.format(broken.pos.col).as_bytes(),
        b"\n",
    ];
    tell(&texts, true, out)
}

// Prints that a text is refused for an object.
fn refuse_for<O: Sink>(
    name: &[u8],
    object: &QName,
    why: &[u8],
    client: &[u8],
    out: &mut O,
) -> Result<bool, Stop>
    ensures does { PrintDoes (O.tells out.old) (O.taken out.old) (O.taken out.new) (refused name.now (of_object object.now (why.now ++ (client.now ++ codes "\n")))) true result }
    ensures told { O.tells out.new ≡ O.tells out.old }
    ensures cause { SinkCause (O.faults out.old) (O.faults out.new) result }
{
    let texts = [
        b"refused ",
        name,
        b": ",
        object.module.as_bytes(),
        b".",
        object.object.as_bytes(),
        why,
        client,
        b"\n",
    ];
    tell(&texts, true, out)
}

// Prints that a text is refused for an object that a client uses.
fn refuse_client<O: Sink>(
    name: &[u8],
    object: &QName,
    why: &[u8],
    client: &Name,
    out: &mut O,
) -> Result<bool, Stop>
    ensures does { PrintDoes (O.tells out.old) (O.taken out.old) (O.taken out.new) (refused name.now (of_object object.now (why.now ++ (client.now ++ codes "\n")))) true result }
    ensures told { O.tells out.new ≡ O.tells out.old }
    ensures cause { SinkCause (O.faults out.old) (O.faults out.new) result }
{
    refuse_for(name, object, why, client.as_bytes(), out)
}

fn which_text(which: Which) -> &'static [u8]
    ensures { result.now ≡ which_text which }
{
    match which {
        Which::Imports => b"limit imports\n",
        Which::Modules => b"limit modules\n",
        Which::Objects => b"limit objects\n",
        Which::Depth => b"limit depth\n",
        Which::Words => b"limit words\n",
        Which::Frame => b"limit frame\n",
        Which::Globals => b"limit globals\n",
        Which::Procedures => b"limit procedures\n",
        Which::Operands => b"limit operands\n",
        Which::Code => b"limit code\n",
        Which::File => b"limit file\n",
    }
}

/// Prints why a compile of a file is refused. It takes no memory.
pub fn refuse_compile<O: Sink>(name: &str, why: &CompileRefusal, out: &mut O) -> Result<bool, Stop>
    ensures does { PrintDoes (O.tells out.old) (O.taken out.old) (O.taken out.new) (refused name.now (reason_answered why.now)) true result }
    ensures told { O.tells out.new ≡ O.tells out.old }
    ensures cause { SinkCause (O.faults out.old) (O.faults out.new) result }
{
    let name = name.as_bytes();
    match why {
        CompileRefusal::NoSource => refuse(name, b"", b"", b"no source\n", out),
        CompileRefusal::Long => refuse(name, b"", b"", b"too long\n", out),
        CompileRefusal::Symbol(at) => refuse_at(name, b"symbol at ", *at, out),
        CompileRefusal::Real(at) => refuse_at(name, b"real at ", *at, out),
        CompileRefusal::LongName(at) => refuse_at(name, b"long name at ", *at, out),
        CompileRefusal::Syntax(at) => refuse_at(name, b"syntax at ", *at, out),
        CompileRefusal::TooDeep(at) => refuse_at(name, b"too deep at ", *at, out),
        CompileRefusal::Broken(broken) => refuse_rule(name, *broken, out),
        CompileRefusal::NoInterface(module) => {
            refuse(name, b"", module.as_bytes(), b" has no interface\n", out)
        }
        CompileRefusal::Damaged(module) => {
            refuse(name, b"", module.as_bytes(), b" damaged\n", out)
        }
        CompileRefusal::Cycle(module) => {
            refuse(name, b"cycle through ", module.as_bytes(), b"\n", out)
        }
        CompileRefusal::Absent { client, object } => {
            refuse_client(name, object, b" absent for ", client, out)
        }
        CompileRefusal::Changed { client, object, .. } => {
            refuse_client(name, object, b" changed for ", client, out)
        }
        CompileRefusal::Unfit(object) => refuse_for(name, object, b" unfit", b"", out),
        CompileRefusal::Limit(which) => refuse(name, b"", b"", which_text(*which), out),
    }
}

/// Prints what a compile of a module counts. It takes no memory.
pub fn put_compiled<O: Sink>(name: &Name, counts: Counts, out: &mut O) -> Result<bool, Stop>
    ensures does { PrintDoes (O.tells out.old) (O.taken out.old) (O.taken out.new) (compiled_line name.now counts) false result }
    ensures told { O.tells out.new ≡ O.tells out.old }
    ensures cause { SinkCause (O.faults out.old) (O.faults out.new) result }
{
    let mut objects = Buffer::new();
    let mut added = Buffer::new();
    let mut changed = Buffer::new();
    let mut gone = Buffer::new();
    let texts = [
        b"compiled ",
        name.as_bytes(),
        b": ",
        objects.format(counts.objects).as_bytes(),
        b" objects, ",
        added.format(counts.added).as_bytes(),
        b" new, ",
        changed.format(counts.changed).as_bytes(),
        b" changed, ",
        gone.format(counts.gone).as_bytes(),
        b" gone\n",
    ];
    tell(&texts, false, out)
}

/// Prints how many modules and objects a demo has. It takes no memory.
pub fn put_demo<O: Sink>(count: u32, objects: u32, out: &mut O) -> Result<bool, Stop>
    ensures does { PrintDoes (O.tells out.old) (O.taken out.old) (O.taken out.new) (demo_text count objects) false result }
    ensures told { O.tells out.new ≡ O.tells out.old }
    ensures cause { SinkCause (O.faults out.old) (O.faults out.new) result }
{
    let mut number = Buffer::new();
    let mut modules = Buffer::new();
    let mut total = Buffer::new();
    let texts = [
        b"demo ",
        number.format(count).as_bytes(),
        b": ",
        modules.format(count).as_bytes(),
        b" modules, ",
        total.format(objects).as_bytes(),
        b" objects\n",
    ];
    tell(&texts, false, out)
}
