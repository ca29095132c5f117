//! How a run ended, as it is printed.

ghost use Rattle.std.specs.Prelude.{◌≡◌, ◌++◌, true, codes, decimal};
ghost use Rattle.ob_shell_reports.specs.Texts.{report, stops, at_place};
ghost use Rattle.ob_shell_reports.specs.Prints.{PrintDoes, SinkCause};

use crate::printing::tell;
use crate::stop::Stop;
use itoa::Buffer;
use ob_io::Sink;
use ob_machine::Outcome;
use ob_trap::Trap;
use ob_tree::Pos;

// Prints where a run was stopped.
fn put_place<O: Sink>(text: &[u8], name: &[u8], pos: Pos, out: &mut O) -> Result<bool, Stop>
    ensures does { PrintDoes (O.tells out.old) (O.taken out.old) (O.taken out.new) (text.now ++ at_place name.now pos) true result }
    ensures told { O.tells out.new ≡ O.tells out.old }
    ensures cause { SinkCause (O.faults out.old) (O.faults out.new) result }
{
    let mut line = Buffer::new();
    let mut col = Buffer::new();
    let texts = [
        text,
        b" at ",
        name,
        b" ",
        line.format(pos.line).as_bytes(),
        b":",
        col.format(pos.col).as_bytes(),
        b"\n",
    ];
    tell(&texts, true, out)
}

// Prints where an instruction cannot be executed.
fn put_index<O: Sink>(text: &[u8], name: &[u8], at: u32, out: &mut O) -> Result<bool, Stop>
    ensures does { PrintDoes (O.tells out.old) (O.taken out.old) (O.taken out.new) (text.now ++ (name.now ++ (codes " " ++ (decimal at ++ codes "\n")))) true result }
    ensures told { O.tells out.new ≡ O.tells out.old }
    ensures cause { SinkCause (O.faults out.old) (O.faults out.new) result }
{
    let mut index = Buffer::new();
    let texts = [text, name, b" ", index.format(at).as_bytes(), b"\n"];
    tell(&texts, true, out)
}

// Prints where a run trapped.
fn put_trap<O: Sink>(
    kind: Trap,
    number: i32,
    name: &[u8],
    pos: Pos,
    out: &mut O,
) -> Result<bool, Stop>
    ensures does { PrintDoes (O.tells out.old) (O.taken out.old) (O.taken out.new) (report (Outcome.Trap kind number name.now pos)) true result }
    ensures told { O.tells out.new ≡ O.tells out.old }
    ensures cause { SinkCause (O.faults out.old) (O.faults out.new) result }
{
    let mut kinds = Buffer::new();
    let mut numbers = Buffer::new();
    let mut line = Buffer::new();
    let mut col = Buffer::new();
    if kind.tells_number() {
        let texts = [
            b"\ntrap ",
            kinds.format(kind.number()).as_bytes(),
            b" ",
            numbers.format(number).as_bytes(),
            b" at ",
            name,
            b" ",
            line.format(pos.line).as_bytes(),
            b":",
            col.format(pos.col).as_bytes(),
            b"\n",
        ];
        return tell(&texts, true, out);
    }
    let texts = [
        b"\ntrap ",
        kinds.format(kind.number()).as_bytes(),
        b" at ",
        name,
        b" ",
        line.format(pos.line).as_bytes(),
        b":",
        col.format(pos.col).as_bytes(),
        b"\n",
    ];
    tell(&texts, true, out)
}

/// Prints how a run ended, where it did not end by itself: behind an empty line the trap, the
/// turns that were spent or the instruction that cannot be executed. It answers whether the run
/// was stopped.
pub fn put_report<O: Sink>(outcome: Outcome, out: &mut O) -> Result<bool, Stop>
    ensures does { PrintDoes (O.tells out.old) (O.taken out.old) (O.taken out.new) (report outcome) (stops outcome) result }
    ensures told { O.tells out.new ≡ O.tells out.old }
    ensures cause { SinkCause (O.faults out.old) (O.faults out.new) result }
{
    match outcome {
        Outcome::Done => tell(&[], false, out),
        Outcome::Trap {
            kind,
            number,
            module,
            pos,
        } => put_trap(kind, number, module.as_bytes(), pos, out),
        Outcome::TurnsSpent { module, pos } => {
            put_place(b"\nturns spent", module.as_bytes(), pos, out)
        }
        Outcome::Illegal { module, at } => put_index(b"\nillegal at ", module.as_bytes(), at, out),
        Outcome::SinkFault => tell(&[], true, out),
    }
}
