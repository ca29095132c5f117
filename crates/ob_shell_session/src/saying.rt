//! The answer to a line of no kind.

ghost use Rattle.std.specs.Prelude.{◌≡◌, true};
ghost use Rattle.ob_shell_reports.specs.Prints.{PrintDoes, SinkCause};
ghost use Rattle.ob_shell_reports.specs.Texts.{unknown_text};

use itoa::Buffer;
use ob_io::Sink;
use ob_shell_reports::{Stop, tell};

/// Says that the line with this number is unknown.
pub fn do_unknown<O: Sink>(n: u32, out: &mut O) -> Result<bool, Stop>
    ensures does { PrintDoes (O.tells out.old) (O.taken out.old) (O.taken out.new) (unknown_text n) true result }
    ensures told { O.tells out.new ≡ O.tells out.old }
    ensures cause { SinkCause (O.faults out.old) (O.faults out.new) result }
{
    let mut number = Buffer::new();
    let texts = [b"? line ", number.format(n).as_bytes(), b"\n"];
    tell(&texts, true, out)
}
