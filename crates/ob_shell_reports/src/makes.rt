//! What a line `make` prints beside its compiles.

ghost use Rattle.std.specs.Prelude.{◌≡◌, true, false};
ghost use Rattle.ob_shell_reports.specs.Texts.{refused, made_text, cycle_text, many_modules};
ghost use Rattle.ob_shell_reports.specs.Prints.{PrintDoes, SinkCause};

use crate::files::refuse;
use crate::printing::tell;
use crate::stop::Stop;
use itoa::Buffer;
use ob_io::Sink;
use ob_tree::Name;

/// Prints how many modules were compiled. It takes no memory.
pub fn put_made<O: Sink>(name: &Name, count: u32, out: &mut O) -> Result<bool, Stop>
    ensures does { PrintDoes (O.tells out.old) (O.taken out.old) (O.taken out.new) (made_text name.now count) false result }
    ensures told { O.tells out.new ≡ O.tells out.old }
    ensures cause { SinkCause (O.faults out.old) (O.faults out.new) result }
{
    let mut number = Buffer::new();
    let texts = [
        b"make ",
        name.as_bytes(),
        b": ",
        number.format(count).as_bytes(),
        b" compiled\n",
    ];
    tell(&texts, false, out)
}

/// Prints that a need of a module stands on the path to it. It takes no memory.
pub fn refuse_cycle<O: Sink>(name: &Name, module: &Name, out: &mut O) -> Result<bool, Stop>
    ensures does { PrintDoes (O.tells out.old) (O.taken out.old) (O.taken out.new) (refused name.now (cycle_text «module».now)) true result }
    ensures told { O.tells out.new ≡ O.tells out.old }
    ensures cause { SinkCause (O.faults out.old) (O.faults out.new) result }
{
    refuse(
        name.as_bytes(),
        b"cycle through ",
        module.as_bytes(),
        b"\n",
        out,
    )
}

/// Prints that too many modules are to be made. It takes no memory.
pub fn refuse_many<O: Sink>(name: &Name, out: &mut O) -> Result<bool, Stop>
    ensures does { PrintDoes (O.tells out.old) (O.taken out.old) (O.taken out.new) (refused name.now many_modules) true result }
    ensures told { O.tells out.new ≡ O.tells out.old }
    ensures cause { SinkCause (O.faults out.old) (O.faults out.new) result }
{
    refuse(name.as_bytes(), b"", b"", b"too many modules\n", out)
}
