//! Why a load is refused, as it is printed.

ghost use Rattle.std.specs.Prelude.{◌≡◌, true};
ghost use Rattle.ob_shell_reports.specs.Texts.{refused, of_object, load_answered};
ghost use Rattle.ob_shell_reports.specs.Prints.{PrintDoes, SinkCause};

use crate::files::refuse;
use crate::printing::tell;
use crate::stop::Stop;
use ob_io::Sink;
use ob_link::LoadRefusal;
use ob_tree::{Name, QName};

// Prints that an object is refused for a client.
fn refuse_object<O: Sink>(
    client: &Name,
    object: &QName,
    why: &[u8],
    out: &mut O,
) -> Result<bool, Stop>
    ensures does { PrintDoes (O.tells out.old) (O.taken out.old) (O.taken out.new) (refused client.now (of_object object.now why.now)) true result }
    ensures told { O.tells out.new ≡ O.tells out.old }
    ensures cause { SinkCause (O.faults out.old) (O.faults out.new) result }
{
    let texts = [
        b"refused ",
        client.as_bytes(),
        b": ",
        object.module.as_bytes(),
        b".",
        object.object.as_bytes(),
        why,
    ];
    tell(&texts, true, out)
}

/// Prints why a load of this module is refused. It takes no memory.
pub fn refuse_load<O: Sink>(name: &Name, why: &LoadRefusal, out: &mut O) -> Result<bool, Stop>
    ensures does { PrintDoes (O.tells out.old) (O.taken out.old) (O.taken out.new) (load_answered name.now why.now) true result }
    ensures told { O.tells out.new ≡ O.tells out.old }
    ensures cause { SinkCause (O.faults out.old) (O.faults out.new) result }
{
    let name_bytes = name.as_bytes();
    match why {
        LoadRefusal::NoObject { module } => {
            refuse(
                name_bytes,
                b"",
                module.as_bytes(),
                b" has no object file\n",
                out,
            )
        }
        LoadRefusal::Damaged { module } => {
            refuse(name_bytes, b"", module.as_bytes(), b" damaged\n", out)
        }
        LoadRefusal::Absent { client, object } => {
            refuse_object(client, object, b" absent\n", out)
        }
        LoadRefusal::Changed { client, object, .. } => {
            refuse_object(client, object, b" changed\n", out)
        }
        LoadRefusal::Cycle { module } => {
            refuse(name_bytes, b"cycle through ", module.as_bytes(), b"\n", out)
        }
        LoadRefusal::NoRoom { .. } => refuse(name_bytes, b"", b"", b"no room\n", out),
        LoadRefusal::TooMany { .. } => refuse(name_bytes, b"", b"", b"too many modules\n", out),
        LoadRefusal::NoCommand { name: command, .. } => {
            refuse(name_bytes, b"no command ", command.as_bytes(), b"\n", out)
        }
        LoadRefusal::Limit { module } => {
            refuse(name_bytes, b"", module.as_bytes(), b" too long\n", out)
        }
    }
}
