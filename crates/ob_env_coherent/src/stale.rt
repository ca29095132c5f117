//! The first use that is not met.

ghost use Rattle.std.specs.Prelude.{Some};
ghost use Rattle.ob_env.specs.declared.fault.EnvFault.TheVariants as fault;
ghost use Rattle.ob_env.specs.Stale.{first_among};
ghost use Rattle.ob_env.specs.Building.{Named, Checks, use_answer, uses_answer};

use ob_env::{Env, EnvFault};
use ob_env_files::SymbolFile;
use ob_tree::{Name, Print, QName};
use ob_types::Use;

fn absent(client: &Name, object: &QName) -> EnvFault
    ensures { Named (Some (fault.Absent client.now object.now)) result }
{
    match object.clone() {
        Err(_) => EnvFault::Memory,
        Ok(object) => EnvFault::Absent {
            client: *client,
            object,
        },
    }
}

fn changed(client: &Name, used: &Use, found: Print) -> EnvFault
    ensures { Named (Some (fault.Changed client.now used.now.object used.now.aspect used.now.print found)) result }
{
    match used.object.clone() {
        Err(_) => EnvFault::Memory,
        Ok(object) => EnvFault::Changed {
            client: *client,
            object,
            aspect: used.aspect,
            wanted: used.print,
            found,
        },
    }
}

// A use of a client.
fn check_use(env: &Env, client: &Name, used: &Use) -> Result<(), EnvFault>
    ensures { Checks (use_answer env.now client.now used.now) result }
{
    match env.print_of(&used.object, used.aspect) {
        None => Err(absent(client, &used.object)),
        Some(found) => {
            if used.print.agrees(&found) {
                Ok(())
            } else {
                Err(changed(client, used, found))
            }
        }
    }
}

// The uses of a client in order.
fn check_client(env: &Env, client: &Name, uses: &[Use]) -> Result<(), EnvFault>
    ensures { Checks (first_among (use_answer env.now client.now) uses.now) result }
{
    let mut rest = uses;
    while let [first, more @ ..] = rest {
        check_use(env, client, first)?;
        rest = more;
    }
    Ok(())
}

/// The uses of each interface in order.
pub fn check_uses(env: &Env, faces: &[SymbolFile]) -> Result<(), EnvFault>
    ensures { Checks (first_among (uses_answer env.now) faces.now) result }
{
    let mut rest = faces;
    while let [first, more @ ..] = rest {
        check_client(env, first.module(), first.uses())?;
        rest = more;
    }
    Ok(())
}
