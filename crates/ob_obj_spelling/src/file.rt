//! Whether an object file has a spelling.

ghost use Rattle.std.specs.Prelude.{◌≡◌, ◌≤◌, true, length, nat_lt, IfOk};
ghost use Rattle.std.specs.List.{list_all};
ghost use Rattle.ob_obj.specs.Grammar.{file as file_form, bases_stand, has_procedures, begins_with_body, are_placed, IsSound};

use crate::checks::{
    begins_with_main, has_bases, has_commands_within, has_definitions_within, has_entries_within,
    has_places,
};
use crate::groups::{has_body, has_globals, has_head, has_links};
use ob_obj::ObjFile;
use std::alloc::{AllocError, Global};

/// The most procedures of a module.
const MOST_PROCEDURES: usize = 4096;

/// The most instructions of a module.
const MOST_CODE: usize = 262_144;

fn has_few(file: &ObjFile) -> bool
    ensures { result ≡ true → (length file.now.body.procedures ≤ 4096) × (length file.now.body.code ≤ 262144) }
{
    file.body.procedures.len() <= MOST_PROCEDURES && file.body.code.len() <= MOST_CODE
}

fn bases_are_there(file: &ObjFile) -> bool
    ensures { result ≡ bases_stand (length file.now.links.types) 0 file.now.body.types }
{
    has_bases(file.body.types.as_slice(), file.links.types.len())
}

fn definitions_are_there(file: &ObjFile) -> bool
    ensures { result ≡ list_all (has_procedures (length file.now.body.procedures)) file.now.body.types }
{
    has_definitions_within(file.body.types.as_slice(), file.body.procedures.len())
}

fn main_is_there(file: &ObjFile) -> bool
    ensures { result ≡ begins_with_body file.now.body.procedures }
{
    begins_with_main(file.body.procedures.as_slice())
}

fn entries_are_there(file: &ObjFile) -> bool
    ensures { result ≡ list_all (λ q. nat_lt q.entry (length file.now.body.code)) file.now.body.procedures }
{
    has_entries_within(file.body.procedures.as_slice(), file.body.code.len())
}

fn commands_are_there(file: &ObjFile) -> bool
    ensures { result ≡ list_all (λ c. nat_lt c.procedure (length file.now.body.procedures)) file.now.body.commands }
{
    has_commands_within(file.body.commands.as_slice(), file.body.procedures.len())
}

fn positions_are_there(file: &ObjFile) -> bool
    requires { length file.now.body.code ≤ 262144 }
    ensures { result ≡ are_placed 0 file.now.body.code file.now.body.positions }
{
    has_places(file.body.code.as_slice(), file.body.positions.as_slice())
}

// Whether the parts of an object file stand in the order that they need.
#[tactic(auto, using(crate::proofs::Sorted::sound_is))]
fn is_sound(file: &ObjFile) -> bool
    ensures { result ≡ true → IsSound file.now }
{
    has_few(file)
        && bases_are_there(file)
        && definitions_are_there(file)
        && main_is_there(file)
        && entries_are_there(file)
        && commands_are_there(file)
        && positions_are_there(file)
}

/// Whether it is found that the object file has a spelling. What a compile makes has one, by a law of
/// builds; a compile does not stand on that law, and asks.
#[tactic(auto, unfolding(ob_obj::specs::Grammar::file))]
pub fn has_object_file(alloc: Global, file: &ObjFile) -> Result<bool, AllocError>
    ensures { IfOk result (λ b. b ≡ true → file_form.fits file.now) }
{
    let body = has_body(alloc, &file.body)?;
    Ok(
        has_head(&file.head)
            && has_globals(&file.globals)
            && has_links(&file.links)
            && body
            && is_sound(file),
    )
}
