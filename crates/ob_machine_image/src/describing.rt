//! The descriptors of a module's record types.

ghost use Rattle.std.specs.Prelude.{◌≡◌, ◌<◌, ◌^◌, IfOk, IfSome};
ghost use Rattle.ob_obj.specs.Images.{base_number};
ghost use Rattle.ob_machine_image.specs.Declaring.{own_methods, declaration_of};

use ob_obj::{Base, Definition, RecordType};
use ob_tdesc::{Declaration, OwnMethod};
use ob_tree::{List, Name, ProcRef};
use std::alloc::{AllocError, Global};

// The number of the descriptor of a base, where the own types begin at a number.
fn base_number(first: u32, links: &[u32], base: Base) -> Option<u32>
    requires { IfSome (base_number first links.now base) (λ b. b < 2 ^ 32) }
    ensures { result ≡ base_number first links.now base }
{
    match base {
        Base::None => None,
        Base::Own(index) => Some(first + index),
        Base::Link(index) => links.get(index as usize).copied(),
    }
}

// The bound procedures that a type of the module with this number defines.
fn own_methods(
    alloc: Global,
    number: u32,
    definitions: &[Definition],
) -> Result<List<OwnMethod>, AllocError>
    ensures { IfOk result (λ l. l ≡ own_methods number definitions.now) }
{
    let mut methods = List::new(alloc);
    let mut rest = definitions;
    while let [definition, more @ ..] = rest {
        let procedure = ProcRef {
            module: number,
            proc: definition.procedure,
        };
        methods.push(OwnMethod {
            number: definition.number,
            procedure,
        })?;
        rest = more;
    }
    Ok(methods)
}

/// What a record type of a module with this name and number declares, where the first of its own types
/// has the number `first` and its type links stand for `links`.
pub fn declaration(
    alloc: Global,
    name: Name,
    number: u32,
    first: u32,
    links: &[u32],
    own: &RecordType,
) -> Result<Declaration, AllocError>
    requires { IfSome (base_number first links.now own.now.base) (λ b. b < 2 ^ 32) }
    ensures { IfOk result (λ d. d ≡ declaration_of name first links.now number own.now) }
{
    let base = base_number(first, links, own.base);
    let type_name = own.name.clone()?;
    let methods = own_methods(alloc, number, own.definitions.as_slice())?;
    Ok(Declaration {
        module: name,
        name: type_name,
        base,
        words: own.words,
        count: own.count,
        methods,
    })
}
