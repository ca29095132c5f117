//! Prints, aspects and uses as bytes.

ghost use Rattle.std.specs.Prelude.{◌≡◌, OnOk};
ghost use Rattle.std.specs.Result.{IfErr};
ghost use Rattle.ob_format.specs.Format.{Adds, Gives};
ghost use Rattle.ob_types.specs.Spelled.{aspect, aspect_number, print_form, use_form, by_object};
ghost use Rattle.ob_types.specs.SpelledLaws.{aspect_exact, print_form_exact, use_exact};

use crate::face::{Aspect, Use};
use ob_format::{Fault, Ranked, Wire, bytes_of, put_bytes};
use ob_tree::{Print, QName};
use std::alloc::{AllocError, Global};
use std::cmp::Ordering;

/// The print at the front, and what follows it; `Damaged` where there are fewer than eight bytes.
#[tactic(auto, unfolding(crate::specs::Spelled::print_form, ob_format::specs::Format::made_at, ob_format::specs::Format::fixed_at))]
pub fn read_print(bytes: &[u8]) -> Result<(Print, &[u8]), Fault>
    ensures found { Gives (λ x. (x.0, x.1.now)) result (print_form.take bytes.now) }
    // It takes no memory.
    ensures damaged { IfErr result (λ fault. fault ≡ Fault.Damaged) }
{
    let Some((front, rest)) = bytes_of(8, bytes) else {
        return Err(Fault::Damaged);
    };
    let mut print = [0; 8];
    print.copy_from_slice(front);
    Ok((Print(print), rest))
}

/// Adds the print's eight bytes at the end.
#[tactic(auto, unfolding(crate::specs::Spelled::print_form))]
pub fn write_print(print: &Print, out: &mut Vec<u8>) -> Result<(), AllocError>
    ensures { OnOk result (Adds out.old.items out.new.items (print_form.spell print.now)) }
{
    put_bytes(out, &print.0)
}

fn number_of(aspect: Aspect) -> u8
    ensures { result ≡ aspect_number aspect }
{
    match aspect {
        Aspect::Shape => 0,
        Aspect::Layout => 1,
    }
}

impl Wire for Aspect {
    ghost form = { aspect };

    #[tactic(auto, unfolding(crate::specs::Spelled::aspect, ob_format::specs::Format::parsed_at, ob_format::specs::Format::byte, ob_format::specs::Format::byte_at))]
    fn read(_alloc: Global, bytes: &[u8]) -> Result<(Aspect, &[u8]), Fault> {
        match bytes {
            [0, rest @ ..] => Ok((Aspect::Shape, rest)),
            [1, rest @ ..] => Ok((Aspect::Layout, rest)),
            _ => Err(Fault::Damaged),
        }
    }

    #[tactic(auto, unfolding(crate::specs::Spelled::aspect, ob_format::specs::Format::byte))]
    fn write(&self, out: &mut Vec<u8>) -> Result<(), AllocError> {
        put_bytes(out, &[number_of(*self)])
    }

    ghost exact = { aspect_exact };
}

impl Wire for Use {
    ghost form = { use_form };

    #[tactic(auto, unfolding(crate::specs::Spelled::use_form, ob_format::specs::Format::made_at, ob_format::specs::Format::pair_at))]
    fn read(alloc: Global, bytes: &[u8]) -> Result<(Use, &[u8]), Fault> {
        match QName::read(alloc, bytes) {
            Ok((object, rest)) => {
                let (aspect, rest) = Aspect::read(alloc, rest)?;
                let (print, rest) = read_print(rest)?;
                let found = Use {
                    object,
                    aspect,
                    print,
                };
                Ok((found, rest))
            }
            Err(fault) => Err(fault),
        }
    }

    #[tactic(auto, unfolding(crate::specs::Spelled::use_form), using(ob_format::specs::Exact::then_adds))]
    fn write(&self, out: &mut Vec<u8>) -> Result<(), AllocError> {
        self.object.write(out)?;
        self.aspect.write(out)?;
        write_print(&self.print, out)
    }

    ghost exact = { use_exact };
}

impl Ranked for Use {
    ghost rank = { by_object };

    fn compare(&self, other: &Use) -> Ordering {
        let module = self
            .object
            .module
            .as_bytes()
            .cmp(other.object.module.as_bytes());
        if module != Ordering::Equal {
            return module;
        }
        let object = self.object.object.compare(&other.object.object);
        if object != Ordering::Equal {
            return object;
        }
        number_of(self.aspect).cmp(&number_of(other.aspect))
    }
}
