//! Procedures whose texts are short, which is seen without writing them.

ghost use Rattle.std.specs.Prelude.{◌≡◌, ◌*◌, ◌<◌, ◌≤◌, ◌^◌, true, length};
ghost use Rattle.std.specs.List.{AllByRecursion};
ghost use Rattle.ob_types.specs.declared.desc.Desc.TheVariants as desc;
ghost use Rattle.ob_desc.specs.Grammar.{shape_text, type_print, base_print, params_print};
ghost use Rattle.ob_sym.specs.Grammar.{object_of};

use ob_tree::{Name, ObjName};
use ob_types::{Mode, Signature, TypeRef};

/// The most bytes of a name that is short.
const SHORT: usize = 65_535;

/// The most parameters of a procedure whose text is short by their number.
const FEW: usize = 16_384;

fn is_short_name(module: &[u8], object: &[u8]) -> bool
    ensures { result ≡ true → (length «module».now ≤ 65535) × (length object.now ≤ 65535) }
{
    module.len() <= SHORT && object.len() <= SHORT
}

#[tactic(auto, using(crate::proofs::Lengths::basic_short, crate::proofs::Lengths::named_short))]
fn is_short_type(t: &TypeRef) -> bool
    ensures { result ≡ true → length (type_print t.now) ≤ 131071 }
{
    match t {
        TypeRef::Basic(_) => true,
        TypeRef::Named(name) => is_short_name(name.module.as_bytes(), name.object.as_bytes()),
    }
}

#[tactic(auto, using(crate::proofs::Lengths::no_base_short))]
fn is_short_base(t: &Option<TypeRef>) -> bool
    ensures { result ≡ true → length (base_print t.now) ≤ 131071 }
{
    match t {
        None => true,
        Some(t) => is_short_type(t),
    }
}

fn are_short(params: &[(Mode, TypeRef)]) -> bool
    ensures { result ≡ true → AllByRecursion (λ p. length (type_print p.1) ≤ 131071) params.now }
{
    let mut rest = params;
    while let [first, more @ ..] = rest {
        if !is_short_type(&first.1) {
            return false;
        }
        rest = more;
    }
    true
}

#[tactic(auto, using(crate::proofs::Lengths::params_short))]
fn are_short_params(params: &[(Mode, TypeRef)]) -> bool
    ensures { result ≡ true → length (params_print params.now) ≤ 16384 * 131073 }
{
    params.len() <= FEW && are_short(params)
}

/// Whether it is found that the shape text of a procedure is short enough for a file: where it has
/// few parameters, and its names and those of its types are short. Takes no memory.
#[tactic(auto, using(crate::proofs::Lengths::procedure_short))]
pub fn is_short_procedure(module: &Name, name: &ObjName, of: &Signature) -> bool
    ensures { result ≡ true → length (shape_text (object_of «module».now name.now) (desc.Proc of.now)) < 2 ^ 32 }
{
    is_short_name(module.as_bytes(), name.as_bytes())
        && are_short_params(of.params.as_slice())
        && is_short_base(&of.result)
}
