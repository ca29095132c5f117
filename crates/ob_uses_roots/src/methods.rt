//! The bound procedure of a name in a chain of bases.

ghost use Rattle.std.specs.Prelude.{◌≡◌, Option};
ghost use Rattle.std.specs.Option.{option_copied};
ghost use Rattle.ob_types.specs.declared.types.TypeRef.TheVariants as ref;
ghost use Rattle.ob_layout.specs.Members.{method_named, nearest, method_in_record, method_in};

use ob_tree::{Name, QName};
use ob_types::{Desc, Method, TypeRef, Types};

/// The most types that stand in a chain of a grounded map.
const CHAIN: u32 = 201;

fn method_among<'a>(methods: &'a [Method], name: &Name) -> Option<&'a Method>
    ensures { option_copied result ≡ method_named name.now methods.now }
{
    let mut rest = methods;
    while let [first, more @ ..] = rest {
        if name.as_bytes() == first.name.as_bytes() {
            return Some(first);
        }
        rest = more;
    }
    None
}

#[tactic(auto, using(ob_layout::proofs::Nearest::nearest_basic))]
fn method_at<'a, T: Types>(
    types: &'a T,
    steps: u32,
    owner: &QName,
    name: &Name,
) -> Option<&'a Method>
    ensures { option_copied result ≡ nearest (method_in_record name.now) (T.types types.now) steps (ref.Named owner.now) }
{
    if steps == 0 {
        return None;
    }
    match types.desc_of(owner) {
        None => None,
        Some(desc) => match desc {
            Desc::Alias(_, of) => match of {
                TypeRef::Basic(_) => None,
                TypeRef::Named(name_of) => method_at(types, steps - 1, name_of, name),
            },
            Desc::Record(record) => match method_among(record.methods.as_slice(), name) {
                Some(method) => Some(method),
                None => match &record.base {
                    None => None,
                    Some(base) => match base {
                        TypeRef::Basic(_) => None,
                        TypeRef::Named(name_of) => method_at(types, steps - 1, name_of, name),
                    },
                },
            },
            _ => None,
        },
    }
}

/// The bound procedure of that name that a record type or one of its bases introduces.
pub fn method_of<'a, T: Types>(types: &'a T, owner: &QName, name: &Name) -> Option<&'a Method>
    ensures { option_copied result ≡ method_in (T.types types.now) owner.now name.now }
{
    method_at(types, CHAIN, owner, name)
}
