//! Layout texts, and the object that both texts spell.

ghost use Rattle.std.specs.Prelude.{◌≡◌, Some, IfOk, IfSome};
ghost use Rattle.std.specs.Option.{option_copied};
ghost use Rattle.ob_format.specs.Format.{Gives};
ghost use Rattle.ob_tree.specs.declared.names.QName.{QName as Named};
ghost use Rattle.ob_desc.specs.Grammar.{layout, same_object, joined, description_at, IsSpelled, shape_text, layout_text};
ghost use Rattle.ob_desc.specs.Laws.{AreTexts};
ghost use Rattle.ob_types.specs.declared.desc.Desc.{Desc as Described};

use crate::shapes::shape_of;
use crate::words::{dotted_of, last_small, next_word, small_of};
use ob_format::{Fault, skip};
use ob_tree::QName;
use ob_types::Desc;
use std::alloc::{AllocError, Global};

#[tactic(auto, unfolding(crate::specs::Forms::led_at, ob_format::specs::Words::then_at, ob_format::specs::Format::pair_at, ob_format::specs::Words::after_at))]
fn layout_of(alloc: Global, text: &[u8]) -> Result<(QName, u32, u32), Fault>
    ensures { Gives (λ x. ((x.0, x.1), x.2)) result (layout.parse text.now) }
{
    let rest = skip(b"layout", text)?;
    let (name, rest) = next_word(rest)?;
    let name = dotted_of(alloc, name)?;
    let (words, rest) = next_word(rest)?;
    let Some(words) = small_of(words) else {
        return Err(Fault::Damaged);
    };
    let Some(procedures) = last_small(rest) else {
        return Err(Fault::Damaged);
    };
    Ok((name, words, procedures))
}

fn names_same(a: &QName, b: &QName) -> bool
    ensures { result ≡ same_object a.now b.now }
{
    a.module.as_bytes() == b.module.as_bytes() && a.object.as_bytes() == b.object.as_bytes()
}

#[tactic(auto, unfolding(crate::specs::Grammar::joined))]
fn join(
    alloc: Global,
    name: QName,
    desc: Desc,
    layout: Option<&[u8]>,
) -> Result<(QName, Desc), Fault>
    ensures { Gives (λ x. x) result (joined name desc (option_copied layout.entry)) }
{
    match desc {
        Desc::Record(shape) => match layout {
            None => Err(Fault::Damaged),
            Some(text) => {
                let (other, words, procedures) = layout_of(alloc, text)?;
                if !names_same(&other, &name) {
                    return Err(Fault::Damaged);
                }
                Ok((name, Desc::Record(shape.sized(words, procedures))))
            }
        },
        other => match layout {
            None => Ok((name, other)),
            Some(_) => Err(Fault::Damaged),
        },
    }
}

/// The object and the description that the two texts spell: the shape text, and the layout text,
/// which a record has and nothing else. `Damaged` exactly where they spell none.
#[tactic(auto, unfolding(crate::specs::Grammar::description_at))]
pub fn described(alloc: Global, shape: &[u8], layout: Option<&[u8]>) -> Result<(QName, Desc), Fault>
    ensures { Gives (λ x. x) result (description_at shape.now (option_copied layout.entry)) }
{
    let (name, desc) = shape_of(alloc, shape)?;
    join(alloc, name, desc, layout)
}

/// The object and the description that the two texts spell: the shape text, and the layout text,
/// which a record has and nothing else. None exactly where they spell none. An error is want of
/// memory alone.
pub fn read_desc(
    alloc: Global,
    shape: &[u8],
    layout: Option<&[u8]>,
) -> Result<Option<(QName, Desc)>, AllocError>
    // What is read is spelled so.
    ensures found { IfOk result (λ o. IfSome o (λ x. AreTexts shape.now (option_copied layout.entry) x)) }
    // What is spelled so is read.
    ensures again { IfOk result (λ o. (q : Named) (d : Described) → IsSpelled q d → shape.now ≡ shape_text q d → option_copied layout.entry ≡ layout_text q d → o ≡ Some (q, d)) }
{
    match described(alloc, shape, layout) {
        Ok(found) => Ok(Some(found)),
        Err(Fault::Damaged) => Ok(None),
        Err(Fault::Memory) => Err(AllocError),
    }
}
