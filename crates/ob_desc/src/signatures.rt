//! Signatures as words of a text.

ghost use Rattle.std.specs.Prelude.{◌≡◌};
ghost use Rattle.ob_format.specs.Format.{Gives};
ghost use Rattle.ob_desc.specs.Forms.{last};
ghost use Rattle.ob_desc.specs.Grammar.{mode_at, param_at, params_at, result_at, signature_at, signature};

use crate::types::{base_of, type_of};
use ob_format::{Fault, split_at_byte};
use ob_tree::List;
use ob_types::{Mode, Signature, TypeRef};
use std::alloc::Global;

fn mode_of(byte: u8) -> Option<Mode>
    ensures { result ≡ mode_at byte }
{
    match byte {
        b'=' => Some(Mode::Value),
        b'&' => Some(Mode::Var),
        _ => None,
    }
}

#[tactic(auto, unfolding(crate::specs::Grammar::param_at))]
fn param_of(alloc: Global, word: &[u8]) -> Result<(Mode, TypeRef), Fault>
    ensures { Gives (λ x. x) result (param_at word.now) }
{
    match word {
        [] => Err(Fault::Damaged),
        [first, rest @ ..] => {
            let Some(mode) = mode_of(*first) else {
                return Err(Fault::Damaged);
            };
            let of = type_of(alloc, rest)?;
            Ok((mode, of))
        }
    }
}

// Parameters with commas between them.
#[tactic(auto, unfolding(crate::specs::Grammar::params_at))]
fn params_of(alloc: Global, inner: &[u8]) -> Result<List<(Mode, TypeRef)>, Fault>
    ensures { Gives (λ x. x) result (params_at inner.now) }
{
    let mut items = List::new(alloc);
    if inner.is_empty() {
        return Ok(items);
    }
    let mut rest = inner;
    for _ in 0..inner.len() + 1 {
        let (piece, more) = split_at_byte(b',', rest);
        let param = param_of(alloc, piece)?;
        items.push(param)?;
        match more {
            [] => return Ok(items),
            [_, after @ ..] => rest = after,
        }
    }
    Err(Fault::Damaged)
}

#[tactic(auto, unfolding(crate::specs::Grammar::result_at))]
fn signature_after(
    alloc: Global,
    params: List<(Mode, TypeRef)>,
    text: &[u8],
) -> Result<Signature, Fault>
    ensures { Gives (λ x. x) result (result_at params text.now) }
{
    match text {
        [] => Err(Fault::Damaged),
        [_, rest @ ..] => {
            let result = base_of(alloc, rest)?;
            Ok(Signature { params, result })
        }
    }
}

/// The signature that a word is.
#[tactic(auto, unfolding(crate::specs::Grammar::signature_at))]
pub fn signature_of(alloc: Global, word: &[u8]) -> Result<Signature, Fault>
    ensures { Gives (λ x. x) result (signature_at word.now) }
{
    match word {
        [b'(', rest @ ..] => {
            let (inner, after) = split_at_byte(b')', rest);
            let params = params_of(alloc, inner)?;
            signature_after(alloc, params, after)
        }
        _ => Err(Fault::Damaged),
    }
}

/// The signature that the last word is, behind a space.
#[tactic(auto, unfolding(crate::specs::Forms::last_at))]
pub fn last_signature(alloc: Global, bytes: &[u8]) -> Result<Signature, Fault>
    ensures { Gives (λ x. x) result ((last 32 signature).parse bytes.now) }
{
    match bytes {
        [b' ', rest @ ..] => signature_of(alloc, rest),
        _ => Err(Fault::Damaged),
    }
}
