//! An identifier.

ghost use Rattle.std.specs.Prelude.{◌≡◌, ◌≤◌, ◌-◌, ◌++◌, length, replicate};

use std::marker::Model;

/// An identifier of at most 64 characters, and zeros behind it.
#[derive(Clone, Copy, Debug)]
pub struct Name {
    chars: [u8; 64],
    len: usize,
}

impl Model for Name {
    ghost use Rattle.std.specs.Prelude.{List, ℕ, take, replicate, ◌-◌, ◌++◌, length};
    ghost use Rattle.std.specs.Coded.{coded_list, coded_ℕ};

    ghost Value = { List ℕ };

    ghost coded = { coded_list coded_ℕ };

    ghost use Rattle.ob_tree.specs.Padded.{IsPadded, padded_back};

    ghost view = { λ n. take n.len n.chars };

    ghost invariant = { λ n. IsPadded n.len n.chars };

    ghost inverse = { λ s. record { chars = s ++ replicate (64 - length s) 0; len = length s } };

    ghost inverse_ok = { λ a h. padded_back a h };
}

// The text, and zeros behind it.
fn padded(text: &[u8]) -> [u8; 64]
    requires { length text.now ≤ 64 }
    ensures { result ≡ text.now ++ replicate (64 - length text.now) 0 }
{
    let mut chars = [0; 64];
    for i in 0..text.len() {
        chars[i] = text[i];
    }
    chars
}

impl Name {
    pub fn new(text: &[u8]) -> Name
        requires { length text.now ≤ 64 }
        ensures { result ≡ text.now }
    {
        Name {
            chars: padded(text),
            len: text.len(),
        }
    }

    /// How many characters: at most 64.
    pub fn len(&self) -> usize
        ensures characters { result ≡ length self.now }
        ensures most { length self.now ≤ 64 }
    {
        self.len
    }

    pub fn as_bytes(&self) -> &[u8]
        ensures { result.now ≡ self.now }
    {
        &self.chars[..self.len]
    }
}

impl PartialEq for Name {
    ghost use Rattle.std.specs.Prelude.{nat_eq};
    ghost use Rattle.std.specs.Cmp.Lexicographic.{pointwise};
    ghost use Rattle.std.specs.Cmp.{partial_equiv_from_equiv};
    ghost use Rattle.std.proofs.lemmas.Cmp.{nat_list_eq_equiv};

    ghost eq = { λ x y. pointwise nat_eq x y };

    ghost laws = { partial_equiv_from_equiv nat_list_eq_equiv };

    fn eq(&self, other: &Self) -> bool {
        self.as_bytes() == other.as_bytes()
    }
}
