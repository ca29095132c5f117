//! A name in little memory.

ghost use Rattle.std.specs.Prelude.{◌≡◌, ◌≤◌, length, IfOk};

use crate::name::Name;
use crate::spelling::Spelling;
use std::alloc::{AllocError, Global};
use std::marker::Model;

/// A name of at most 64 characters in 16 bytes of memory where it has at most 14, less than a
/// [`Name`] takes. Contracts see it as the list of its characters.
#[derive(Debug, Drop)]
pub struct CompactName {
    text: Spelling,
}

impl Model for CompactName {
    ghost use Rattle.std.specs.Prelude.{List, ℕ, ◌≤◌, length};
    ghost use Rattle.std.specs.Coded.{coded_list, coded_ℕ};

    ghost Value = { List ℕ };

    ghost coded = { coded_list coded_ℕ };

    ghost view = { λ n. n.text };

    ghost invariant = { λ n. length n.text ≤ 64 };
}

impl CompactName {
    /// The name of these characters. Takes memory for more than 14 of them alone.
    #[inline(always)]
    pub fn new(alloc: Global, text: &[u8]) -> Result<CompactName, AllocError>
        requires { length text.now ≤ 64 }
        ensures { IfOk result (λ n. n ≡ text.now) }
    {
        let text = Spelling::from_slice(alloc, text)?;
        Ok(CompactName { text })
    }

    /// The same name. Takes memory for more than 14 characters alone.
    pub fn of(alloc: Global, name: &Name) -> Result<CompactName, AllocError>
        ensures { IfOk result (λ n. n ≡ name.now) }
    {
        CompactName::new(alloc, &name.as_bytes()[..name.len()])
    }

    /// The name.
    pub fn name(&self) -> Name
        ensures { result ≡ self.now }
    {
        Name::new(self.text.as_slice())
    }

    /// Its characters.
    pub fn as_bytes(&self) -> &[u8]
        ensures { result.now ≡ self.now }
    {
        self.text.as_slice()
    }
}

impl Clone for CompactName {
    ghost use Rattle.std.specs.Prelude.{◌≡◌};

    ghost is_clone = { λ a b. b ≡ a };

    fn clone(&self) -> Result<CompactName, AllocError> {
        let text = self.text.clone()?;
        Ok(CompactName { text })
    }
}

impl PartialEq for CompactName {
    ghost use Rattle.std.specs.Prelude.{nat_eq};
    ghost use Rattle.std.specs.Cmp.Lexicographic.{pointwise};
    ghost use Rattle.std.specs.Cmp.{partial_equiv_from_equiv};
    ghost use Rattle.std.proofs.lemmas.Cmp.{nat_list_eq_equiv};

    ghost eq = { λ x y. pointwise nat_eq x y };

    ghost laws = { partial_equiv_from_equiv nat_list_eq_equiv };

    fn eq(&self, other: &Self) -> bool {
        self.as_bytes() == other.as_bytes()
    }
}
