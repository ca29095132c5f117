//! Names of objects, alone and with their modules.

ghost use Rattle.std.specs.Prelude.{◌≡◌, ◌↔◌, IsTrue, IfOk, nat_le, length, Some, None, if◌then◌else◌};
ghost use Rattle.std.specs.Cmp.Lexicographic.{slice_cmp};
ghost use Rattle.std.specs.Ordering.{nat_cmp};

use crate::compact_name::CompactName;
use crate::name::Name;
use crate::spelling::Spelling;
use std::alloc::{AllocError, Global};
use std::cmp::Ordering;
use std::hash::{Hash, Hasher};
use std::marker::Model;

/// The name of an object in its module: an identifier, or the name that is derived for a type
/// without one of its own, as `p^` for what the pointer type `p` points to.
///
/// Contracts see it as the list of its bytes. Two object names are the same where their bytes are.
/// Takes memory beside itself for more than 14 bytes alone.
#[derive(Debug, Drop)]
pub struct ObjName {
    bytes: Spelling,
}

impl Model for ObjName {
    ghost use Rattle.std.specs.Prelude.{List, ℕ};
    ghost use Rattle.std.specs.Coded.{coded_list, coded_ℕ};

    ghost Value = { List ℕ };

    ghost coded = { coded_list coded_ℕ };

    ghost view = { λ n. n.bytes };
}

impl ObjName {
    /// The object name of these bytes.
    pub fn new(alloc: Global, bytes: &[u8]) -> Result<ObjName, AllocError>
        ensures { IfOk result (λ n. n ≡ bytes.now) }
    {
        let bytes = Spelling::from_slice(alloc, bytes)?;
        Ok(ObjName { bytes })
    }

    /// The object name of these bytes, where they are at most 14. Takes no memory.
    pub fn short(bytes: &[u8]) -> Option<ObjName>
        ensures { result ≡ (if nat_le (length bytes.now) 14 then Some bytes.now else None) }
    {
        match Spelling::short(bytes) {
            Some(bytes) => Some(ObjName { bytes }),
            None => None,
        }
    }

    /// The object name that is this identifier.
    pub fn from_name(alloc: Global, name: &Name) -> Result<ObjName, AllocError>
        ensures { IfOk result (λ n. n ≡ name.now) }
    {
        ObjName::new(alloc, name.as_bytes())
    }

    /// Its bytes.
    pub fn as_bytes(&self) -> &[u8]
        ensures { result.now ≡ self.now }
    {
        self.bytes.as_slice()
    }

    /// Whether the two names are the same. Takes no memory.
    pub fn is_same(&self, other: &ObjName) -> bool
        ensures { IsTrue result ↔ (self.now ≡ other.now) }
    {
        self.as_bytes() == other.as_bytes()
    }

    /// The order of the names by their bytes, a name before those that go on behind it.
    pub fn compare(&self, other: &ObjName) -> Ordering
        ensures { result ≡ slice_cmp nat_cmp self.now other.now }
    {
        self.as_bytes().cmp(other.as_bytes())
    }
}

impl Clone for ObjName {
    ghost use Rattle.std.specs.Prelude.{◌≡◌};

    ghost is_clone = { λ a b. b ≡ a };

    fn clone(&self) -> Result<ObjName, AllocError> {
        let bytes = self.bytes.clone()?;
        Ok(ObjName { bytes })
    }
}

impl PartialEq for ObjName {
    ghost use Rattle.std.specs.Prelude.{nat_eq};
    ghost use Rattle.std.specs.Cmp.Lexicographic.{pointwise};
    ghost use Rattle.std.specs.Cmp.{partial_equiv_from_equiv};
    ghost use Rattle.std.proofs.lemmas.Cmp.{nat_list_eq_equiv};

    ghost eq = { λ x y. pointwise nat_eq x y };

    ghost laws = { partial_equiv_from_equiv nat_list_eq_equiv };

    fn eq(&self, other: &Self) -> bool {
        self.as_bytes() == other.as_bytes()
    }
}

impl Eq for ObjName {
    ghost use Rattle.std.proofs.lemmas.Cmp.{nat_list_eq_equiv};

    ghost laws = { nat_list_eq_equiv };
}

impl Hash for ObjName {
    ghost use Rattle.std.specs.Prelude.{[], ◌∷◌};
    ghost use Rattle.std.specs.Cmp.Lexicographic.{bytes_decides};
    ghost use Rattle.std.proofs.Common.{ap};

    ghost hash_input = { λ n. n ∷ [] };

    ghost respects_eq = { λ x y h. ap (λ n. n ∷ []) ((bytes_decides x y).0 h) };

    fn hash<H: Hasher>(&self, state: &mut H) {
        state.write(self.as_bytes());
    }
}

/// The name of an object of some module: the module's name, and the object's name in it.
#[derive(Debug, Drop, Clone, PartialEq)]
pub struct QName {
    pub module: CompactName,
    pub object: ObjName,
}

impl QName {
    /// Whether both name the same object of the same module. Takes no memory.
    pub fn is_same(&self, other: &QName) -> bool
        ensures { IsTrue result ↔ (self.now ≡ other.now) }
    {
        self.module.as_bytes() == other.module.as_bytes() && self.object.is_same(&other.object)
    }
}
