//! Names, and lists of what has a spelling.

ghost use Rattle.std.specs.Prelude.{◌≡◌, ◌<◌, ◌^◌, true, length};
ghost use Rattle.std.specs.List.{AllByRecursion};
ghost use Rattle.std.specs.List.Sorted.{IsStrictlySortedBy};
ghost use Rattle.std.specs.Cmp.{IsTotalOrder};
ghost use Rattle.ob_format.specs.Format.{list_of, rising};
ghost use Rattle.ob_format.specs.Names.{name, object_name, qname};

use ob_format::{Ranked, Wire, is_name, is_object_name, is_rising};
use ob_tree::{CompactName, List, Name, ObjName, QName};

/// A value that may have a spelling.
pub trait Spelled: Wire {
    /// Whether it is found that it has one. Takes no memory.
    fn is_spelled(&self) -> bool
        ensures { result ≡ true → Self.form.fits self.now };
}

impl Spelled for Name {
    #[tactic(auto, unfolding(ob_format::specs::Names::name, ob_format::specs::Format::text16))]
    fn is_spelled(&self) -> bool {
        is_name(self.as_bytes())
    }
}

impl Spelled for CompactName {
    #[tactic(auto, unfolding(ob_format::specs::Names::name, ob_format::specs::Format::text16))]
    fn is_spelled(&self) -> bool {
        is_name(self.as_bytes())
    }
}

impl Spelled for ObjName {
    #[tactic(auto, unfolding(ob_format::specs::Names::object_name, ob_format::specs::Format::text16))]
    fn is_spelled(&self) -> bool {
        let bytes = self.as_bytes();
        bytes.len() < 65_536 && is_object_name(bytes)
    }
}

impl Spelled for QName {
    #[tactic(auto, unfolding(ob_format::specs::Names::qname))]
    fn is_spelled(&self) -> bool {
        self.module.is_spelled() && self.object.is_spelled()
    }
}

/// Whether it is found that each item has a spelling. Takes no memory.
pub fn all_spelled<T: Spelled>(items: &[T]) -> bool
    ensures { result ≡ true → AllByRecursion T.form.fits items.now }
{
    let mut rest = items;
    while let [first, more @ ..] = rest {
        if !first.is_spelled() {
            return false;
        }
        rest = more;
    }
    true
}

/// Whether it is found that a list has a spelling. Takes no memory.
#[tactic(auto, unfolding(ob_format::specs::Format::list_of))]
pub fn is_list<T: Spelled>(items: &List<T>) -> bool
    ensures { result ≡ true → (list_of T.form).fits items.now }
{
    items.len() < 4_294_967_296 && all_spelled(items.as_slice())
}

/// Whether it is found that a list has a spelling, and that its items rise. Takes no memory.
#[tactic(auto, using(crate::proofs::Sorted::rises_sorted))]
pub fn is_rising_list<T: Spelled + Ranked>(items: &List<T>) -> bool
    ensures { IsTotalOrder T.rank → result ≡ true → (rising T.form T.rank).fits items.now }
{
    is_list(items) && is_rising(items.as_slice())
}
