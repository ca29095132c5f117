//! An object of an interface, found by its name.

ghost use Rattle.std.specs.Prelude.{◌≡◌, Option};
ghost use Rattle.std.specs.Option.{option_copied};
ghost use Rattle.std.specs.List.Sorted.{IsStrictlySortedBy};
ghost use Rattle.ob_sym.specs.Grammar.{by_name};
ghost use Rattle.ob_cmp.specs.Rising.{object_at};

use ob_tree::ObjName;
use ob_types::Object;
use std::cmp::Ordering;

/// The object of that name among objects that ascend by name, found by halving.
pub fn find_object<'a>(objects: &'a [Object], name: &ObjName) -> Option<&'a Object>
    requires { IsStrictlySortedBy by_name objects.now }
    ensures { option_copied result ≡ object_at name.now objects.now }
{
    let mut low = 0;
    let mut high = objects.len();
    'halves: while low < high {
        let middle = low + (high - low) / 2;
        let object = &objects[middle];
        match name.compare(&object.name) {
            Ordering::Less => high = middle,
            Ordering::Equal => return Some(object),
            Ordering::Greater => low = middle + 1,
        }
    }
    None
}
