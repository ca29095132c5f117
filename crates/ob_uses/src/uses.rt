//! The uses of a module.

ghost use Rattle.std.specs.Prelude.{◌≡◌, ◌++◌, List, length, IfOk, OnOk, map as each};
ghost use Rattle.std.specs.List.{flat_map};
ghost use Rattle.ob_tree.specs.declared.names.QName.{QName as Named};
ghost use Rattle.ob_types.specs.TypedView.{module_view};
ghost use Rattle.ob_env.specs.Faces.{wanted_of};
ghost use Rattle.ob_uses.specs.Ways.{AreAllNames};
ghost use Rattle.ob_uses.specs.Uses.{with_kept, uses_of as uses_in};

use crate::pair::Pair;
use crate::pairs::pairs_of;
use crate::prints::Prints;
use ob_tree::List;
use ob_types::{TypedModule, Types, Use};
use std::alloc::{AllocError, Global};

// Adds a pair with its print, where it has one.
fn add_use<P: Prints>(all: &mut List<Use>, prints: &P, pair: &Pair) -> Result<(), AllocError>
    ensures { OnOk result (each wanted_of all.new ≡ each wanted_of all.old ++ with_kept (P.prints prints.now) pair.now) }
{
    match prints.print_of(&pair.object, pair.aspect) {
        None => Ok(()),
        Some(print) => {
            let object = pair.object.clone()?;
            all.push(Use {
                object,
                aspect: pair.aspect,
                print,
            })?;
            Ok(())
        }
    }
}

// The pairs with their prints.
fn with_prints<P: Prints>(
    alloc: Global,
    prints: &P,
    pairs: &[Pair],
) -> Result<List<Use>, AllocError>
    ensures { IfOk result (λ l. each wanted_of l ≡ flat_map (with_kept (P.prints prints.now)) pairs.now) }
{
    let mut all = List::new(alloc);
    'pairs: for pair in pairs {
        add_use(&mut all, prints, pair)?;
    }
    Ok(all)
}

/// The uses of a module that is laid out: each object of another module, by aspect, that its text
/// relies on, with the print that it has; ascending by module, object and aspect, each once.
///
/// `types` is the map of the module's own types and of those around it. The definition goes one step
/// for each name that the map holds; a list with more names than those gives the same. An error is
/// want of memory alone.
pub fn uses_of<T: Types, P: Prints>(
    alloc: Global,
    types: &T,
    prints: &P,
    module: &TypedModule,
) -> Result<List<Use>, AllocError>
    ensures value { IfOk result (λ l. each wanted_of l ≡ uses_in (T.types types.now) (length (T.finite types.now).0) (module_view «module».now) (P.prints prints.now)) }
    ensures steps { (names : List Named) → AreAllNames (T.types types.now) names
        → IfOk result (λ l. each wanted_of l ≡ uses_in (T.types types.now) (length names) (module_view «module».now) (P.prints prints.now)) }
{
    let pairs = pairs_of(alloc, types, module)?;
    let uses = with_prints(alloc, prints, pairs.as_slice())?;
    Ok(uses)
}
