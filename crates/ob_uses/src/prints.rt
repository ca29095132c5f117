//! Where prints are found.

ghost use Rattle.std.specs.Prelude.{◌≡◌, Option};
ghost use Rattle.ob_tree.specs.declared.names.QName.{QName};
ghost use Rattle.ob_tree.specs.declared.print.Print.{Print};
ghost use Rattle.ob_types.specs.declared.face.Aspect.{Aspect};

use ob_tree::{Print, QName};
use ob_types::Aspect;

/// The prints of the objects of other modules.
pub trait Prints {
    /// The print of an object and aspect; none where there is no such object with that aspect.
    ghost prints: { Self → QName → Aspect → Option Print };

    /// That print. Takes no memory.
    fn print_of(&self, name: &QName, aspect: Aspect) -> Option<Print>
        ensures { result ≡ prints self.now name.now aspect };
}
