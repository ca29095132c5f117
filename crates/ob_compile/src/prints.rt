//! The prints that uses keep, found in an environment.

ghost use Rattle.ob_env.specs.Faces.{faces_of, print_in};

use ob_env::Env;
use ob_tree::{Print, QName};
use ob_types::Aspect;
use ob_uses::Prints;

/// The prints of the objects of an environment.
pub struct EnvPrints<'a> {
    pub env: &'a Env,
}

impl Drop for EnvPrints<'_> {
    fn drop(self) {
        let EnvPrints { env: _ } = self;
    }
}

impl Prints for EnvPrints<'_> {
    ghost prints = { λ p. print_in (faces_of p.env.now) };

    fn print_of(&self, name: &QName, aspect: Aspect) -> Option<Print> {
        self.env.print_of(name, aspect)
    }
}
