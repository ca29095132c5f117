//! The types that the interfaces show.

ghost use Rattle.std.specs.Prelude.{◌≡◌};
ghost use Rattle.ob_env.specs.Faces.{described};
ghost use Rattle.ob_env.specs.Faces.{faces_of};
ghost use Rattle.ob_env.specs.Laws.{described_finite};

use crate::env::Env;
use ob_tree::QName;
use ob_types::{Desc, Types};

impl Types for Env {
    ghost types = { λ e. described (faces_of e) };

    ghost finite = { λ e. described_finite (faces_of e) };

    fn desc_of(&self, name: &QName) -> Option<&Desc> {
        match self.lookup(name) {
            None => None,
            Some(object) => Some(&object.desc),
        }
    }
}
