//! A name where it is used.

ghost use Rattle.std.specs.Prelude.{◌≡◌, ◌≤◌, length, IfOk};

use crate::compact_name::CompactName;
use crate::ident::Ident;
use crate::name::Name;
use crate::pos::Pos;
use std::alloc::{AllocError, Global};
use std::marker::Model;

/// An identifier that is used where it stands, in less memory than an [`Ident`]. Contracts see
/// it as the identifier.
#[derive(Drop)]
pub struct Mention {
    name: CompactName,
    pos: Pos,
}

impl Model for Mention {
    ghost use Rattle.ob_tree.specs.declared.ident.Ident.{Ident as Identifier};

    ghost Value = { Identifier };

    ghost view = { λ m. record { name = m.name; pos = m.pos } };
}

impl Mention {
    /// The identifier of that text. Takes memory for more than 14 characters alone.
    #[inline(always)]
    pub fn new(alloc: Global, text: &[u8], pos: Pos) -> Result<Mention, AllocError>
        requires { length text.now ≤ 64 }
        ensures { IfOk result (λ m. m ≡ record { name = text.now; «pos» = pos }) }
    {
        let name = CompactName::new(alloc, text)?;
        Ok(Mention { name, pos })
    }

    /// The same identifier. Takes memory for more than 14 characters alone.
    pub fn of(alloc: Global, ident: &Ident) -> Result<Mention, AllocError>
        ensures { IfOk result (λ m. m ≡ ident.now) }
    {
        let name = CompactName::of(alloc, &ident.name)?;
        Ok(Mention {
            name,
            pos: ident.pos,
        })
    }

    /// Where it stands.
    pub fn pos(&self) -> Pos
        ensures { result ≡ self.now.pos }
    {
        self.pos
    }

    /// Its name.
    pub fn name(&self) -> Name
        ensures { result ≡ self.now.name }
    {
        self.name.name()
    }

    /// The identifier.
    pub fn ident(&self) -> Ident
        ensures { result ≡ self.now }
    {
        Ident {
            name: self.name(),
            pos: self.pos,
        }
    }
}
