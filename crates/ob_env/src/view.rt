//! The types of a module together with those that its imports show.

ghost use Rattle.std.specs.Prelude.{◌≡◌, IfOk};
ghost use Rattle.std.specs.Option.{option_copied};
ghost use Rattle.ob_layout.specs.Index.{IsIndexOf, position_from};
ghost use Rattle.ob_layout.specs.LaidOut.{type_named};
ghost use Rattle.ob_env.specs.Viewed.{seen_from, seen_finite, type_names};

use crate::env::Env;
use ob_layout::{NameIndex, item_at};
use ob_tree::QName;
use ob_types::{Desc, TypedModule, TypedType, Types};
use std::alloc::{AllocError, Global};

/// The types of a module, and those of its environment.
pub struct View<'a> {
    module: &'a TypedModule,
    env: &'a Env,
    // the positions of the module's own types
    own: NameIndex,
    ghost indexed: { IsIndexOf own.positions (type_names «module».now.types) },
}

impl Drop for View<'_> {
    fn drop(self) {
        let View {
            module: _,
            env: _,
            own: _,
        } = self;
    }
}

// The positions of types by their names.
fn index_of(alloc: Global, types: &[TypedType]) -> Result<NameIndex, AllocError>
    ensures { IfOk result (λ index. IsIndexOf index.positions (type_names types.now)) }
{
    let mut index = NameIndex::new(alloc);
    let mut at = 0;
    let mut rest = types;
    while let [first, more @ ..] = rest {
        index.note(alloc, first.name.as_bytes(), at)?;
        at += 1;
        rest = more;
    }
    Ok(index)
}

// The type of that name.
fn own_type<'a>(types: &'a [TypedType], own: &NameIndex, name: &[u8]) -> Option<&'a Desc>
    requires { IsIndexOf own.now.positions (type_names types.now) }
    ensures { option_copied result ≡ type_named types.now name.now }
{
    match own.get(name) {
        None => None,
        Some(at) => match item_at(types, at) {
            None => None,
            Some(found) => Some(&found.desc),
        },
    }
}

impl<'a> View<'a> {
    /// The view from a module over its environment.
    pub fn new(alloc: Global, module: &'a TypedModule, env: &'a Env) -> Result<View<'a>, AllocError>
        ensures { IfOk result (λ v. (v.«module».now ≡ «module».now) × (v.env.now ≡ env.now)) }
    {
        let own = index_of(alloc, module.types.as_slice())?;
        Ok(View { module, env, own })
    }

    /// The module.
    pub fn module(&self) -> &'a TypedModule
        ensures { result.now ≡ self.now.«module».now }
    {
        self.module
    }

    /// The position of the first of the module's own types that has that name. Takes no memory.
    pub fn position(&self, name: &[u8]) -> Option<usize>
        ensures { result ≡ position_from 0 name.now (type_names self.now.«module».now.types) }
    {
        self.own.get(name)
    }

    /// The description of the first of the module's own types that has that name. Takes no memory.
    pub fn own_desc(&self, name: &[u8]) -> Option<&'a Desc>
        ensures { option_copied result ≡ type_named self.now.«module».now.types name.now }
    {
        own_type(self.module.types.as_slice(), &self.own, name)
    }

    /// The environment.
    pub fn env(&self) -> &'a Env
        ensures { result.now ≡ self.now.env.now }
    {
        self.env
    }
}

impl Types for View<'_> {
    ghost types = { λ v. seen_from v.«module».now v.env.now };

    ghost finite = { λ v. seen_finite v.«module».now v.env.now };

    fn desc_of(&self, name: &QName) -> Option<&Desc> {
        if name.module.as_bytes() == self.module.name.as_bytes() {
            own_type(
                self.module.types.as_slice(),
                &self.own,
                name.object.as_bytes(),
            )
        } else {
            self.env.desc_of(name)
        }
    }
}
