//! The interfaces around a module, in which modules and objects are found by name.

ghost use Rattle.std.specs.Prelude.{◌≡◌, IfOk};
ghost use Rattle.std.specs.Option.{option_copied, option_map};
ghost use Rattle.ob_env_files.specs.Names.{under_names};
ghost use Rattle.ob_env.specs.Faces.{print_in, faces_of};
ghost use Rattle.ob_env.specs.Found.{object_found, interface_by_name, module_names, carried_print, CarryPrints};
ghost use Rattle.ob_env.specs.Found.{place_of};
ghost use Rattle.ob_layout.specs.Index.{IsIndexOf};

use crate::found::{index_placed, modules_of, placed, position_of_placed, position_placed};
use indexmap::IndexMap;
use ob_env_files::SymbolFile;
use ob_layout::NameIndex;
use ob_tree::{List, Name, ObjName, Print, QName};
use ob_types::{Aspect, Object};
use std::alloc::{AllocError, Global};
use std::marker::Model;

/// The interfaces around a module, in which modules and objects are found by their names.
/// Contracts see it as the list of them, in the order in which the walk left their modules.
pub struct Env {
    faces: List<SymbolFile>,
    // the positions of their modules
    modules: NameIndex,
}

impl Model for Env {
    ghost use Rattle.std.specs.Prelude.{List as Listed};
    ghost use Rattle.ob_types.specs.declared.face.Interface.{Interface as Face};
    ghost use Rattle.ob_layout.specs.Index.{IsIndexOf};
    ghost use Rattle.ob_env.specs.Found.{module_names, CarryPrints};

    ghost Value = { Listed Face };

    ghost view = { λ e. e.faces };

    ghost invariant = { λ e. IsIndexOf e.modules.positions (module_names e.faces) × CarryPrints e.faces };
}

impl Drop for Env {
    fn drop(self) {
        let Env {
            faces: _,
            modules: _,
        } = self;
    }
}

// The print of an aspect.
fn carried(object: &Object, aspect: Aspect) -> Option<Print>
    ensures { result ≡ carried_print object.now aspect }
{
    match aspect {
        Aspect::Shape => Some(object.shape),
        Aspect::Layout => object.layout,
    }
}

impl Env {
    /// The environment of these interfaces, each object of which carries the prints of its texts. It
    /// says nothing of whether they fit together.
    pub fn new(alloc: Global, faces: List<SymbolFile>) -> Result<Env, AllocError>
        requires { CarryPrints faces }
        ensures { IfOk result (λ e. e ≡ faces) }
    {
        let modules = modules_of(alloc, faces.as_slice())?;
        Ok(Env { faces, modules })
    }

    /// The interfaces in their order.
    pub fn faces(&self) -> &[SymbolFile]
        ensures faces { result.now ≡ self.now }
        ensures prints { CarryPrints self.now }
    {
        self.faces.as_slice()
    }

    /// The objects of a module's interface under their names, in the interface's order; none exactly
    /// where there is no interface of that module. Takes no memory.
    pub fn index(&self, module: &Name) -> Option<&IndexMap<ObjName, Object>>
        ensures { option_map (λ m. m.entries) (option_copied result) ≡ option_map (λ i. under_names i.objects) (interface_by_name self.now «module».now) }
    {
        match self.modules.get(module.as_bytes()) {
            None => None,
            Some(at) => index_placed(self.faces.as_slice(), at),
        }
    }

    /// The object of that name, with its description and prints; none exactly where no module has
    /// it. Takes no memory.
    pub fn lookup(&self, name: &QName) -> Option<&Object>
        ensures { option_copied result ≡ object_found self.now name.now }
    {
        match self.modules.get(name.module.as_bytes()) {
            None => None,
            Some(at) => placed(self.faces.as_slice(), at, &name.object),
        }
    }

    /// The position of a module among the interfaces, and that of an object of it there, by the
    /// bytes of their names; none exactly where no module has it. Takes no memory.
    pub fn position(&self, module: &[u8], object: &[u8]) -> Option<(usize, usize)>
        ensures { result ≡ place_of self.now (record { «module» = «module».now; object = object.now }) }
    {
        match self.modules.get(module) {
            None => None,
            Some(at) => match position_of_placed(self.faces.as_slice(), at, object) {
                None => None,
                Some(position) => Some((at, position)),
            },
        }
    }

    /// The position of a name's module among the interfaces, and that of its object there; none
    /// exactly where no module has it. Takes no memory.
    pub fn place(&self, name: &QName) -> Option<(usize, usize)>
        ensures { result ≡ place_of self.now name.now }
    {
        match self.modules.get(name.module.as_bytes()) {
            None => None,
            Some(at) => match position_placed(self.faces.as_slice(), at, &name.object) {
                None => None,
                Some(position) => Some((at, position)),
            },
        }
    }

    /// The print of an object's aspect; none exactly where no module has the object with that
    /// aspect. Takes no memory.
    pub fn print_of(&self, name: &QName, aspect: Aspect) -> Option<Print>
        ensures { result ≡ print_in (faces_of self.now) name.now aspect }
    {
        let _ = self.faces();
        match self.lookup(name) {
            None => None,
            Some(object) => carried(object, aspect),
        }
    }
}
