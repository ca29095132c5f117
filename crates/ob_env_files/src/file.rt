//! A symbol file that was read: its bytes, and the interface that they spell, whose objects are found by their names.

ghost use Rattle.std.specs.Prelude.{◌≡◌, nat_eq, true, Some, IfOk, OnOk, MatchResult};
ghost use Rattle.std.specs.Cmp.Lexicographic.{pointwise, slice_cmp};
ghost use Rattle.std.specs.Ordering.{nat_cmp};
ghost use Rattle.indexmap.specs.IndexMap.{insert_entry};
ghost use Rattle.std.specs.Option.{option_copied};
ghost use Rattle.std.specs.List.Sorted.{IsStrictlySortedBy};
ghost use Rattle.ob_format.specs.Format.{whole};
ghost use Rattle.ob_sym.specs.Grammar.{face as face_form, by_name};
ghost use Rattle.ob_types.specs.declared.face.Interface.{Interface as Face};
ghost use Rattle.ob_layout.specs.Index.{position_from, first_by};
ghost use Rattle.ob_env_files.specs.Names.{names_of, under_names};

use indexmap::IndexMap;
use ob_sym::{SymFault, read_sym};
use ob_tree::{List, Name, ObjName, Text};
use ob_types::{Interface, Object, Use};
use std::alloc::{AllocError, Global};
use std::cmp::Ordering;
use std::marker::Model;
use std::rc::Rc;

// The bytes of a symbol file, and the interface that they spell, with its objects under their names. Contracts see it
// as the interface.
#[derive(Drop)]
struct Spelled {
    bytes: Text,
    module: Name,
    imports: List<Name>,
    objects: IndexMap<ObjName, Object>,
    uses: List<Use>,
}

impl Model for Spelled {
    ghost use Rattle.std.specs.Prelude.{◌≡◌, Some};
    ghost use Rattle.indexmap.specs.IndexMap.{values};
    ghost use Rattle.ob_format.specs.Format.{whole};
    ghost use Rattle.ob_sym.specs.Grammar.{face as face_form, by_name};
    ghost use Rattle.ob_types.specs.declared.face.Interface.{Interface as Face};
    ghost use Rattle.ob_env_files.specs.Names.{under_names, spelled_face};
    ghost use Rattle.std.specs.List.Sorted.{IsStrictlySortedBy};

    ghost Value = { Face };

    ghost view = { λ s. spelled_face s.«module» s.imports s.objects s.uses };

    ghost invariant = { λ s. (whole face_form s.bytes ≡ Some (spelled_face s.«module» s.imports s.objects s.uses)) × (s.objects.entries ≡ under_names (values s.objects)) × IsStrictlySortedBy by_name (values s.objects) };
}

/// A symbol file that was read: its bytes, and the interface that they spell, whose objects are
/// found by their names. Clones share one place in memory. Contracts see it as the interface.
#[derive(Drop)]
pub struct SymbolFile {
    shared: Rc<Spelled>,
}

impl Model for SymbolFile {
    ghost use Rattle.ob_types.specs.declared.face.Interface.{Interface as Face};

    ghost Value = { Face };

    ghost view = { λ f. f.shared.value };
}

// Puts an object under its name, in the place of one that has it or else behind the others.
fn put(index: &mut IndexMap<ObjName, Object>, object: Object) -> Result<(), AllocError>
    ensures { OnOk result (index.new.entries ≡ insert_entry (pointwise nat_eq) index.old.entries object.name object) }
{
    let name = object.name.clone()?;
    index.insert(name, object)?;
    Ok(())
}

// Objects that ascend by name, under their names.
fn indexed(alloc: Global, objects: List<Object>) -> Result<IndexMap<ObjName, Object>, AllocError>
    requires { IsStrictlySortedBy by_name objects }
    ensures { IfOk result (λ index. index.entries ≡ under_names objects) }
{
    let mut index = IndexMap::with_capacity(alloc, objects.len())?;
    'objects: for object in objects.into_items() {
        put(&mut index, object)?;
    }
    Ok(index)
}

// The position of a name among objects that ascend by name, found by halving.
fn halved(objects: &[Object], name: &[u8]) -> Option<usize>
    requires { IsStrictlySortedBy by_name objects.now }
    ensures { result ≡ position_from 0 name.now (names_of objects.now) }
{
    match objects.binary_search_by(
        |object: &Object| -> Ordering
            ensures { result ≡ slice_cmp nat_cmp object.now.name name.entry.now }
        { object.name.as_bytes().cmp(name) },
    ) {
        Ok(position) => Some(position),
        Err(_) => None,
    }
}

fn are_same(a: &[u8], b: &[u8]) -> bool
    ensures { result ≡ true → a.now ≡ b.now }
{
    a == b
}

impl Spelled {
    // The bytes, and the interface that they spell.
    #[tactic(auto, using(crate::proofs::Objects::rising, crate::proofs::Objects::held_rise, crate::proofs::Objects::named_again, crate::proofs::Objects::parts_are))]
    fn of(alloc: Global, bytes: &[u8], face: Interface) -> Result<Spelled, AllocError>
        requires { whole face_form bytes.now ≡ Some face }
        ensures { IfOk result (λ s. s ≡ face) }
    {
        let Interface {
            module,
            imports,
            objects,
            uses,
        } = face;
        let objects = indexed(alloc, objects)?;
        let bytes = Text::from_slice(alloc, bytes)?;
        Ok(Spelled {
            bytes,
            module,
            imports,
            objects,
            uses,
        })
    }

    fn module(&self) -> &Name
        ensures { result.now ≡ self.now.«module» }
    {
        &self.module
    }

    fn imports(&self) -> &[Name]
        ensures { result.now ≡ self.now.imports }
    {
        self.imports.as_slice()
    }

    fn objects(&self) -> &[Object]
        ensures { result.now ≡ self.now.objects }
    {
        self.objects.values().as_slice()
    }

    fn uses(&self) -> &[Use]
        ensures { result.now ≡ self.now.uses }
    {
        self.uses.as_slice()
    }

    fn index(&self) -> &IndexMap<ObjName, Object>
        ensures { result.now.entries ≡ under_names self.now.objects }
    {
        &self.objects
    }

    // Whether these are the bytes.
    fn has_bytes(&self, bytes: &[u8]) -> bool
        ensures { result ≡ true → whole face_form bytes.now ≡ Some self.now }
    {
        are_same(self.bytes.as_slice(), bytes)
    }

    // The position of a name, found by halving.
    fn position_by_halves(&self, name: &[u8]) -> Option<usize>
        ensures { result ≡ position_from 0 name.now (names_of self.now.objects) }
    {
        halved(self.objects.values().as_slice(), name)
    }

    fn bytes(&self) -> &[u8]
        ensures { whole face_form result.now ≡ Some self.now }
    {
        self.bytes.as_slice()
    }
}

// The object of a name.
fn object_in<'a>(index: &'a IndexMap<ObjName, Object>, name: &ObjName) -> Option<&'a Object>
    ensures { (os : _) → index.now.entries ≡ under_names os → option_copied result ≡ first_by (λ o. o.name) os name.now }
{
    index.get(name)
}

// The position of a name.
fn position_in(index: &IndexMap<ObjName, Object>, name: &ObjName) -> Option<usize>
    ensures { (os : _) → index.now.entries ≡ under_names os → result ≡ position_from 0 name.now (names_of os) }
{
    index.get_index_of(name)
}

impl SymbolFile {
    /// The symbol file of these bytes, which spell that interface.
    pub fn of(alloc: Global, bytes: &[u8], face: Interface) -> Result<SymbolFile, AllocError>
        requires { whole face_form bytes.now ≡ Some face }
        ensures { IfOk result (λ f. f ≡ face) }
    {
        let spelled = Spelled::of(alloc, bytes, face)?;
        let shared = Rc::new(alloc, spelled)?;
        Ok(SymbolFile { shared })
    }

    /// The symbol file of these bytes. `Damaged` comes exactly where the bytes are no symbol file,
    /// `Memory` only where memory is wanting.
    pub fn read(alloc: Global, bytes: &[u8]) -> Result<SymbolFile, SymFault>
        ensures found { IfOk result (λ f. face_form.fits f × (bytes.now ≡ face_form.spell f)) }
        ensures again { (f : Face) → face_form.fits f → bytes.now ≡ face_form.spell f → MatchResult result (λ g. g ≡ f) (λ e. e ≡ SymFault.Memory) }
    {
        let face = read_sym(alloc, bytes)?;
        match SymbolFile::of(alloc, bytes, face) {
            Ok(file) => Ok(file),
            Err(_) => Err(SymFault::Memory),
        }
    }

    /// The name of its module.
    pub fn module(&self) -> &Name
        ensures { result.now ≡ self.now.«module» }
    {
        self.shared.module()
    }

    /// The imports, in the order of the source.
    pub fn imports(&self) -> &[Name]
        ensures { result.now ≡ self.now.imports }
    {
        self.shared.imports()
    }

    /// The objects, ascending by name.
    pub fn objects(&self) -> &[Object]
        ensures { result.now ≡ self.now.objects }
    {
        self.shared.objects()
    }

    /// The uses, ascending by module, object and aspect.
    pub fn uses(&self) -> &[Use]
        ensures { result.now ≡ self.now.uses }
    {
        self.shared.uses()
    }

    /// The objects under their names, in the same order.
    pub fn index(&self) -> &IndexMap<ObjName, Object>
        ensures { result.now.entries ≡ under_names self.now.objects }
    {
        self.shared.index()
    }

    /// The object of that name; none exactly where the interface has none. Takes no memory.
    pub fn object(&self, name: &ObjName) -> Option<&Object>
        ensures { option_copied result ≡ first_by (λ o. o.name) self.now.objects name.now }
    {
        object_in(self.index(), name)
    }

    /// The position of the object of that name. Takes no memory.
    pub fn position(&self, name: &ObjName) -> Option<usize>
        ensures { result ≡ position_from 0 name.now (names_of self.now.objects) }
    {
        position_in(self.index(), name)
    }

    /// The position of the object whose name has these bytes. More than 14 of them are searched
    /// for by halves. Takes no memory.
    pub fn position_of(&self, name: &[u8]) -> Option<usize>
        ensures { result ≡ position_from 0 name.now (names_of self.now.objects) }
    {
        match ObjName::short(name) {
            Some(name) => self.position(&name),
            None => self.shared.position_by_halves(name),
        }
    }

    /// Whether these are its bytes, which then spell its interface.
    pub fn has_bytes(&self, bytes: &[u8]) -> bool
        ensures { result ≡ true → whole face_form bytes.now ≡ Some self.now }
    {
        self.shared.has_bytes(bytes)
    }

    /// Whether both have the same bytes, and so the same interface.
    pub fn is_same(&self, other: &SymbolFile) -> bool
        ensures { result ≡ true → self.now ≡ other.now }
    {
        self.has_bytes(other.shared.bytes())
    }
}

impl Clone for SymbolFile {
    ghost use Rattle.std.specs.Prelude.{◌≡◌};

    ghost is_clone = { λ a b. b ≡ a };

    fn clone(&self) -> Result<SymbolFile, AllocError> {
        let shared = self.shared.clone()?;
        Ok(SymbolFile { shared })
    }
}
