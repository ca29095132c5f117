//! What is declared around a place of a text, looked up by name.

ghost use Rattle.std.specs.Prelude.{◌≡◌, [], ◌∷◌, ◌++◌, ◌<◌, ◌≤◌, ◌-◌, ◌+◌, true, length, drop, List, Option, Some, None, is_some, bytes_eq, reverse, IsTrue, OnOk, IfOk};
ghost use Rattle.std.specs.List.{find};
ghost use Rattle.std.specs.Option.{option_copied};
ghost use Rattle.std.specs.Option.{option_map};
ghost use Rattle.ob_rules.specs.Names.{own_desc, bound_for};
ghost use Rattle.ob_cdecl_scopes.specs.Descending.{text_type, are_within, is_scope, is_scope_from};

use crate::inside::{Inside, Outside};
use crate::moves::{hide, put_all, put_back, take_inner};
use crate::predeclared::predeclared;
use crate::stack::Stack;
use crate::table::{Named, Table};
use ob_rules::{Bound, Coming, Entity, Known, Received, Surroundings};
use ob_tree::{List, Mark, Name, ObjName, QName};
use ob_types::{Basic, Desc, Method, TypeRef, TypedType, Types, Variable};
use std::alloc::{AllocError, Global};

impl Named for Known {
    ghost name = { λ k. k.name };

    fn name_bytes(&self) -> &[u8] {
        self.name.as_bytes()
    }
}

impl Named for TypedType {
    ghost name = { λ t. t.name };

    fn name_bytes(&self) -> &[u8] {
        self.name.as_bytes()
    }
}

impl Named for Bound {
    ghost name = { λ b. b.name };

    fn name_bytes(&self) -> &[u8] {
        self.name.as_bytes()
    }
}

/// What the imports of a module show, found by the names of modules and objects.
pub trait Imports: Types {
    ghost use Rattle.std.specs.Prelude.{◌≡◌};
    ghost use Rattle.std.specs.Option.{option_copied};

    /// The description of that object of that module; none exactly where the map does not hold it.
    /// Takes no memory.
    fn shown(&self, unit: &Name, name: &Name) -> Option<&Desc>
        ensures { option_copied result ≡ Self.types self.now (record { «module» = unit.now; object = name.now }) };
}

/// What stands around a part of a module: what its imports show, its types so far, the names that
/// are known with their scopes, its bound procedures, and the procedure at hand.
#[derive(Drop)]
pub struct Scope<'a, E> {
    unit: Name,
    imported: &'a E,
    own: Table<TypedType>,
    known: Table<Known>,
    scope: u32,
    level: u32,
    path: ObjName,
    later_types: Stack,
    coming: List<Coming>,
    bound: Table<Bound>,
    guards: Vec<(Variable, Option<TypeRef>)>,
    receiver: Option<Received>,
    result_type: Option<TypeRef>,
    in_loop: bool,
    // The type of the parameter of Out.String.
    text: Desc,
    ghost open_text: { text ≡ text_type },
    ghost scopes_fall: { IsTrue (are_within scope known) },
}

fn desc_in(t: Option<&TypedType>) -> Option<&Desc>
    ensures { option_copied result ≡ own_desc (option_copied t.entry) }
{
    match t {
        None => None,
        Some(t) => Some(&t.desc),
    }
}

fn scope_in(known: Option<&Known>) -> Option<u32>
    ensures { result ≡ option_map (λ k. k.scope) (option_copied known.entry) }
{
    match known {
        None => None,
        Some(known) => Some(known.scope),
    }
}

fn is_number(found: Option<u32>, scope: u32) -> bool
    ensures { result ≡ is_scope found scope }
{
    match found {
        None => false,
        Some(found) => found == scope,
    }
}

fn is_from(found: Option<u32>, level: u32) -> bool
    ensures { result ≡ is_scope_from found level }
{
    match found {
        None => false,
        Some(found) => level <= found,
    }
}

fn find_bound<'a>(bound: &'a [Bound], owner: &QName, name: &Name) -> Option<&'a Bound>
    ensures { option_copied result ≡ bound_for (reverse bound.now) owner.now name.now }
{
    let mut i = bound.len();
    'procedures: while i > 0 {
        i -= 1;
        if bound[i].owner.object.as_bytes() == owner.object.as_bytes()
            && bound[i].name.as_bytes() == name.as_bytes()
        {
            return Some(&bound[i]);
        }
    }
    None
}

/// How many names are known, and how many types the module has, at a place of a module.
#[derive(Clone, Copy)]
pub struct Marked {
    pub known: usize,
    pub own: usize,
}

impl<'a, E: Imports> Types for Scope<'a, E> {
    ghost use Rattle.ob_rules.specs.Names.{map_of};
    ghost use Rattle.ob_cdecl_scopes.specs.Scopes.{around_of};
    ghost use Rattle.ob_cdecl_scopes.specs.Finite.{scope_finite};

    ghost types = { λ s. map_of (around_of E.types s) };

    ghost finite = { λ s. scope_finite E.types s (E.finite s.imported.now) };

    fn desc_of(&self, name: &QName) -> Option<&Desc> {
        if name.module.as_bytes() == self.unit.as_bytes() {
            return desc_in(self.own.find(name.object.as_bytes()));
        }
        if name.module.as_bytes() == b"Out".as_slice()
            && name.object.as_bytes() == b"String(1".as_slice()
        {
            return Some(&self.text);
        }
        self.imported.desc_of(name)
    }
}

impl<'a, E: Imports> Surroundings for Scope<'a, E> {
    ghost use Rattle.std.proofs.Common.{refl};
    ghost use Rattle.ob_cdecl_scopes.specs.Scopes.{around_of};

    ghost around = { λ s. around_of E.types s };

    fn unit(&self) -> Name {
        self.unit
    }

    fn shown(&self, unit: &Name, name: &Name) -> Option<&Desc> {
        self.imported.shown(unit, name)
    }

    fn known(&self, name: &Name) -> Option<&Known> {
        self.known.find(name.as_bytes())
    }

    fn is_known_in_scope(&self, name: &Name) -> bool {
        is_number(scope_in(self.known.find(name.as_bytes())), self.scope)
    }

    fn is_declared(&self, name: &Name) -> bool {
        is_from(scope_in(self.known.find(name.as_bytes())), self.level)
    }

    fn declares_type(&self, name: &Name) -> bool {
        self.later_types.find(name.as_bytes()).is_some()
    }

    fn scope(&self) -> u32 {
        self.scope
    }

    fn level(&self) -> u32 {
        self.level
    }

    fn path(&self) -> &[u8] {
        self.path.as_bytes()
    }

    fn coming(&self) -> &[Coming] {
        self.coming.as_slice()
    }

    fn bound_for(&self, owner: &QName, name: &Name) -> Option<&Bound> {
        find_bound(self.bound.as_slice(), owner, name)
    }

    fn guards(&self) -> &[(Variable, Option<TypeRef>)] {
        &self.guards
    }

    fn receiver(&self) -> Option<&Received> {
        self.receiver.as_ref()
    }

    fn result_type(&self) -> Option<&TypeRef> {
        self.result_type.as_ref()
    }

    fn in_loop(&self) -> bool {
        self.in_loop
    }

    fn set_in_loop(&mut self, in_loop: bool) {
        self.in_loop = in_loop;
    }

    fn guard(&mut self, variable: Variable, t: Option<TypeRef>) -> Result<(), AllocError> {
        self.guards.push((variable, t))?;
        Ok(())
    }

    fn unguard(&mut self) {
        let _ = self.guards.pop();
    }

    ghost all_types = { λ s. refl };
}

impl<'a, E: Imports> Scope<'a, E> {
    ghost use Rattle.ob_rules.specs.Headings.{of_scope, change_type, with_method};
    ghost use Rattle.ob_cdecl_scopes.specs.Scopes.{around_of, at_start, at_module};
    ghost use Rattle.ob_cdecl_scopes.specs.Bodies.{names_in, outer_names, body_around, restored};

    /// What stands around at the start of a module: no name is known, in the scope of number 0.
    pub fn new(alloc: Global, unit: Name, imported: &'a E) -> Result<Scope<'a, E>, AllocError>
        ensures { IfOk result (λ s. around_of E.types s ≡ at_start unit (E.types imported.now)) }
    {
        let path = ObjName::new(alloc, b"".as_slice())?;
        Ok(Scope {
            unit,
            imported,
            own: Table::new(alloc),
            known: Table::new(alloc),
            scope: 0,
            level: 1,
            path,
            later_types: Stack::new(alloc),
            coming: List::new(alloc),
            bound: Table::new(alloc),
            guards: Vec::new(alloc),
            receiver: None,
            result_type: None,
            in_loop: false,
            text: Desc::OpenArray(Mark::Hidden, TypeRef::Basic(Basic::Char)),
        })
    }

    /// From here on a name is known, in the innermost scope.
    pub fn declare(&mut self, alloc: Global, name: Name, what: Entity) -> Result<(), AllocError>
        ensures { OnOk result (around_of E.types self.new ≡ record (around_of E.types self.old) { known = record { name = name; scope = (around_of E.types self.old).scope; what = what } ∷ (around_of E.types self.old).known }) }
    {
        let scope = self.scope;
        self.known.push(alloc, Known { name, scope, what })
    }

    /// From here on the module has one more type.
    pub fn add_type(&mut self, alloc: Global, t: TypedType) -> Result<(), AllocError>
        ensures { OnOk result (around_of E.types self.new ≡ record (around_of E.types self.old) { own = t ∷ (around_of E.types self.old).own }) }
    {
        self.own.push(alloc, t)
    }

    /// From here on a scope in the innermost one is the innermost.
    pub fn enter(&mut self) -> Result<(), AllocError>
        ensures { OnOk result (around_of E.types self.new ≡ record (around_of E.types self.old) { scope = (around_of E.types self.old).scope + 1 }) }
    {
        if self.scope == u32::MAX {
            return Err(AllocError);
        }
        self.scope += 1;
        Ok(())
    }

    /// How many names are known, and how many types the module has. The scopes of the known names fall,
    /// the latest first. Takes no memory.
    pub fn mark(&self) -> Marked
        ensures known { result.known ≡ length (around_of E.types self.now).known }
        ensures own { result.own ≡ length (around_of E.types self.now).own }
        ensures fall { are_within (around_of E.types self.now).scope (around_of E.types self.now).known ≡ true }
    {
        Marked {
            known: self.known.len(),
            own: self.own.len(),
        }
    }

    /// Ends the innermost scope: as many names are known and the module has as many types as at
    /// the mark. Takes no memory.
    pub fn leave(&mut self, mark: Marked)
        requires inner { 0 < (around_of E.types self.old).scope }
        requires fall { are_within ((around_of E.types self.old).scope - 1) (drop (length (around_of E.types self.old).known - mark.known) (around_of E.types self.old).known) ≡ true }
        ensures { around_of E.types self.new ≡ record (around_of E.types self.old) { scope = (around_of E.types self.old).scope - 1; known = drop (length (around_of E.types self.old).known - mark.known) (around_of E.types self.old).known; own = drop (length (around_of E.types self.old).own - mark.own) (around_of E.types self.old).own } }
    {
        self.known.cut(mark.known);
        self.own.cut(mark.own);
        self.scope -= 1;
    }

    /// The module has as many types as at the mark. Takes no memory.
    pub fn cut_types(&mut self, mark: Marked)
        ensures { around_of E.types self.new ≡ record (around_of E.types self.old) { own = drop (length (around_of E.types self.old).own - mark.own) (around_of E.types self.old).own } }
    {
        self.own.cut(mark.own);
    }

    /// What stands around at the start of a module: the predeclared names are known, around the
    /// module's scope, of number 1.
    pub fn of_module(alloc: Global, unit: Name, imported: &'a E) -> Result<Scope<'a, E>, AllocError>
        ensures { IfOk result (λ s. around_of E.types s ≡ at_module unit (E.types imported.now)) }
    {
        let path = ObjName::new(alloc, b"".as_slice())?;
        let known = predeclared(alloc)?;
        Ok(Scope {
            unit,
            imported,
            own: Table::new(alloc),
            known,
            scope: 1,
            level: 1,
            path,
            later_types: Stack::new(alloc),
            coming: List::new(alloc),
            bound: Table::new(alloc),
            guards: Vec::new(alloc),
            receiver: None,
            result_type: None,
            in_loop: false,
            text: Desc::OpenArray(Mark::Hidden, TypeRef::Basic(Basic::Char)),
        })
    }

    /// From here on the scope declares types of these names, earlier or later. Gives the names
    /// that it declared before. Takes no memory.
    pub fn set_later_types(&mut self, names: Stack) -> Stack
        ensures before { result ≡ (around_of E.types self.old).later_types }
        ensures later { around_of E.types self.new ≡ record (around_of E.types self.old) { later_types = names } }
    {
        std::mem::replace(&mut self.later_types, names)
    }

    /// From here on these bound procedures come further on in the text. Takes no memory.
    pub fn set_coming(&mut self, coming: List<Coming>)
        ensures { around_of E.types self.new ≡ record (around_of E.types self.old) { coming = coming } }
    {
        self.coming = coming;
    }

    /// Whether the module has a type of that name. Takes no memory.
    pub fn has_type(&self, name: &[u8]) -> bool
        ensures { result ≡ is_some (find (λ t. bytes_eq t.name name.now) (around_of E.types self.now).own) }
    {
        self.own.find(name).is_some()
    }

    /// The types that the module has, the oldest first. Takes no memory.
    pub fn own_types(&self) -> &[TypedType]
        ensures { reverse result.now ≡ (around_of E.types self.now).own }
    {
        self.own.as_slice()
    }

    /// From here on the record types of that name have one more bound procedure.
    pub fn add_method(
        &mut self,
        alloc: Global,
        owner: &[u8],
        method: &Method,
    ) -> Result<(), AllocError>
        ensures { OnOk result (around_of E.types self.new ≡ record (around_of E.types self.old) { own = change_type owner.now (λ r. with_method r method.now) (around_of E.types self.old).own }) }
    {
        self.own.add_method(alloc, owner, method)
    }

    /// From here on no bound procedure is known. Takes no memory.
    pub fn unbind(&mut self, alloc: Global)
        ensures { around_of E.types self.new ≡ record (around_of E.types self.old) { bound = [] } }
    {
        self.bound = Table::new(alloc);
    }

    /// From here on one more bound procedure is known.
    pub fn bind(&mut self, alloc: Global, bound: Bound) -> Result<(), AllocError>
        ensures { OnOk result (around_of E.types self.new ≡ record (around_of E.types self.old) { bound = bound ∷ (around_of E.types self.old).bound }) }
    {
        self.bound.push(alloc, bound)
    }

    /// From here on the module has these types, and these bound procedures are known, of each the
    /// oldest first, and none comes any more.
    pub fn set_bound(
        &mut self,
        alloc: Global,
        own: Vec<TypedType>,
        bound: Vec<Bound>,
    ) -> Result<(), AllocError>
        ensures { OnOk result (around_of E.types self.new ≡ record (around_of E.types self.old) { own = reverse own.items; bound = reverse bound.items; coming = [] }) }
    {
        let own = Table::from_items(alloc, own)?;
        let bound = Table::from_items(alloc, bound)?;
        self.own = own;
        self.bound = bound;
        self.coming = List::new(alloc);
        Ok(())
    }

    /// As many names are known as at the mark. Takes no memory.
    pub fn cut_names(&mut self, mark: Marked)
        ensures { around_of E.types self.new ≡ record (around_of E.types self.old) { known = drop (length (around_of E.types self.old).known - mark.known) (around_of E.types self.old).known } }
    {
        self.known.cut(mark.known);
    }

    /// Ends the innermost scope, that of a heading, and puts its names aside.
    pub fn leave_heading(&mut self, alloc: Global) -> Result<Inside, AllocError>
        requires { 0 < (around_of E.types self.old).scope }
        ensures inside { IfOk result (λ i. names_in i ≡ of_scope ((around_of E.types self.old).scope - 1) (around_of E.types self.old).known) }
        ensures scope { IfOk result (λ i. i.scope ≡ (around_of E.types self.old).scope) }
        ensures outer { OnOk result (around_of E.types self.new ≡ record (around_of E.types self.old) { scope = (around_of E.types self.old).scope - 1; known = outer_names ((around_of E.types self.old).scope - 1) (around_of E.types self.old).known }) }
    {
        let names = take_inner(alloc, &mut self.known, self.scope)?;
        let inside = Inside {
            names,
            scope: self.scope,
        };
        self.scope -= 1;
        Ok(inside)
    }

    /// So many names are known, of those that are known and those that were put aside, which are
    /// later; the others are put aside, the latest first.
    pub fn show(
        &mut self,
        alloc: Global,
        aside: &mut Vec<Known>,
        names: usize,
    ) -> Result<(), AllocError>
        requires enough { names ≤ length (aside.old.items ++ (around_of E.types self.old).known) }
        requires fall { are_within (around_of E.types self.old).scope (aside.old.items ++ (around_of E.types self.old).known) ≡ true }
        ensures shown { OnOk result (around_of E.types self.new ≡ record (around_of E.types self.old) { known = drop (length (aside.old.items ++ (around_of E.types self.old).known) - names) (aside.old.items ++ (around_of E.types self.old).known) }) }
        ensures aside { OnOk result (aside.new.items ++ (around_of E.types self.new).known ≡ aside.old.items ++ (around_of E.types self.old).known) }
    {
        hide(&mut self.known, aside, names, self.scope)?;
        put_back(alloc, &mut self.known, aside, names, self.scope)
    }

    /// From here on the body of a procedure is judged: the names of its heading are known, and its
    /// own scope is the innermost. Gives what `leave_body` needs.
    pub fn enter_body(
        &mut self,
        alloc: Global,
        inside: Inside,
        path: ObjName,
        receiver: Option<Received>,
        of: Option<TypeRef>,
    ) -> Result<Outside, AllocError>
        requires { inside.scope ≡ (around_of E.types self.old).scope + 1 }
        ensures body { OnOk result (around_of E.types self.new ≡ body_around (around_of E.types self.old) (names_in inside) path receiver of) }
        ensures outside { IfOk result (λ o. restored o (around_of E.types self.new) ≡ around_of E.types self.old) }
    {
        let Inside { names, scope } = inside;
        let outside = Outside {
            known: self.known.len(),
            own: self.own.len(),
            level: self.level,
            path: std::mem::replace(&mut self.path, path),
            later_types: std::mem::replace(&mut self.later_types, Stack::new(alloc)),
            guards: std::mem::replace(&mut self.guards, Vec::new(alloc)),
            receiver: std::mem::replace(&mut self.receiver, receiver),
            result_type: std::mem::replace(&mut self.result_type, of),
            in_loop: self.in_loop,
        };
        self.scope = scope;
        self.level = scope;
        self.in_loop = false;
        put_all(alloc, &mut self.known, names, scope)?;
        Ok(outside)
    }

    /// Ends the body of a procedure. Takes no memory.
    pub fn leave_body(&mut self, outside: Outside)
        requires inner { 0 < (around_of E.types self.old).scope }
        requires fall { are_within (restored outside (around_of E.types self.old)).scope (restored outside (around_of E.types self.old)).known ≡ true }
        ensures { around_of E.types self.new ≡ restored outside (around_of E.types self.old) }
    {
        let Outside {
            known,
            own,
            level,
            path,
            later_types,
            guards,
            receiver,
            result_type,
            in_loop,
        } = outside;
        self.known.cut(known);
        self.own.cut(own);
        self.scope -= 1;
        self.level = level;
        self.path = path;
        self.later_types = later_types;
        self.guards = guards;
        self.receiver = receiver;
        self.result_type = result_type;
        self.in_loop = in_loop;
    }
}
