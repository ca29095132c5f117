//! Headings in turn.

#![tactic(auto, using(ob_rules::proofs::BookLaws::after_none, ob_rules::proofs::BookLaws::after_joined))]

ghost use Rattle.std.specs.Prelude.{◌≡◌, ℕ, suc, true, false, ◌++◌, length, map, reverse, IfOk, OnOk};
ghost use Rattle.std.specs.Option.{option_map, option_copied};
ghost use Rattle.ob_cdecl_field.specs.Makes.{parameters_of};
ghost use Rattle.ob_cdecl_scopes.specs.Bodies.{names_in};
ghost use Rattle.ob_cdecl_scopes.specs.Scopes.{around_of};
ghost use Rattle.ob_rules.specs.Books.{book_after};
ghost use Rattle.ob_rules.specs.Judged.{paired, if_sound};
ghost use Rattle.ob_rules.specs.Names.{Around, found_in_scope};
ghost use Rattle.ob_rules.specs.Types.{inner, with_types};
ghost use Rattle.ob_rules.specs.Headings as spec;
ghost use Rattle.ob_cdecl_heading.specs.Kept.{IsKept, AreKept, seen, bound_seen, owner_seen};
ghost use Rattle.ob_cdecl_heading.specs.Sections.{sections_as, sections_of, around_inside, latest_in, bound_twice};

use crate::head::{BoundAs, Head};
use crate::heads::Heads;
use crate::owner::{know_receiver, owner_if};
use ob_cdecl_field::{Parameters, add_types, check_mark};
use ob_cdecl_scopes::{Imports, Inside, Scope};
use ob_cdecl_type::check_parameters;
use ob_cexpr_trait::CheckExpr;
use ob_rules::{Entity, Known, Notebook, Rule, Surroundings};
use ob_tree::{CompactName, Heading, Ident, Mark, Name, ObjName, Pos, QName, Receiver};
use ob_types::TypedType;
use ob_types_trees::copy_signature;
use std::alloc::{AllocError, Global};

fn joined(alloc: Global, first: &[u8], second: &[u8]) -> Result<ObjName, AllocError>
    ensures { IfOk result (λ r. r ≡ first.now ++ second.now) }
{
    let mut all = Vec::from_slice(alloc, first)?;
    all.extend_from_slice(second)?;
    ObjName::new(alloc, &all)
}

fn own_path(
    alloc: Global,
    bound: &Option<Option<BoundAs>>,
    name: &Name,
) -> Result<ObjName, AllocError>
    ensures { IfOk result (λ r. r ≡ spec.path_by (owner_seen bound.now) name.now) }
{
    match bound {
        Some(Some(bound)) => {
            let behind = joined(alloc, b".".as_slice(), name.as_bytes())?;
            joined(alloc, bound.owner.object.as_bytes(), behind.as_bytes())
        }
        Some(None) => ObjName::from_name(alloc, name),
        None => ObjName::from_name(alloc, name),
    }
}

fn heading_path<E: Imports>(
    alloc: Global,
    scope: &Scope<'_, E>,
    bound: &Option<Option<BoundAs>>,
    name: &Name,
) -> Result<ObjName, AllocError>
    ensures { IfOk result (λ r. r ≡ (around_of E.types scope.now).path ++ spec.path_by (owner_seen bound.now) name.now) }
{
    let own = own_path(alloc, bound, name)?;
    joined(alloc, scope.path(), own.as_bytes())
}

fn forward_name(alloc: Global, forward: bool, name: &[u8]) -> Result<ObjName, AllocError>
    ensures { IfOk result (λ r. r ≡ spec.forward_name forward name.now) }
{
    if forward {
        joined(alloc, name, b"^".as_slice())
    } else {
        ObjName::new(alloc, name)
    }
}

#[tactic(auto, using(crate::proofs::Growing::entered))]
fn enter_heading<E: Imports>(scope: &mut Scope<'_, E>) -> Result<(), AllocError>
    ensures { OnOk result (around_of E.types scope.new ≡ inner (around_of E.types scope.old)) }
{
    scope.enter()?;
    Ok(())
}

fn parameters_inside<E: Imports, C: CheckExpr>(
    alloc: Global,
    checker: &C,
    scope: &mut Scope<'_, E>,
    book: &mut Notebook,
    heading: &Heading,
    bound: &Option<Option<BoundAs>>,
    name: &[u8],
) -> Result<Option<Parameters>, AllocError>
    ensures made { IfOk result (λ r. option_map parameters_of r ≡ (sections_as (around_of E.types scope.old) heading.now (owner_seen bound.now) name.now).found.node) }
    ensures noted { OnOk result (book.new ≡ book_after book.old (sections_as (around_of E.types scope.old) heading.now (owner_seen bound.now) name.now).found.notes) }
    ensures known { OnOk result (around_of E.types scope.new ≡ around_inside (around_of E.types scope.old) heading.now (owner_seen bound.now) name.now) }
{
    enter_heading(scope)?;
    know_receiver(alloc, scope, &heading.receiver, bound)?;
    let found = check_parameters(alloc, checker, scope, book, &heading.parameters, name)?;
    Ok(found)
}

// The parameters of a heading, and the names that are declared in it.
fn heading_parameters<E: Imports, C: CheckExpr>(
    alloc: Global,
    checker: &C,
    scope: &mut Scope<'_, E>,
    book: &mut Notebook,
    heading: &Heading,
    bound: &Option<Option<BoundAs>>,
    name: &[u8],
) -> Result<(Option<Parameters>, Inside), AllocError>
    ensures made { IfOk result (λ r. option_map parameters_of r.0 ≡ (sections_as (around_of E.types scope.old) heading.now (owner_seen bound.now) name.now).found.node) }
    ensures inside { IfOk result (λ r. names_in r.1 ≡ spec.of_scope (around_of E.types scope.old).scope (sections_of (around_of E.types scope.old) heading.now (owner_seen bound.now) name.now).known) }
    ensures scope { IfOk result (λ r. r.1.scope ≡ suc (around_of E.types scope.old).scope) }
    ensures noted { OnOk result (book.new ≡ book_after book.old (sections_as (around_of E.types scope.old) heading.now (owner_seen bound.now) name.now).found.notes) }
    ensures stays { OnOk result (around_of E.types scope.new ≡ around_of E.types scope.old) }
{
    let _ = scope.mark();
    let found = parameters_inside(alloc, checker, scope, book, heading, bound, name)?;
    let inside = scope.leave_heading(alloc)?;
    Ok((found, inside))
}

// Whether the module has a type of one of these names already.
fn are_there<E: Imports>(scope: &Scope<'_, E>, types: &[TypedType]) -> bool
    ensures { result ≡ spec.are_there (around_of E.types scope.now) types.now }
{
    'types: for t in types {
        if scope.has_type(t.name.as_bytes()) {
            return true;
        }
    }
    false
}

// The parameters, unless another declaration of the name has made their types: then rule 1 is broken, and there are none.
fn made_anew<E: Imports>(
    scope: &Scope<'_, E>,
    book: &mut Notebook,
    at: Pos,
    found: Option<Parameters>,
) -> Option<Parameters>
    ensures made { option_map parameters_of result ≡ (if_sound (option_map parameters_of found) (spec.made_anew (around_of E.types scope.now) at)).node }
    ensures noted { book.new ≡ book_after book.old (if_sound (option_map parameters_of found) (spec.made_anew (around_of E.types scope.now) at)).notes }
{
    match found {
        None => None,
        Some(parameters) => {
            let there = are_there(scope, parameters.made.as_slice());
            book.unless(there, Rule::DeclaredTwice, at, parameters)
        }
    }
}

// The parameters of a heading, where no other declaration of the name has made their types, and the
// names that are declared in it.
fn heading_anew<E: Imports, C: CheckExpr>(
    alloc: Global,
    checker: &C,
    scope: &mut Scope<'_, E>,
    book: &mut Notebook,
    heading: &Heading,
    bound: &Option<Option<BoundAs>>,
    name: &[u8],
) -> Result<(Option<Parameters>, Inside), AllocError>
    ensures made { IfOk result (λ r. option_map parameters_of r.0 ≡ (sections_of (around_of E.types scope.old) heading.now (owner_seen bound.now) name.now).found.node) }
    ensures inside { IfOk result (λ r. names_in r.1 ≡ spec.of_scope (around_of E.types scope.old).scope (sections_of (around_of E.types scope.old) heading.now (owner_seen bound.now) name.now).known) }
    ensures scope { IfOk result (λ r. r.1.scope ≡ suc (around_of E.types scope.old).scope) }
    ensures noted { OnOk result (book.new ≡ book_after book.old (sections_of (around_of E.types scope.old) heading.now (owner_seen bound.now) name.now).found.notes) }
    ensures stays { OnOk result (around_of E.types scope.new ≡ around_of E.types scope.old) }
{
    let (found, inside) = heading_parameters(alloc, checker, scope, book, heading, bound, name)?;
    let found = made_anew(&*scope, book, heading.name.ident.pos, found);
    Ok((found, inside))
}

fn if_whole(
    mark: Option<Mark>,
    bound: &Option<Option<BoundAs>>,
    parameters: Option<Parameters>,
) -> Option<Parameters>
    ensures { option_map parameters_of result ≡ spec.as_parameters (paired (paired mark (owner_seen bound.now)) (option_map parameters_of parameters)) }
{
    match mark {
        None => None,
        Some(_) => match bound {
            None => None,
            Some(_) => parameters,
        },
    }
}

fn bound_in(bound: Option<Option<BoundAs>>) -> Option<BoundAs>
    ensures { option_map bound_seen result ≡ spec.bound_in (owner_seen bound) }
{
    match bound {
        None => None,
        Some(bound) => bound,
    }
}

fn mark_or_hidden(mark: Option<Mark>) -> Mark
    ensures { result ≡ spec.mark_or_hidden mark }
{
    match mark {
        None => Mark::Hidden,
        Some(mark) => mark,
    }
}

fn receiver_name(receiver: &Option<Receiver>) -> Option<Ident>
    ensures { result ≡ option_map (λ r. r.ident) receiver.now }
{
    match receiver {
        None => None,
        Some(receiver) => Some(receiver.ident),
    }
}

// A heading by itself; its name is not known yet.
fn head_of<E: Imports, C: CheckExpr>(
    alloc: Global,
    checker: &C,
    scope: &mut Scope<'_, E>,
    heading: &Heading,
    forward: bool,
) -> Result<Head, AllocError>
    ensures head { IfOk result (λ r. IsKept (suc (around_of E.types scope.old).scope) r (spec.head_of (around_of E.types scope.old) (spec.heading_of heading.now) forward)) }
    ensures stays { OnOk result (around_of E.types scope.new ≡ around_of E.types scope.old) }
{
    let mut notes = Notebook::new(alloc);
    let mark = check_mark(&*scope, &mut notes, false, &heading.name);
    let bound = owner_if(alloc, &*scope, &mut notes, &heading.receiver)?;
    let path = heading_path(alloc, &*scope, &bound, &heading.name.ident.name)?;
    let name = forward_name(alloc, forward, path.as_bytes())?;
    let (found, inside) = heading_anew(
        alloc,
        checker,
        scope,
        &mut notes,
        heading,
        &bound,
        name.as_bytes(),
    )?;
    let parameters = if_whole(mark, &bound, found);
    let behind = scope.mark().known;
    Ok(Head {
        at: heading.name.ident.pos,
        name: heading.name.ident.name,
        forward,
        is_bound: heading.receiver.is_some(),
        bound: bound_in(bound),
        mark: mark_or_hidden(mark),
        path,
        receiver: receiver_name(&heading.receiver),
        parameters,
        notes,
        inside,
        behind,
    })
}

fn add_made<E: Imports>(
    alloc: Global,
    scope: &mut Scope<'_, E>,
    parameters: &Option<Parameters>,
) -> Result<(), AllocError>
    ensures { OnOk result (around_of E.types scope.new ≡ with_types (around_of E.types scope.old) (spec.types_of (option_map parameters_of parameters.now))) }
{
    match parameters {
        None => Ok(()),
        Some(parameters) => add_types(alloc, scope, parameters.made.as_slice()),
    }
}

fn leaves_room(forward: bool, what: &Entity) -> bool
    ensures { result ≡ spec.leaves_room forward what.now }
{
    match what {
        Entity::Forward(_, _) => !forward,
        Entity::Constant(_)
        | Entity::TypeName(_)
        | Entity::Variable(_, _)
        | Entity::Procedure(_, _)
        | Entity::Module(_)
        | Entity::Predeclared(_)
        | Entity::LeftOut
        | Entity::Unsound => false,
    }
}

fn is_latest_twice(forward: bool, scope: u32, known: Option<&Known>) -> bool
    ensures { result ≡ spec.is_twice forward (latest_in scope (option_copied known.entry)) }
{
    match known {
        None => false,
        Some(known) => known.scope == scope && !leaves_room(forward, &known.what),
    }
}

fn is_twice<E: Imports>(scope: &Scope<'_, E>, forward: bool, name: &Name) -> bool
    ensures { result ≡ spec.is_twice forward (found_in_scope (around_of E.types scope.now) name.now) }
{
    let _ = scope.mark();
    is_latest_twice(forward, scope.scope(), scope.known(name))
}

fn is_bound_twice(
    alloc: Global,
    heads: &Heads,
    forward: bool,
    bound: &Option<BoundAs>,
    name: &Name,
) -> Result<bool, AllocError>
    ensures { IfOk result (λ r. r ≡ bound_twice (map seen (reverse heads.now)) forward (option_map bound_seen bound.now) name.now) }
{
    match bound {
        None => Ok(false),
        Some(bound) => heads.is_twice(alloc, forward, &bound.owner, name),
    }
}

fn name_twice<E: Imports>(
    alloc: Global,
    scope: &Scope<'_, E>,
    heads: &Heads,
    head: &Head,
) -> Result<bool, AllocError>
    ensures { IfOk result (λ r. r ≡ spec.name_twice (around_of E.types scope.now) (map seen (reverse heads.now)) (seen head.now)) }
{
    if head.is_bound {
        is_bound_twice(alloc, heads, head.forward, &head.bound, &head.name)
    } else {
        Ok(is_twice(scope, head.forward, &head.name))
    }
}

fn head_entity<E: Imports>(
    alloc: Global,
    scope: &Scope<'_, E>,
    head: &Head,
) -> Result<Entity, AllocError>
    ensures { IfOk result (λ r. r ≡ spec.head_entity (around_of E.types scope.now) (seen head.now) (option_map parameters_of head.now.parameters)) }
{
    match &head.parameters {
        None => Ok(Entity::Unsound),
        Some(parameters) => {
            let object = head.path.clone()?;
            let name = QName {
                module: CompactName::of(alloc, &scope.unit())?,
                object,
            };
            let signature = copy_signature(alloc, &parameters.signature)?;
            if head.forward {
                Ok(Entity::Forward(name, signature))
            } else {
                Ok(Entity::Procedure(name, signature))
            }
        }
    }
}

fn declare_procedure<E: Imports>(
    alloc: Global,
    scope: &mut Scope<'_, E>,
    head: &Head,
) -> Result<(), AllocError>
    ensures { OnOk result (around_of E.types scope.new ≡ spec.knows_procedure (around_of E.types scope.old) (seen head.now) false) }
{
    let what = head_entity(alloc, &*scope, head)?;
    scope.declare(alloc, head.name, what)?;
    Ok(())
}

fn know_procedure<E: Imports>(
    alloc: Global,
    scope: &mut Scope<'_, E>,
    head: &Head,
    twice: bool,
) -> Result<(), AllocError>
    ensures { OnOk result (around_of E.types scope.new ≡ spec.known_behind (around_of E.types scope.old) twice (seen head.now)) }
{
    if twice {
        Ok(())
    } else if head.is_bound {
        Ok(())
    } else {
        declare_procedure(alloc, scope, head)
    }
}

fn head_again(head: Head, behind: usize) -> Head
    ensures { (n : ℕ) (s : spec.Head) (u : Around) → IsKept n head s → behind ≡ length u.known → IsKept n result (spec.declared_head true s u) }
{
    let mut again = head;
    again.parameters = None;
    again.notes.breaks(Rule::DeclaredTwice, again.at);
    again.behind = behind;
    again
}

fn head_anew(head: Head, behind: usize) -> Head
    ensures { (n : ℕ) (s : spec.Head) (u : Around) → IsKept n head s → behind ≡ length u.known → IsKept n result (spec.declared_head false s u) }
{
    let mut anew = head;
    anew.behind = behind;
    anew
}

// Rule 1.
fn declared_head(head: Head, twice: bool, behind: usize) -> Head
    ensures { (n : ℕ) (s : spec.Head) (u : Around) → IsKept n head s → behind ≡ length u.known → IsKept n result (spec.declared_head twice s u) }
{
    if twice {
        head_again(head, behind)
    } else {
        head_anew(head, behind)
    }
}

/// One more heading, of a procedure or of a forward declaration, behind those so far: its parameters,
/// what it is bound to and its mark are judged, and from here on its name is known, where it is not
/// bound, and the types that it makes. What is said of it, and what is declared in it, is kept with it.
pub fn add_heading<E: Imports, C: CheckExpr>(
    alloc: Global,
    checker: &C,
    scope: &mut Scope<'_, E>,
    heads: &mut Heads,
    heading: &Heading,
    forward: bool,
) -> Result<(), AllocError>
    ensures around { (hs : spec.Heads) → around_of E.types scope.old ≡ hs.around → AreKept (suc hs.around.scope) heads.old (spec.reversed hs.before) → OnOk result (around_of E.types scope.new ≡ (spec.add_heading hs (spec.heading_of heading.now) forward).around) }
    ensures heads { (hs : spec.Heads) → around_of E.types scope.old ≡ hs.around → AreKept (suc hs.around.scope) heads.old (spec.reversed hs.before) → OnOk result (AreKept (suc hs.around.scope) heads.new (spec.reversed (spec.add_heading hs (spec.heading_of heading.now) forward).before)) }
{
    let head = head_of(alloc, checker, scope, heading, forward)?;
    add_made(alloc, scope, &head.parameters)?;
    let twice = name_twice(alloc, &*scope, heads, &head)?;
    know_procedure(alloc, scope, &head, twice)?;
    let behind = scope.mark().known;
    heads.push(alloc, declared_head(head, twice, behind))?;
    Ok(())
}
