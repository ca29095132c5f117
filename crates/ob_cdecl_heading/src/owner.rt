//! What bound procedures are bound to.

#![tactic(auto, using(ob_rules::proofs::BookLaws::after_none, ob_rules::proofs::BookLaws::after_joined))]

ghost use Rattle.std.specs.Prelude.{◌≡◌, ◌==◌, IfOk, OnOk};
ghost use Rattle.std.specs.List.{list_any};
ghost use Rattle.std.specs.Option.{option_map, option_copied};
ghost use Rattle.ob_cdecl_scopes.specs.Scopes.{around_of};
ghost use Rattle.ob_rules.specs.Books.{book_after};
ghost use Rattle.ob_rules.specs.Names.{map_of};
ghost use Rattle.ob_rules.specs.Shapes.{received_record};
ghost use Rattle.ob_rules.specs.Headings as spec;
ghost use Rattle.ob_cdecl_heading.specs.Kept.{bound_seen, owner_seen};
ghost use Rattle.ob_cdecl_heading.specs.Owners.{record_received, is_silent as says_nothing, bound_by as binds};

use crate::head::BoundAs;
use ob_cdecl_field::is_module_level;
use ob_cdecl_scopes::{Imports, Scope};
use ob_cexpr_name::{is_held, pointed, pointed_record, record_of, type_named};
use ob_rules::{Entity, Notebook, Rule, Surroundings};
use ob_tree::{CompactName, Ident, Pos, QName, Qualident, Receiver};
use ob_types::{Passing, Receiver as Kind, TypeRef, Types, Variable};
use ob_types_trees::{copy_name, copy_type};
use std::alloc::{AllocError, Global};

fn kind_of(is_var: bool) -> Kind
    ensures { result ≡ spec.kind_of is_var }
{
    if is_var { Kind::Record } else { Kind::Pointer }
}

// Whether a name is that of a type of a procedure.
fn has_slash(name: &[u8]) -> bool
    ensures { result ≡ list_any (λ c. c == 47) name.now }
{
    'bytes: for byte in name {
        if *byte == b'/' {
            return true;
        }
    }
    false
}

fn is_own<E: Imports>(scope: &Scope<'_, E>, name: &QName) -> bool
    ensures { result ≡ spec.is_own (around_of E.types scope.now) name.now }
{
    let unit = scope.unit();
    name.module.as_bytes() == unit.as_bytes() && !has_slash(name.object.as_bytes())
}

fn own_record<'a, E: Imports>(scope: &Scope<'_, E>, name: Option<&'a QName>) -> Option<&'a QName>
    ensures { option_copied result ≡ spec.own_record (around_of E.types scope.now) (option_copied name.entry) }
{
    match name {
        None => None,
        Some(name) => {
            if is_own(scope, name) && is_module_level(scope) {
                Some(name)
            } else {
                None
            }
        }
    }
}

fn received_record<'a, T: Types>(types: &'a T, is_var: bool, of: &'a TypeRef) -> Option<&'a QName>
    ensures { option_copied result ≡ received_record (T.types types.now) is_var of.now }
{
    if is_var {
        record_of(types, of)
    } else {
        pointed_record(types, of)
    }
}

fn owner_name<E: Imports>(
    scope: &Scope<'_, E>,
    is_var: bool,
    of: &TypeRef,
) -> Result<Option<QName>, AllocError>
    ensures { IfOk result (λ r. r ≡ record_received (around_of E.types scope.now) is_var of.now) }
{
    match own_record(scope, received_record(scope, is_var, of)) {
        None => Ok(None),
        Some(name) => {
            let name = copy_name(name)?;
            Ok(Some(name))
        }
    }
}

fn silent_base<T: Types>(types: &T, is_var: bool, base: Option<&TypeRef>) -> bool
    ensures { result ≡ spec.silent_base (T.types types.now) is_var (option_copied base.entry) }
{
    match base {
        None => false,
        Some(of) => { if is_var { false } else { !is_held(types, of) } }
    }
}

fn is_silent<E: Imports>(scope: &Scope<'_, E>, is_var: bool, of: &TypeRef) -> bool
    ensures { result ≡ says_nothing (around_of E.types scope.now) is_var of.now }
{
    is_module_level(scope) && silent_base(scope, is_var, pointed(scope, of))
}

// Rule 19.
fn bound_to(
    book: &mut Notebook,
    at: Pos,
    is_var: bool,
    of: TypeRef,
    quiet: bool,
    owner: Option<QName>,
) -> Option<BoundAs>
    ensures made { option_map bound_seen result ≡ (spec.bound_to at is_var of quiet owner).node }
    ensures noted { book.new ≡ book_after book.old (spec.bound_to at is_var of quiet owner).notes }
{
    match owner {
        Some(owner) => Some(BoundAs {
            of,
            owner,
            receiver: kind_of(is_var),
        }),
        None => {
            if quiet {
                return None;
            }
            book.breaks(Rule::UnfitReceiver, at);
            None
        }
    }
}

fn bound_by<E: Imports>(
    scope: &Scope<'_, E>,
    book: &mut Notebook,
    receiver: &Receiver,
    of: TypeRef,
) -> Result<Option<BoundAs>, AllocError>
    ensures made { IfOk result (λ r. option_map bound_seen r ≡ (binds (around_of E.types scope.now) receiver.now of).node) }
    ensures noted { OnOk result (book.new ≡ book_after book.old (binds (around_of E.types scope.now) receiver.now of).notes) }
{
    let quiet = is_silent(scope, receiver.is_var, &of);
    let owner = owner_name(scope, receiver.is_var, &of)?;
    Ok(bound_to(book, receiver.owner.pos, receiver.is_var, of, quiet, owner))
}

fn owner_of<E: Imports>(
    alloc: Global,
    scope: &Scope<'_, E>,
    book: &mut Notebook,
    receiver: &Receiver,
) -> Result<Option<BoundAs>, AllocError>
    ensures made { IfOk result (λ r. option_map bound_seen r ≡ (spec.owner_of (around_of E.types scope.now) receiver.now).node) }
    ensures noted { OnOk result (book.new ≡ book_after book.old (spec.owner_of (around_of E.types scope.now) receiver.now).notes) }
{
    let name = Qualident {
        qualifier: None,
        ident: receiver.owner,
    };
    match type_named(alloc, scope, book, &name)? {
        None => Ok(None),
        Some(of) => bound_by(scope, book, receiver, of),
    }
}

/// What a procedure is bound to: none where its receiver breaks rule 19, or a rule of names.
pub fn owner_if<E: Imports>(
    alloc: Global,
    scope: &Scope<'_, E>,
    book: &mut Notebook,
    receiver: &Option<Receiver>,
) -> Result<Option<Option<BoundAs>>, AllocError>
    ensures made { IfOk result (λ r. owner_seen r ≡ (spec.owner_if (around_of E.types scope.now) receiver.now).node) }
    ensures noted { OnOk result (book.new ≡ book_after book.old (spec.owner_if (around_of E.types scope.now) receiver.now).notes) }
{
    match receiver {
        None => Ok(Some(None)),
        Some(receiver) => match owner_of(alloc, scope, book, receiver)? {
            None => Ok(None),
            Some(bound) => Ok(Some(Some(bound))),
        },
    }
}

/// The variable that a receiver of that name is. An `Err` is a want of memory.
pub fn self_of(alloc: Global, x: &Ident, kind: Kind) -> Result<Variable, AllocError>
    ensures { IfOk result (λ r. r ≡ spec.self_of x.now kind) }
{
    let name = CompactName::of(alloc, &x.name)?;
    Ok(match kind {
        Kind::Record => Variable::Parameter(Passing::VariableRecord, name),
        Kind::Pointer => Variable::Parameter(Passing::Scalar, name),
    })
}

/// From here on the receiver is known, one that breaks a rule too.
pub fn know_receiver<E: Imports>(
    alloc: Global,
    scope: &mut Scope<'_, E>,
    receiver: &Option<Receiver>,
    bound: &Option<Option<BoundAs>>,
) -> Result<(), AllocError>
    ensures { OnOk result (around_of E.types scope.new ≡ spec.knows_receiver (around_of E.types scope.old) receiver.now (owner_seen bound.now)) }
{
    match receiver {
        None => Ok(()),
        Some(receiver) => match bound {
            Some(Some(bound)) => {
                let of = copy_type(&bound.of)?;
                let variable = self_of(alloc, &receiver.ident, bound.receiver)?;
                let what = Entity::Variable(variable, of);
                scope.declare(alloc, receiver.ident.name, what)
            }
            Some(None) => scope.declare(alloc, receiver.ident.name, Entity::Unsound),
            None => scope.declare(alloc, receiver.ident.name, Entity::Unsound),
        },
    }
}
