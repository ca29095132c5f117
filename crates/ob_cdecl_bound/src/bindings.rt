//! The bound procedures of the records of a module.

#![tactic(auto, using(ob_rules::proofs::BookLaws::after_none, ob_rules::proofs::BookLaws::after_joined))]

ghost use Rattle.std.specs.Prelude.{◌≡◌, ℕ, Bool, not, ◌&&◌, ◌||◌, bytes_eq, is_some, true, [], ◌∷◌, ◌++◌, List as Listed, map, reverse, Some, Option, IfOk, OnOk};
ghost use Rattle.std.specs.Option.{option_map, option_copied};
ghost use Rattle.ob_cdecl_field.specs.Makes.{parameters_of};
ghost use Rattle.ob_cexpr_name.specs.Members.{member_seen};
ghost use Rattle.ob_cdecl_scopes.specs.Scopes.{around_of};
ghost use Rattle.ob_rules.specs.Books.{book_after};
ghost use Rattle.ob_rules.specs.Declarations.{with_bound};
ghost use Rattle.ob_rules.specs.Headings as spec;
ghost use Rattle.ob_rules.specs.Names.{map_of, bound_for};
ghost use Rattle.ob_rules.specs.Shapes.{AMethod};
ghost use Rattle.ob_rules.specs.Operators.{signatures_match as match_at};
ghost use Rattle.ob_cdecl_heading.specs.Kept.{AreKept, seen, bound_seen};
ghost use Rattle.ob_cdecl_bound.specs.Running.{run, start, put, one, chosen, record_bound};

use ob_cdecl_field::Parameters;
use ob_cdecl_heading::{BoundAs, Head, answer_of, is_same_kind};
use ob_cdecl_scopes::{Imports, Scope};
use ob_cexpr_name::{Member, find_member};
use ob_rules::{Bound, Notebook, Rule, Surroundings};
use ob_tree::{List, Mark, Name, ObjName, QName};
use ob_types::{Method, Signature, TypedType, Types, signatures_match};
use ob_types_trees::{copy_name, copy_signature};
use std::alloc::{AllocError, Global};

fn signature_if(
    alloc: Global,
    parameters: &Option<Parameters>,
) -> Result<Option<Signature>, AllocError>
    ensures { IfOk result (λ r. r ≡ spec.signature_if (option_map parameters_of parameters.now)) }
{
    match parameters {
        None => Ok(None),
        Some(parameters) => {
            let signature = copy_signature(alloc, &parameters.signature)?;
            Ok(Some(signature))
        }
    }
}

fn bound_with(
    head: &Head,
    bound: &BoundAs,
    signature: Option<Signature>,
) -> Result<Bound, AllocError>
    ensures { IfOk result (λ r. r ≡ record (spec.bound_as (seen head.now) (bound_seen bound.now)) { signature = signature }) }
{
    let owner = copy_name(&bound.owner)?;
    Ok(Bound {
        owner,
        name: head.name,
        at: head.at,
        receiver: bound.receiver,
        signature,
    })
}

fn bound_as(alloc: Global, head: &Head, bound: &BoundAs) -> Result<Bound, AllocError>
    ensures { IfOk result (λ r. r ≡ spec.bound_as (seen head.now) (bound_seen bound.now)) }
{
    let signature = signature_if(alloc, &head.parameters)?;
    bound_with(head, bound, signature)
}

fn exported_mark(mark: Mark) -> Mark
    ensures { result ≡ spec.exported_mark mark }
{
    match mark {
        Mark::Full => Mark::Full,
        Mark::Hidden => Mark::Hidden,
        Mark::ReadOnly => Mark::Hidden,
    }
}

fn signature_or_none(alloc: Global, signature: Option<Signature>) -> Signature
    ensures { result ≡ spec.signature_or_none signature }
{
    match signature {
        None => Signature {
            params: List::new(alloc),
            result: None,
        },
        Some(signature) => signature,
    }
}

fn new_method(alloc: Global, head: &Head, bound: &BoundAs) -> Result<Method, AllocError>
    ensures { IfOk result (λ r. r ≡ spec.new_method (seen head.now) (bound_seen bound.now)) }
{
    let signature = signature_if(alloc, &head.parameters)?;
    Ok(Method {
        name: head.name,
        mark: exported_mark(head.mark),
        number: 0,
        receiver: bound.receiver,
        signature: signature_or_none(alloc, signature),
    })
}

fn introduce<E: Imports>(
    alloc: Global,
    scope: &mut Scope<'_, E>,
    head: &Head,
    bound: &BoundAs,
) -> Result<(), AllocError>
    ensures { OnOk result (around_of E.types scope.new ≡ put (around_of E.types scope.old) (spec.introduce (start (around_of E.types scope.old)) (seen head.now) (bound_seen bound.now))) }
{
    let method = new_method(alloc, head, bound)?;
    let known = bound_as(alloc, head, bound)?;
    scope.add_method(alloc, bound.owner.object.as_bytes(), &method)?;
    scope.bind(alloc, known)?;
    Ok(())
}

// Rule 1.
fn clashes<E: Imports>(
    alloc: Global,
    scope: &mut Scope<'_, E>,
    book: &mut Notebook,
    head: &Head,
    bound: &BoundAs,
) -> Result<(), AllocError>
    ensures around { OnOk result (around_of E.types scope.new ≡ put (around_of E.types scope.old) (spec.clashes (start (around_of E.types scope.old)) (seen head.now) (bound_seen bound.now))) }
    ensures noted { OnOk result (book.new ≡ book_after book.old (spec.clashes (start (around_of E.types scope.old)) (seen head.now) (bound_seen bound.now)).notes) }
{
    let known = bound_with(head, bound, None)?;
    scope.bind(alloc, known)?;
    book.breaks_if(!head.forward, Rule::DeclaredTwice, head.at);
    Ok(())
}

// Rule 20.
fn redefined<E: Imports>(
    alloc: Global,
    scope: &mut Scope<'_, E>,
    book: &mut Notebook,
    head: &Head,
    bound: &BoundAs,
    broken: bool,
) -> Result<(), AllocError>
    ensures around { OnOk result (around_of E.types scope.new ≡ put (around_of E.types scope.old) (spec.redefined broken (start (around_of E.types scope.old)) (seen head.now) (bound_seen bound.now))) }
    ensures noted { OnOk result (book.new ≡ book_after book.old (spec.redefined broken (start (around_of E.types scope.old)) (seen head.now) (bound_seen bound.now)).notes) }
{
    if broken {
        let known = bound_with(head, bound, None)?;
        scope.bind(alloc, known)?;
        book.breaks(Rule::UnmatchedRedefinition, head.at);
        Ok(())
    } else {
        let known = bound_as(alloc, head, bound)?;
        scope.bind(alloc, known)?;
        Ok(())
    }
}

fn differs<T: Types>(types: &T, head: &Head, method: &Method) -> bool
    ensures { result ≡ is_some (option_map parameters_of head.now.parameters) && not (match_at (T.types types.now) (Some method.now.signature) (spec.signature_if (option_map parameters_of head.now.parameters))) }
{
    match &head.parameters {
        None => false,
        Some(parameters) => !signatures_match(types, &method.signature, &parameters.signature),
    }
}

fn is_sound(bound: Option<&Bound>) -> bool
    ensures { result ≡ spec.sound_in (option_copied bound.entry) }
{
    match bound {
        None => true,
        Some(bound) => bound.signature.is_some(),
    }
}

fn introduced_sound<E: Imports>(scope: &Scope<'_, E>, owner: &QName, name: &Name) -> bool
    ensures { result ≡ spec.introduced_sound (around_of E.types scope.now) (around_of E.types scope.now).bound owner.now name.now }
{
    let unit = scope.unit();
    !(owner.module.as_bytes() == unit.as_bytes()) || is_sound(scope.bound_for(owner, name))
}

fn is_broken<E: Imports>(
    scope: &Scope<'_, E>,
    head: &Head,
    bound: &BoundAs,
    owner: &QName,
    method: &Method,
) -> bool
    ensures { result ≡ not (spec.same_kind method.now.receiver bound.now.receiver) || spec.differ (map_of (around_of E.types scope.now)) (seen head.now) method.now (spec.introduced_sound (around_of E.types scope.now) (around_of E.types scope.now).bound owner.now method.now.name) }
{
    !is_same_kind(method.receiver, bound.receiver)
        || (introduced_sound(scope, owner, &method.name) && differs(scope, head, method))
}

fn is_own_method<E: Imports>(scope: &Scope<'_, E>, bound: &BoundAs, owner: &QName) -> bool
    ensures { result ≡ bytes_eq owner.now.object bound.now.owner.object && bytes_eq owner.now.«module» (around_of E.types scope.now).unit }
{
    let unit = scope.unit();
    owner.object.as_bytes() == bound.owner.object.as_bytes()
        && owner.module.as_bytes() == unit.as_bytes()
}

fn bind_method<E: Imports>(
    alloc: Global,
    scope: &mut Scope<'_, E>,
    book: &mut Notebook,
    head: &Head,
    bound: &BoundAs,
    owner: &QName,
    method: &Method,
) -> Result<(), AllocError>
    ensures around { OnOk result (around_of E.types scope.new ≡ put (around_of E.types scope.old) (spec.bind_by (around_of E.types scope.old) (map_of (around_of E.types scope.old)) (start (around_of E.types scope.old)) (seen head.now) (bound_seen bound.now) (Some (AMethod owner.now method.now)))) }
    ensures noted { OnOk result (book.new ≡ book_after book.old (spec.bind_by (around_of E.types scope.old) (map_of (around_of E.types scope.old)) (start (around_of E.types scope.old)) (seen head.now) (bound_seen bound.now) (Some (AMethod owner.now method.now))).notes) }
{
    if is_own_method(&*scope, bound, owner) {
        Ok(())
    } else {
        let broken = is_broken(&*scope, head, bound, owner, method);
        redefined(alloc, scope, book, head, bound, broken)
    }
}

fn bind_by<E: Imports>(
    alloc: Global,
    scope: &mut Scope<'_, E>,
    book: &mut Notebook,
    head: &Head,
    bound: &BoundAs,
    member: &Option<Member>,
) -> Result<(), AllocError>
    ensures around { OnOk result (around_of E.types scope.new ≡ put (around_of E.types scope.old) (spec.bind_by (around_of E.types scope.old) (map_of (around_of E.types scope.old)) (start (around_of E.types scope.old)) (seen head.now) (bound_seen bound.now) (option_map member_seen member.now))) }
    ensures noted { OnOk result (book.new ≡ book_after book.old (spec.bind_by (around_of E.types scope.old) (map_of (around_of E.types scope.old)) (start (around_of E.types scope.old)) (seen head.now) (bound_seen bound.now) (option_map member_seen member.now)).notes) }
{
    match member {
        None => introduce(alloc, scope, head, bound),
        Some(Member::Field(_, _)) => clashes(alloc, scope, book, head, bound),
        Some(Member::Method(owner, method)) => {
            bind_method(alloc, scope, book, head, bound, owner, method)
        }
    }
}

fn bind_in<E: Imports>(
    alloc: Global,
    scope: &mut Scope<'_, E>,
    book: &mut Notebook,
    head: &Head,
    bound: &BoundAs,
) -> Result<(), AllocError>
    ensures around { OnOk result (around_of E.types scope.new ≡ put (around_of E.types scope.old) (spec.bind_in (around_of E.types scope.old) (map_of (around_of E.types scope.old)) (start (around_of E.types scope.old)) (seen head.now) (bound_seen bound.now))) }
    ensures noted { OnOk result (book.new ≡ book_after book.old (spec.bind_in (around_of E.types scope.old) (map_of (around_of E.types scope.old)) (start (around_of E.types scope.old)) (seen head.now) (bound_seen bound.now)).notes) }
{
    let member = find_member(alloc, &*scope, &bound.owner, &head.name)?;
    bind_by(alloc, scope, book, head, bound, &member)?;
    Ok(())
}

fn bind_one<E: Imports>(
    alloc: Global,
    scope: &mut Scope<'_, E>,
    book: &mut Notebook,
    head: &Head,
) -> Result<(), AllocError>
    ensures around { OnOk result (around_of E.types scope.new ≡ put (around_of E.types scope.old) (one (around_of E.types scope.old) (start (around_of E.types scope.old)) (seen head.now))) }
    ensures noted { OnOk result (book.new ≡ book_after book.old (one (around_of E.types scope.old) (start (around_of E.types scope.old)) (seen head.now)).notes) }
{
    match &head.bound {
        None => Ok(()),
        Some(bound) => bind_in(alloc, scope, book, head, bound),
    }
}

fn is_of(head: &Head, name: &[u8]) -> bool
    ensures { result ≡ spec.of_record name.now (seen head.now) }
{
    match &head.bound {
        None => false,
        Some(bound) => bound.owner.object.as_bytes() == name,
    }
}

fn is_there(bound: &Option<BoundAs>) -> bool
    ensures { result ≡ is_some (option_map bound_seen bound.now) }
{
    match bound {
        None => false,
        Some(_) => true,
    }
}

fn counts_if(heads: &[Head], head: &Head) -> bool
    ensures { result ≡ spec.counts_if head.now.forward (map seen heads.now) (seen head.now) }
{
    if head.forward {
        match answer_of(heads, head) {
            None => true,
            Some(_) => false,
        }
    } else {
        true
    }
}

fn counts(heads: &[Head], head: &Head) -> bool
    ensures { result ≡ spec.counts (map seen heads.now) (seen head.now) }
{
    head.is_bound && is_there(&head.bound) && counts_if(heads, head)
}

fn bind_chosen<E: Imports>(
    alloc: Global,
    scope: &mut Scope<'_, E>,
    book: &mut Notebook,
    heads: &[Head],
    head: &Head,
    name: &[u8],
) -> Result<(), AllocError>
    ensures around { OnOk result (around_of E.types scope.new ≡ put (around_of E.types scope.old) (chosen (map seen heads.now) name.now (around_of E.types scope.old) (start (around_of E.types scope.old)) (seen head.now))) }
    ensures noted { OnOk result (book.new ≡ book_after book.old (chosen (map seen heads.now) name.now (around_of E.types scope.old) (start (around_of E.types scope.old)) (seen head.now)).notes) }
{
    if is_of(head, name) && counts(heads, head) {
        bind_one(alloc, scope, book, head)
    } else {
        Ok(())
    }
}

fn bind_record<E: Imports>(
    alloc: Global,
    scope: &mut Scope<'_, E>,
    book: &mut Notebook,
    heads: &[Head],
    name: &[u8],
) -> Result<(), AllocError>
    ensures around { OnOk result (around_of E.types scope.new ≡ put (around_of E.types scope.old) (record_bound (map seen heads.now) (around_of E.types scope.old) (start (around_of E.types scope.old)) name.now)) }
    ensures noted { OnOk result (book.new ≡ book_after book.old (record_bound (map seen heads.now) (around_of E.types scope.old) (start (around_of E.types scope.old)) name.now).notes) }
{
    'heads: for head in heads {
        bind_chosen(alloc, scope, book, heads, head, name)?;
    }
    Ok(())
}

fn bind_records<E: Imports>(
    alloc: Global,
    scope: &mut Scope<'_, E>,
    book: &mut Notebook,
    heads: &[Head],
    names: &[ObjName],
) -> Result<(), AllocError>
    ensures around { OnOk result (around_of E.types scope.new ≡ put (around_of E.types scope.old) (run (record_bound (map seen heads.now)) (around_of E.types scope.old) (start (around_of E.types scope.old)) names.now)) }
    ensures noted { OnOk result (book.new ≡ book_after book.old (run (record_bound (map seen heads.now)) (around_of E.types scope.old) (start (around_of E.types scope.old)) names.now).notes) }
{
    'names: for name in names {
        bind_record(alloc, scope, book, heads, name.as_bytes())?;
    }
    Ok(())
}

fn names_of(alloc: Global, types: &[TypedType]) -> Result<List<ObjName>, AllocError>
    ensures { IfOk result (λ r. r ≡ map (λ t. t.name) types.now) }
{
    let mut names = List::new(alloc);
    'types: for t in types {
        let name = t.name.clone()?;
        names.push(name)?;
    }
    Ok(names)
}

fn bind_all<E: Imports>(
    alloc: Global,
    scope: &mut Scope<'_, E>,
    book: &mut Notebook,
    heads: &[Head],
) -> Result<(), AllocError>
    ensures around { OnOk result (around_of E.types scope.new ≡ with_bound (around_of E.types scope.old) (spec.bindings (around_of E.types scope.old) (map seen heads.now))) }
    ensures noted { OnOk result (book.new ≡ book_after book.old (spec.bindings (around_of E.types scope.old) (map seen heads.now)).notes) }
{
    let names = names_of(alloc, scope.own_types())?;
    scope.unbind(alloc);
    bind_records(alloc, scope, book, heads, names.as_slice())?;
    scope.set_coming(List::new(alloc));
    Ok(())
}

/// From here on the types of the module have the bound procedures that they introduce, and all bound
/// procedures are known, none of them coming: those of the module whose headings these are, in the
/// order of the text. Those of a base are bound before those of its extensions. Rules 1 and 20.
pub fn bind<E: Imports>(
    alloc: Global,
    scope: &mut Scope<'_, E>,
    book: &mut Notebook,
    heads: &[Head],
) -> Result<(), AllocError>
    ensures around { (n : ℕ) (hs : Listed spec.Head) → AreKept n heads.now hs → OnOk result (around_of E.types scope.new ≡ with_bound (around_of E.types scope.old) (spec.bindings (around_of E.types scope.old) hs)) }
    ensures noted { (n : ℕ) (hs : Listed spec.Head) → AreKept n heads.now hs → OnOk result (book.new ≡ book_after book.old (spec.bindings (around_of E.types scope.old) hs).notes) }
{
    bind_all(alloc, scope, book, heads)?;
    Ok(())
}
