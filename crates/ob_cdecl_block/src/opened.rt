//! Procedures, from their headings to their bodies.

#![tactic(auto, using(ob_rules::proofs::BookLaws::after_none, ob_rules::proofs::BookLaws::after_joined))]

ghost use Rattle.std.specs.Prelude.{◌≡◌, ◌+◌, ◌++◌, ℕ, codes, Some, IfOk, OnOk};
ghost use Rattle.std.specs.Option.{option_map};
ghost use Rattle.ob_cdecl_field.specs.Makes.{parameters_of};
ghost use Rattle.ob_cdecl_scopes.specs.Bodies.{body_around, names_in, restored};
ghost use Rattle.ob_cdecl_scopes.specs.Scopes.{around_of};
ghost use Rattle.ob_rules.specs.Books.{book_after};
ghost use Rattle.ob_rules.specs.Judged.{joined};
ghost use Rattle.ob_rules.specs.Headings as heading;
ghost use Rattle.ob_rules.specs.Declarations as spec;
ghost use Rattle.ob_cdecl_heading.specs.Kept.{IsKept, bound_seen, seen};
ghost use Rattle.ob_cdecl_block.specs.Procedures.{left_of, blank, entered};

use ob_cdecl::{append_notes, closing_judged};
use ob_cdecl_field::Parameters;
use ob_cdecl_heading::{BoundAs, Head, self_of};
use ob_cdecl_scopes::{Imports, Inside, Outside, Scope};
use ob_rules::{Notebook, Received};
use ob_tree::{Ident, Mark, Name, ObjName, Pos};
use ob_types::TypeRef;
use ob_types_trees::{copy_name, copy_type};
use std::alloc::{AllocError, Global};

/// What is left of a heading while the body of its procedure is judged.
#[derive(Drop)]
pub(crate) struct Opened {
    pub(crate) at: Pos,
    pub(crate) name: Name,
    pub(crate) bound: Option<BoundAs>,
    pub(crate) mark: Mark,
    pub(crate) path: ObjName,
    pub(crate) receiver: Option<Ident>,
    pub(crate) parameters: Option<Parameters>,
}

fn received(
    alloc: Global,
    receiver: &Option<Ident>,
    bound: &Option<BoundAs>,
) -> Result<Option<Received>, AllocError>
    ensures { IfOk result (λ r. r ≡ spec.received_by receiver.now (option_map bound_seen bound.now)) }
{
    match receiver {
        None => Ok(None),
        Some(x) => match bound {
            None => Ok(None),
            Some(bound) => {
                let variable = self_of(alloc, x, bound.receiver)?;
                let owner = copy_name(&bound.owner)?;
                Ok(Some(Received { variable, owner }))
            }
        },
    }
}

fn copy_result(t: &Option<TypeRef>) -> Result<Option<TypeRef>, AllocError>
    ensures { IfOk result (λ r. r ≡ t.now) }
{
    match t {
        None => Ok(None),
        Some(t) => {
            let t = copy_type(t)?;
            Ok(Some(t))
        }
    }
}

fn result_in(parameters: &Option<Parameters>) -> Result<Option<TypeRef>, AllocError>
    ensures { IfOk result (λ r. r ≡ spec.result_in (option_map parameters_of parameters.now)) }
{
    match parameters {
        None => Ok(None),
        Some(parameters) => copy_result(&parameters.signature.result),
    }
}

// What the names of a procedure's own objects begin with.
fn inner_path(alloc: Global, path: &[u8]) -> Result<ObjName, AllocError>
    ensures { IfOk result (λ r. r ≡ path.now ++ codes "/") }
{
    let mut all = Vec::from_slice(alloc, path)?;
    all.extend_from_slice(b"/".as_slice())?;
    ObjName::new(alloc, &all)
}

fn enter<E: Imports>(
    alloc: Global,
    scope: &mut Scope<'_, E>,
    inside: Inside,
    path: &ObjName,
    receiver: &Option<Ident>,
    bound: &Option<BoundAs>,
    parameters: &Option<Parameters>,
) -> Result<Outside, AllocError>
    requires { inside.scope ≡ (around_of E.types scope.old).scope + 1 }
    ensures around { OnOk result (around_of E.types scope.new ≡ body_around (around_of E.types scope.old) (names_in inside) (path.now ++ codes "/") (spec.received_by receiver.now (option_map bound_seen bound.now)) (spec.result_in (option_map parameters_of parameters.now))) }
    ensures outside { IfOk result (λ r. restored r (around_of E.types scope.new) ≡ around_of E.types scope.old) }
{
    let path = inner_path(alloc, path.as_bytes())?;
    let variable = received(alloc, receiver, bound)?;
    let of = result_in(parameters)?;
    let outside = scope.enter_body(alloc, inside, path, variable, of)?;
    Ok(outside)
}

/// From here on the body of the procedure of that heading is judged. What is said of the heading is
/// noted, and rule 4.
pub(crate) fn open<E: Imports>(
    alloc: Global,
    scope: &mut Scope<'_, E>,
    book: &mut Notebook,
    head: Head,
    closing: &Ident,
) -> Result<(Opened, Outside), AllocError>
    requires { head.inside.scope ≡ (around_of E.types scope.old).scope + 1 }
    ensures around { OnOk result (around_of E.types scope.new ≡ entered (around_of E.types scope.old) head) }
    ensures noted { (n : ℕ) (h : heading.Head) → IsKept n head h → OnOk result (book.new ≡ book_after book.old (joined h.notes (spec.closing_judged h.name (Some closing.now)))) }
    ensures left { IfOk result (λ r. left_of r.0 ≡ blank (seen head)) }
    ensures outside { IfOk result (λ r. restored r.1 (around_of E.types scope.new) ≡ around_of E.types scope.old) }
{
    let Head {
        at,
        name,
        forward: _,
        is_bound: _,
        bound,
        mark,
        path,
        receiver,
        parameters,
        notes,
        inside,
        behind: _,
    } = head;
    append_notes(book, notes)?;
    closing_judged(book, &name, closing);
    let outside = enter(alloc, scope, inside, &path, &receiver, &bound, &parameters)?;
    let opened = Opened {
        at,
        name,
        bound,
        mark,
        path,
        receiver,
        parameters,
    };
    Ok((opened, outside))
}
