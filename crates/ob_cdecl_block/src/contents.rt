//! What procedures and statements add to a module.

ghost use Rattle.std.specs.Prelude.{◌≡◌, ◌∷◌, ℕ, map, IfOk, OnOk};
ghost use Rattle.std.specs.Option.{option_map};
ghost use Rattle.ob_cdecl_field.specs.Makes.{parameters_of};
ghost use Rattle.ob_cdecl_scopes.specs.Scopes.{around_of};
ghost use Rattle.ob_rules.specs.Books.{book_after};
ghost use Rattle.ob_rules.specs.Headings as heading;
ghost use Rattle.ob_rules.specs.Statements.{in_turn, judging};
ghost use Rattle.ob_rules.specs.Declarations as spec;
ghost use Rattle.ob_cdecl_heading.specs.Kept.{IsKept, bound_seen};
ghost use Rattle.ob_cexpr_name.specs.Members.{member_seen};
ghost use Rattle.ob_cdecl.specs.Seen.{contents_of, holds_body};
ghost use Rattle.ob_cdecl_block.specs.Procedures.{left_of, bound_by, with_self, typed_with};

use crate::opened::Opened;
use ob_cdecl::{Contents, append_notes};
use ob_cdecl_field::Parameters;
use ob_cdecl_heading::{BoundAs, Head};
use ob_cdecl_scopes::{Imports, Scope};
use ob_cexpr_name::{Member, find_member};
use ob_cexpr_trait::CheckExpr;
use ob_cstmt::check_stmts;
use ob_rules::Notebook;
use ob_tree::{CompactName, Ident, List, Name, Stmt};
use ob_types::{
    Binding, Family, Passing, Receiver, TypedParameter, TypedType, TypedVariable, Types,
};
use ob_types_trees::{ProcedureTrees, StmtTrees, copy_name, copy_type};
use std::alloc::{AllocError, Global};

fn self_parameter(x: &Ident, bound: &BoundAs) -> Result<TypedParameter, AllocError>
    ensures { IfOk result (λ r. r ≡ heading.self_parameter x.now (bound_seen bound.now)) }
{
    let of = copy_type(&bound.of)?;
    match bound.receiver {
        Receiver::Record => Ok(TypedParameter {
            name: x.name,
            passing: Passing::VariableRecord,
            of,
        }),
        Receiver::Pointer => Ok(TypedParameter {
            name: x.name,
            passing: Passing::Scalar,
            of,
        }),
    }
}

fn put_first(
    alloc: Global,
    first: TypedParameter,
    parameters: List<TypedParameter>,
) -> Result<List<TypedParameter>, AllocError>
    ensures { IfOk result (λ r. r ≡ first ∷ parameters) }
{
    let mut all = List::new(alloc);
    all.push(first)?;
    all.append(parameters)?;
    Ok(all)
}

// The parameters, with the receiver before them.
fn with_self(
    alloc: Global,
    receiver: &Option<Ident>,
    bound: &Option<BoundAs>,
    parameters: List<TypedParameter>,
) -> Result<List<TypedParameter>, AllocError>
    ensures { IfOk result (λ r. r ≡ with_self receiver.now (option_map bound_seen bound.now) parameters) }
{
    match receiver {
        None => Ok(parameters),
        Some(x) => match bound {
            None => Ok(parameters),
            Some(bound) => {
                let first = self_parameter(x, bound)?;
                put_first(alloc, first, parameters)
            }
        },
    }
}

fn binding_of(
    alloc: Global,
    bound: &BoundAs,
    member: Option<Member>,
) -> Result<Option<Binding>, AllocError>
    ensures { IfOk result (λ r. r ≡ spec.binding_of bound.now.owner (bound_seen bound.now) (option_map member_seen member)) }
{
    match member {
        None => Ok(None),
        Some(Member::Field(_, _)) => Ok(None),
        Some(Member::Method(introduced, method)) => {
            let name = CompactName::of(alloc, &method.name)?;
            let owner = copy_name(&bound.owner)?;
            Ok(Some(Binding {
                owner,
                receiver: bound.receiver,
                family: Family {
                    owner: introduced,
                    name,
                },
            }))
        }
    }
}

// What a procedure of that name is bound to.
fn bound_to<T: Types>(
    alloc: Global,
    types: &T,
    name: &Name,
    bound: &Option<BoundAs>,
) -> Result<Option<Binding>, AllocError>
    ensures { IfOk result (λ r. r ≡ bound_by (T.types types.now) name.now (option_map bound_seen bound.now)) }
{
    match bound {
        None => Ok(None),
        Some(bound) => {
            let member = find_member(alloc, types, &bound.owner, name)?;
            binding_of(alloc, bound, member)
        }
    }
}

// The procedure, if its heading keeps all rules, and the types that the heading makes.
fn typed_procedure<T: Types>(
    alloc: Global,
    types: &T,
    opened: Opened,
    locals: List<TypedVariable>,
    body: StmtTrees,
) -> Result<(List<TypedType>, ProcedureTrees), AllocError>
    ensures made { IfOk result (λ r. r.0 ≡ spec.types_of_head (left_of opened).parameters) }
    ensures typed { IfOk result (λ r. r.1.inner ≡ typed_with (T.types types.now) (left_of opened) locals body.inner) }
{
    let Opened {
        at,
        name,
        bound,
        mark,
        path,
        receiver,
        parameters,
    } = opened;
    match parameters {
        None => Ok((List::new(alloc), ProcedureTrees::new(alloc))),
        Some(parameters) => {
            let Parameters {
                signature,
                parameters,
                made,
            } = parameters;
            let of = signature.into_result();
            let binding = bound_to(alloc, types, &name, &bound)?;
            let parameters = with_self(alloc, &receiver, &bound, parameters)?;
            let mut typed = ProcedureTrees::new(alloc);
            typed.push(path, mark, at, binding, parameters, of, locals, body)?;
            Ok((made, typed))
        }
    }
}

/// A procedure, and those inside it behind it.
pub(crate) fn add_procedure<T: Types>(
    alloc: Global,
    types: &T,
    contents: &mut Contents,
    opened: Opened,
    inner: Contents,
) -> Result<(), AllocError>
    ensures { OnOk result (contents_of contents.new ≡ spec.together (contents_of contents.old) (spec.procedure_contents (T.types types.now) (left_of opened) (contents_of inner))) }
{
    let Contents {
        constants: _,
        types: made_inside,
        variables,
        procedures,
        body,
    } = inner;
    let (made, typed) = typed_procedure(alloc, types, opened, variables, body)?;
    contents.types.append(made)?;
    contents.types.append(made_inside)?;
    contents.procedures.append(typed)?;
    contents.procedures.append(procedures)?;
    Ok(())
}

fn add_made(contents: &mut Contents, parameters: Option<Parameters>) -> Result<(), AllocError>
    ensures { OnOk result (contents_of contents.new ≡ spec.together (contents_of contents.old) (record spec.no_contents { types = spec.types_of_head (option_map parameters_of parameters) })) }
{
    match parameters {
        None => Ok(()),
        Some(parameters) => {
            let Parameters {
                signature: _,
                parameters: _,
                made,
            } = parameters;
            contents.add_types(made)
        }
    }
}

/// A forward declaration: what is said of its heading is noted, and the types that it makes are added.
pub(crate) fn add_forward(
    book: &mut Notebook,
    contents: &mut Contents,
    head: Head,
) -> Result<(), AllocError>
    ensures noted { (n : ℕ) (h : heading.Head) → IsKept n head h → OnOk result (book.new ≡ book_after book.old (spec.forward_part h).notes) }
    ensures added { (n : ℕ) (h : heading.Head) → IsKept n head h → OnOk result (contents_of contents.new ≡ spec.together (contents_of contents.old) (spec.forward_part h).contents) }
{
    let Head {
        notes,
        parameters,
        ..
    } = head;
    append_notes(book, notes)?;
    add_made(contents, parameters)?;
    Ok(())
}

fn add_stmts(contents: &mut Contents, body: Option<StmtTrees>) -> Result<(), AllocError>
    ensures { OnOk result (contents_of contents.new ≡ spec.together (contents_of contents.old) (holds_body (spec.stmts_in (option_map (λ t. t.inner) body)))) }
{
    match body {
        None => Ok(()),
        Some(body) => contents.add_body(body),
    }
}

/// The statements of a sequence.
pub(crate) fn add_stmts_of<E: Imports, C: CheckExpr>(
    alloc: Global,
    checker: &C,
    scope: &mut Scope<'_, E>,
    book: &mut Notebook,
    contents: &mut Contents,
    body: &[Stmt],
) -> Result<(), AllocError>
    ensures around { OnOk result (around_of E.types scope.new ≡ around_of E.types scope.old) }
    ensures noted { OnOk result (book.new ≡ book_after book.old (spec.body_part (in_turn (map judging body.now) (around_of E.types scope.old))).notes) }
    ensures added { OnOk result (contents_of contents.new ≡ spec.together (contents_of contents.old) (spec.body_part (in_turn (map judging body.now) (around_of E.types scope.old))).contents) }
{
    let made = check_stmts(alloc, checker, scope, book, body)?;
    add_stmts(contents, made)?;
    Ok(())
}
