//! Sections of parameters, where their type is judged.

#![tactic(auto, using(ob_rules::proofs::BookLaws::after_none, ob_rules::proofs::BookLaws::after_joined))]

ghost use Rattle.std.specs.Prelude.{◌≡◌, ◌+◌, IfOk, OnOk, Some, None};
ghost use Rattle.std.specs.Option.{option_map};
ghost use Rattle.ob_cdecl_scopes.specs.Scopes.{around_of};
ghost use Rattle.ob_rules.specs.Books.{book_after};
ghost use Rattle.ob_rules.specs.Types as spec;
ghost use Rattle.ob_cdecl_field.specs.Makes.{typing_of, parameters_of};
ghost use Rattle.ob_cdecl_field.specs.ParameterMakes.{no_parameters as nothing_yet, behind_names, modes_all, inside_all, parameters_at, join_parameters, result_joined, procedure_made, section_made};
ghost use Rattle.ob_rules.specs.Judged.{if_quiet as only_quiet};

use crate::made::{Parameters, Typed, add_types, typed_as};
use crate::params::declare_names;
use ob_cdecl_scopes::{Imports, Scope};
use ob_cexpr_name::passing_of;
use ob_rules::Notebook;
use ob_tree::{Ident, List, Mark};
use ob_types::{Desc, Mode, Passing, Signature, TypeRef, TypedParameter};
use ob_types_trees::copy_type;
use std::alloc::{AllocError, Global};

// The modes and types of parameters of one section.
fn modes_of(
    alloc: Global,
    mode: Mode,
    names: &[Ident],
    of: &TypeRef,
) -> Result<List<(Mode, TypeRef)>, AllocError>
    ensures { IfOk result (λ r. r ≡ modes_all mode of.now names.now) }
{
    let mut all = List::new(alloc);
    'names: for _name in names {
        let of = copy_type(of)?;
        all.push((mode, of))?;
    }
    Ok(all)
}

// Parameters of one section, as they are known inside.
fn known_inside(
    alloc: Global,
    passing: Passing,
    names: &[Ident],
    of: &TypeRef,
) -> Result<List<TypedParameter>, AllocError>
    ensures { IfOk result (λ r. r ≡ inside_all passing of.now names.now) }
{
    let mut all = List::new(alloc);
    'names: for x in names {
        let of = copy_type(of)?;
        all.push(TypedParameter {
            name: x.name,
            passing,
            of,
        })?;
    }
    Ok(all)
}

// Parameters of one section, where the types that it makes are around.
fn parameters_as<E: Imports>(
    alloc: Global,
    scope: &Scope<'_, E>,
    mode: Mode,
    names: &[Ident],
    t: Typed,
) -> Result<Parameters, AllocError>
    ensures { IfOk result (λ r. parameters_of r ≡ parameters_at (around_of E.types scope.now) mode names.now (typing_of t)) }
{
    let passing = passing_of(scope, mode, &t.of);
    let params = modes_of(alloc, mode, names, &t.of)?;
    let parameters = known_inside(alloc, passing, names, &t.of)?;
    let Typed { of: _, made } = t;
    Ok(Parameters {
        signature: Signature {
            params,
            result: None,
        },
        parameters,
        made,
    })
}

#[tactic(auto, using(crate::proofs::SectionLaws::none_around, crate::proofs::SectionLaws::none_notes))]
fn none_known<E: Imports>(
    alloc: Global,
    scope: &mut Scope<'_, E>,
    book: &mut Notebook,
    mode: Mode,
    names: &[Ident],
) -> Result<(), AllocError>
    ensures known { OnOk result (around_of E.types scope.new ≡ behind_names (around_of E.types scope.old) mode names.now None) }
    ensures noted { OnOk result (book.new ≡ book_after book.old (spec.declare_all (around_of E.types scope.old) mode None names.now).notes) }
{
    declare_names(alloc, scope, book, mode, names, None)
}

#[tactic(auto, using(crate::proofs::SectionLaws::some_around, crate::proofs::SectionLaws::some_notes))]
fn some_known<E: Imports>(
    alloc: Global,
    scope: &mut Scope<'_, E>,
    book: &mut Notebook,
    mode: Mode,
    names: &[Ident],
    t: Typed,
) -> Result<Parameters, AllocError>
    ensures made { IfOk result (λ r. parameters_of r ≡ spec.parameters_of (around_of E.types scope.old) mode names.now (typing_of t)) }
    ensures known { OnOk result (around_of E.types scope.new ≡ behind_names (around_of E.types scope.old) mode names.now (Some (typing_of t))) }
    ensures noted { OnOk result (book.new ≡ book_after book.old (spec.declare_all (around_of E.types scope.old) mode (Some (typing_of t)) names.now).notes) }
{
    add_types(alloc, scope, t.made.as_slice())?;
    let of = copy_type(&t.of)?;
    let parameters = parameters_as(alloc, &*scope, mode, names, t)?;
    declare_names(alloc, scope, book, mode, names, Some(&of))?;
    Ok(parameters)
}

// Parameters of one section, where their type is judged. From here on they are known, and the types
// that they make are around.
fn section_declared<E: Imports>(
    alloc: Global,
    scope: &mut Scope<'_, E>,
    book: &mut Notebook,
    mode: Mode,
    names: &[Ident],
    typed: Option<Typed>,
) -> Result<Option<Parameters>, AllocError>
    ensures made { IfOk result (λ r. option_map parameters_of r ≡ option_map (spec.parameters_of (around_of E.types scope.old) mode names.now) (option_map typing_of typed)) }
    ensures known { OnOk result (around_of E.types scope.new ≡ behind_names (around_of E.types scope.old) mode names.now (option_map typing_of typed)) }
    ensures noted { OnOk result (book.new ≡ book_after book.old (spec.declare_all (around_of E.types scope.old) mode (option_map typing_of typed) names.now).notes) }
{
    match typed {
        None => {
            none_known(alloc, scope, book, mode, names)?;
            Ok(None)
        }
        Some(t) => {
            let parameters = some_known(alloc, scope, book, mode, names, t)?;
            Ok(Some(parameters))
        }
    }
}

fn if_quiet(quiet: bool, parameters: Option<Parameters>) -> Option<Parameters>
    ensures { option_map parameters_of result ≡ only_quiet quiet (option_map parameters_of parameters) }
{
    if quiet { parameters } else { None }
}

/// Parameters of one section, where their type is judged; none where their names break a rule. From
/// here on they are known, and the types that they make are around.
#[tactic(auto, using(crate::proofs::SectionLaws::quiet_names))]
pub fn section_known<E: Imports>(
    alloc: Global,
    scope: &mut Scope<'_, E>,
    book: &mut Notebook,
    mode: Mode,
    names: &[Ident],
    typed: Option<Typed>,
) -> Result<Option<Parameters>, AllocError>
    ensures made { IfOk result (λ r. option_map parameters_of r ≡ section_made (around_of E.types scope.old) mode names.now (option_map typing_of typed)) }
    ensures known { OnOk result (around_of E.types scope.new ≡ behind_names (around_of E.types scope.old) mode names.now (option_map typing_of typed)) }
    ensures noted { OnOk result (book.new ≡ book_after book.old (spec.declare_all (around_of E.types scope.old) mode (option_map typing_of typed) names.now).notes) }
{
    let before = book.set_aside();
    let parameters = section_declared(alloc, scope, book, mode, names, typed)?;
    let quiet = book.is_quiet();
    book.put_back(before);
    Ok(if_quiet(quiet, parameters))
}

/// No parameters. Takes no memory.
pub fn no_parameters(alloc: Global) -> Parameters
    ensures { parameters_of result ≡ nothing_yet }
{
    Parameters {
        signature: Signature {
            params: List::new(alloc),
            result: None,
        },
        parameters: List::new(alloc),
        made: List::new(alloc),
    }
}

fn parameters_joined(first: Parameters, more: Parameters) -> Result<Parameters, AllocError>
    ensures { IfOk result (λ r. parameters_of r ≡ spec.parameters_joined (parameters_of first) (parameters_of more)) }
{
    let Parameters {
        signature,
        parameters,
        made,
    } = first;
    let Parameters {
        signature: more_signature,
        parameters: more_parameters,
        made: more_made,
    } = more;
    let mut params = signature.into_params();
    let mut parameters = parameters;
    let mut made = made;
    params.append(more_signature.into_params())?;
    parameters.append(more_parameters)?;
    made.append(more_made)?;
    Ok(Parameters {
        signature: Signature {
            params,
            result: None,
        },
        parameters,
        made,
    })
}

/// Parameters, and more parameters behind them.
pub fn joined_parameters(
    all: Option<Parameters>,
    more: Option<Parameters>,
) -> Result<Option<Parameters>, AllocError>
    ensures { IfOk result (λ r. option_map parameters_of r ≡ join_parameters (option_map parameters_of all) (option_map parameters_of more)) }
{
    match all {
        None => Ok(None),
        Some(first) => match more {
            None => Ok(None),
            Some(second) => {
                let joined = parameters_joined(first, second)?;
                Ok(Some(joined))
            }
        },
    }
}

/// Parameters with the type of the result, where both are judged. Takes no memory.
pub fn with_result(
    parameters: Option<Parameters>,
    result_type: Option<Option<TypeRef>>,
) -> Option<Parameters>
    ensures { option_map parameters_of result ≡ result_joined (option_map parameters_of parameters) result_type }
{
    match parameters {
        None => None,
        Some(p) => match result_type {
            None => None,
            Some(of) => {
                let Parameters {
                    signature,
                    parameters,
                    made,
                } = p;
                let params = signature.into_params();
                Some(Parameters {
                    signature: Signature { params, result: of },
                    parameters,
                    made,
                })
            }
        },
    }
}

/// The procedure type of that name and mark, where its parameters are judged.
pub fn procedure_of<E: Imports>(
    alloc: Global,
    scope: &Scope<'_, E>,
    name: &[u8],
    mark: Mark,
    parameters: Option<Parameters>,
) -> Result<Option<Typed>, AllocError>
    ensures { IfOk result (λ r. option_map typing_of r ≡ procedure_made (around_of E.types scope.now) name.now mark (option_map parameters_of parameters)) }
{
    match parameters {
        None => Ok(None),
        Some(p) => {
            let Parameters {
                signature,
                parameters: _,
                made,
            } = p;
            let t = typed_as(alloc, scope, name, Desc::ProcType(mark, signature), made)?;
            Ok(Some(t))
        }
    }
}

/// The number of the parameter behind those of that many names. Where there is no such number, there
/// was no memory for the names either.
pub fn number_behind(number: usize, names: usize) -> Result<usize, AllocError>
    ensures { IfOk result (λ r. r ≡ number + names) }
{
    match number.checked_add(names) {
        None => Err(AllocError),
        Some(next) => Ok(next),
    }
}
