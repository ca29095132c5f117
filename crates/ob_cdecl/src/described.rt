//! Types with the bound procedures that they introduce; the bound procedures that come.

ghost use Rattle.std.specs.Prelude.{◌≡◌, ◌++◌, [], IfOk, OnOk};
ghost use Rattle.std.specs.List.{cons_option};
ghost use Rattle.std.specs.Option.{option_copied};
ghost use Rattle.ob_cdecl_scopes.specs.Scopes.{around_of};
ghost use Rattle.ob_rules.specs.Headings.{heading_of};
ghost use Rattle.ob_rules.specs.Declarations as spec;
ghost use Rattle.ob_cdecl.specs.Order.{described_by, described_here, coming_by, coming_within};

use ob_cdecl_scopes::{Imports, Scope};
use ob_rules::{Coming, Surroundings};
use ob_tree::{CompactName, Decl, Heading, List, ObjName, QName};
use ob_types::{Desc, TypedType, Types};
use ob_types_trees::copy_desc;
use std::alloc::{AllocError, Global};

fn described(alloc: Global, t: &TypedType, desc: Option<&Desc>) -> Result<TypedType, AllocError>
    ensures { IfOk result (λ r. r ≡ described_by (option_copied desc.entry) t.now) }
{
    let name = ObjName::new(alloc, t.name.as_bytes())?;
    match desc {
        None => {
            let desc = copy_desc(alloc, &t.desc)?;
            Ok(TypedType { name, desc })
        }
        Some(desc) => {
            let desc = copy_desc(alloc, desc)?;
            Ok(TypedType { name, desc })
        }
    }
}

fn own_name<E: Imports>(
    alloc: Global,
    scope: &Scope<'_, E>,
    t: &TypedType,
) -> Result<QName, AllocError>
    ensures { IfOk result (λ r. r ≡ record { «module» = (around_of E.types scope.now).unit; object = t.now.name }) }
{
    let object = ObjName::new(alloc, t.name.as_bytes())?;
    Ok(QName {
        module: CompactName::of(alloc, &scope.unit())?,
        object,
    })
}

#[tactic(auto, using(crate::proofs::ImportLaws::described_is))]
fn described_now<E: Imports>(
    alloc: Global,
    scope: &Scope<'_, E>,
    t: &TypedType,
) -> Result<TypedType, AllocError>
    ensures { IfOk result (λ r. r ≡ described_here (around_of E.types scope.now).own t.now) }
{
    let name = own_name(alloc, scope, t)?;
    described(alloc, t, scope.desc_of(&name))
}

/// The types as they are in the end, with the bound procedures that they introduce: as those of the
/// scope of that name.
pub fn all_described<E: Imports>(
    alloc: Global,
    scope: &Scope<'_, E>,
    types: &[TypedType],
) -> Result<List<TypedType>, AllocError>
    ensures { IfOk result (λ r. r ≡ spec.all_described (around_of E.types scope.now).own types.now) }
{
    let mut all = List::new(alloc);
    'types: for t in types {
        let one = described_now(alloc, scope, t)?;
        all.push(one)?;
    }
    Ok(all)
}

fn coming_of(heading: &Heading) -> Option<Coming>
    ensures { result ≡ spec.coming_of (heading_of heading.now).name.ident (heading_of heading.now).receiver }
{
    match &heading.receiver {
        None => None,
        Some(r) => Some(Coming {
            owner: r.owner.name,
            is_var: r.is_var,
            name: heading.name.ident.name,
        }),
    }
}

fn coming_in(d: &Decl) -> Option<Coming>
    ensures { result ≡ coming_by (spec.procedure_of (spec.declaration d.now)) }
{
    match d {
        Decl::Constant { .. } => None,
        Decl::NamedType { .. } => None,
        Decl::Variables { .. } => None,
        Decl::Procedure { heading, .. } => coming_of(heading),
        Decl::Forward(heading) => coming_of(heading),
    }
}

fn add_coming(all: &mut List<Coming>, coming: Option<Coming>) -> Result<(), AllocError>
    ensures { OnOk result (all.new ≡ all.old ++ cons_option coming []) }
{
    match coming {
        None => Ok(()),
        Some(coming) => all.push(coming),
    }
}

/// The bound procedures of a sequence of declarations.
pub fn coming_within(alloc: Global, decls: &[Decl]) -> Result<List<Coming>, AllocError>
    ensures { IfOk result (λ r. r ≡ coming_within decls.now) }
{
    let mut all = List::new(alloc);
    'declarations: for d in decls {
        add_coming(&mut all, coming_in(d))?;
    }
    Ok(all)
}
