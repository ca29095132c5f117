//! Parameters, where their types are judged.

#![tactic(auto, using(ob_rules::proofs::BookLaws::after_none, ob_rules::proofs::BookLaws::after_joined))]

ghost use Rattle.std.specs.Prelude.{◌≡◌, ◌∷◌, [], ◌++◌, IfOk, OnOk, Some, None};
ghost use Rattle.std.specs.Option.{option_map, option_copied};
ghost use Rattle.ob_cdecl_scopes.specs.Scopes.{around_of};
ghost use Rattle.ob_rules.specs.Books.{book_after};
ghost use Rattle.ob_rules.specs.Names.{map_of};
ghost use Rattle.ob_rules.specs.Types as spec;
ghost use Rattle.ob_cdecl_field.specs.ParameterMakes.{parameter_entity, names_declared};

use ob_cdecl_scopes::{Imports, Scope};
use ob_cexpr_name::passing_of;
use ob_rules::{Entity, Notebook, Rule, Surroundings};
use ob_tree::{CompactName, Ident};
use ob_types::{Mode, TypeRef, Variable};
use ob_types_trees::copy_type;
use std::alloc::{AllocError, Global};

/// How the parameters of a section are passed.
pub fn mode_of(is_var: bool) -> Mode
    ensures { result ≡ spec.mode_of is_var }
{
    if is_var { Mode::Var } else { Mode::Value }
}

// Rule 1.
#[tactic(auto, using(crate::proofs::ParameterLaws::twice_same))]
fn note_twice<E: Imports>(scope: &Scope<'_, E>, book: &mut Notebook, x: &Ident)
    ensures { book.new ≡ book_after book.old (spec.new_name (around_of E.types scope.now) x.now) }
{
    book.breaks_if(scope.is_known_in_scope(&x.name), Rule::DeclaredTwice, x.pos)
}

// What a parameter of that type stands for, none of a type that breaks a rule.
fn entity_of<E: Imports>(
    alloc: Global,
    scope: &Scope<'_, E>,
    mode: Mode,
    x: &Ident,
    of: Option<&TypeRef>,
) -> Result<Entity, AllocError>
    ensures { IfOk result (λ r. r ≡ parameter_entity (around_of E.types scope.now) mode x.now (option_copied of.entry)) }
{
    match of {
        None => Ok(Entity::Unsound),
        Some(t) => {
            let of = copy_type(t)?;
            let passing = passing_of(scope, mode, t);
            let name = CompactName::of(alloc, &x.name)?;
            Ok(Entity::Variable(Variable::Parameter(passing, name), of))
        }
    }
}

/// From here on the parameters of those names are known, of a type that is there where it keeps all
/// rules.
pub fn declare_names<E: Imports>(
    alloc: Global,
    scope: &mut Scope<'_, E>,
    book: &mut Notebook,
    mode: Mode,
    names: &[Ident],
    of: Option<&TypeRef>,
) -> Result<(), AllocError>
    ensures known { OnOk result (around_of E.types scope.new ≡ (names_declared (around_of E.types scope.old) mode (option_copied of.entry) names.now).around) }
    ensures noted { OnOk result (book.new ≡ book_after book.old (names_declared (around_of E.types scope.old) mode (option_copied of.entry) names.now).notes) }
{
    'names: for x in names {
        note_twice(&*scope, book, x);
        let what = entity_of(alloc, &*scope, mode, x, of)?;
        scope.declare(alloc, x.name, what)?;
    }
    Ok(())
}
