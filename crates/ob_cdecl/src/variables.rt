//! Variables, as they are declared.

#![tactic(auto, using(ob_rules::proofs::BookLaws::after_none, ob_rules::proofs::BookLaws::after_joined))]

ghost use Rattle.std.specs.Prelude.{◌≡◌, ◌++◌, Some, IfOk, OnOk, codes, true};
ghost use Rattle.std.specs.Option.{option_map, option_copied};
ghost use Rattle.ob_cdecl_scopes.specs.Scopes.{around_of};
ghost use Rattle.ob_rules.specs.Books.{book_after};
ghost use Rattle.ob_rules.specs.Types as types;
ghost use Rattle.ob_rules.specs.Types.{written, marked, with_types};
ghost use Rattle.ob_rules.specs.Declarations as spec;
ghost use Rattle.ob_cdecl_field.specs.Makes.{typing_of};
ghost use Rattle.ob_cdecl.specs.Seen.{contents_of, holds_types};
ghost use Rattle.ob_cdecl.specs.Order.{typing_only};

use crate::contents::Contents;
use crate::decls::declare_new;
use ob_cdecl_field::{Typed, add_types, first_name};
use ob_cdecl_scopes::{Imports, Scope};
use ob_cdecl_type::{check_mark, check_type, is_module_level};
use ob_cexpr_trait::CheckExpr;
use ob_rules::{Entity, Notebook, Surroundings};
use ob_tree::{CompactName, Ident, IdentDef, Mark, Name, ObjName, TypeNode};
use ob_types::{TypeRef, Variable};
use ob_types_trees::copy_type;
use std::alloc::{AllocError, Global};

fn variable_of<E: Imports>(
    alloc: Global,
    scope: &Scope<'_, E>,
    name: &Name,
) -> Result<Variable, AllocError>
    ensures { IfOk result (λ r. r ≡ spec.variable_of (types.is_module_level (around_of E.types scope.now)) (around_of E.types scope.now) name.now) }
{
    let name = CompactName::of(alloc, name)?;
    if is_module_level(scope) {
        let module = CompactName::of(alloc, &scope.unit())?;
        return Ok(Variable::Module { module, name });
    }
    Ok(Variable::Local(name))
}

fn variable_entity<E: Imports>(
    alloc: Global,
    scope: &Scope<'_, E>,
    x: &Ident,
    mark: Option<Mark>,
    of: Option<&TypeRef>,
) -> Result<Entity, AllocError>
    ensures { IfOk result (λ r. r ≡ spec.variable_entity (around_of E.types scope.now) x.now (spec.paired_typing mark (typing_only (option_copied of.entry)))) }
{
    match mark {
        None => Ok(Entity::Unsound),
        Some(_) => match of {
            None => Ok(Entity::Unsound),
            Some(t) => {
                let t = copy_type(t)?;
                let variable = variable_of(alloc, scope, &x.name)?;
                Ok(Entity::Variable(variable, t))
            }
        },
    }
}

#[tactic(auto, using(crate::proofs::ContentsLaws::adds_nothing))]
fn hold_variable(
    contents: &mut Contents,
    x: &Ident,
    mark: Option<Mark>,
    of: Option<&TypeRef>,
) -> Result<(), AllocError>
    ensures { OnOk result (contents_of contents.new ≡ spec.together (contents_of contents.old) (spec.variable_contents x.now (spec.paired_typing mark (typing_only (option_copied of.entry))))) }
{
    match mark {
        None => Ok(()),
        Some(mark) => match of {
            None => Ok(()),
            Some(t) => {
                let t = copy_type(t)?;
                contents.add_variable(x.name, mark, t)
            }
        },
    }
}

// One variable, of a type that is there where it keeps all rules.
fn variable_declared<E: Imports>(
    alloc: Global,
    scope: &mut Scope<'_, E>,
    book: &mut Notebook,
    contents: &mut Contents,
    d: &IdentDef,
    of: Option<&TypeRef>,
) -> Result<(), AllocError>
    ensures around { OnOk result (around_of E.types scope.new ≡ (spec.variable_marked (around_of E.types scope.old) d.now.ident (marked (around_of E.types scope.old) true d.now) (typing_only (option_copied of.entry))).around) }
    ensures noted { OnOk result (book.new ≡ book_after book.old (spec.variable_marked (around_of E.types scope.old) d.now.ident (marked (around_of E.types scope.old) true d.now) (typing_only (option_copied of.entry))).part.notes) }
    ensures added { OnOk result (contents_of contents.new ≡ spec.together (contents_of contents.old) (spec.variable_marked (around_of E.types scope.old) d.now.ident (marked (around_of E.types scope.old) true d.now) (typing_only (option_copied of.entry))).part.contents) }
{
    let mark = check_mark(&*scope, book, true, d);
    let what = variable_entity(alloc, &*scope, &d.ident, mark, of)?;
    hold_variable(contents, &d.ident, mark, of)?;
    declare_new(alloc, scope, book, &d.ident, what)
}

fn variables_with<E: Imports>(
    alloc: Global,
    scope: &mut Scope<'_, E>,
    book: &mut Notebook,
    contents: &mut Contents,
    names: &[IdentDef],
    of: Option<&TypeRef>,
) -> Result<(), AllocError>
    ensures around { OnOk result (around_of E.types scope.new ≡ (spec.variables_with names.now (typing_only (option_copied of.entry)) (around_of E.types scope.old)).around) }
    ensures noted { OnOk result (book.new ≡ book_after book.old (spec.variables_with names.now (typing_only (option_copied of.entry)) (around_of E.types scope.old)).part.notes) }
    ensures added { OnOk result (contents_of contents.new ≡ spec.together (contents_of contents.old) (spec.variables_with names.now (typing_only (option_copied of.entry)) (around_of E.types scope.old)).part.contents) }
{
    'names: for d in names {
        variable_declared(alloc, scope, book, contents, d, of)?;
    }
    Ok(())
}

// Variables of a type that keeps all rules.
fn variables_sound<E: Imports>(
    alloc: Global,
    scope: &mut Scope<'_, E>,
    book: &mut Notebook,
    contents: &mut Contents,
    names: &[IdentDef],
    t: Typed,
) -> Result<(), AllocError>
    ensures around { OnOk result (around_of E.types scope.new ≡ (spec.variables_with names.now (Some (typing_of t)) (with_types (around_of E.types scope.old) t.made)).around) }
    ensures noted { OnOk result (book.new ≡ book_after book.old (spec.variables_with names.now (Some (typing_of t)) (with_types (around_of E.types scope.old) t.made)).part.notes) }
    ensures added { OnOk result (contents_of contents.new ≡ spec.together (contents_of contents.old) (spec.together (holds_types t.made) (spec.variables_with names.now (Some (typing_of t)) (with_types (around_of E.types scope.old) t.made)).part.contents)) }
{
    let Typed { of, made } = t;
    add_types(alloc, scope, made.as_slice())?;
    contents.add_types(made)?;
    variables_with(alloc, scope, book, contents, names, Some(&of))
}

// The name of a type that is written behind these variables.
fn variables_name<E: Imports>(
    alloc: Global,
    scope: &Scope<'_, E>,
    names: &[IdentDef],
) -> Result<ObjName, AllocError>
    ensures { IfOk result (λ r. r ≡ (around_of E.types scope.now).path ++ spec.first_name names.now ++ codes ":") }
{
    let mut all = Vec::from_slice(alloc, scope.path())?;
    all.extend_from_slice(first_name(names))?;
    all.extend_from_slice(b":".as_slice())?;
    ObjName::new(alloc, &all)
}

/// The declaration of variables of one type: from here on they are known.
pub fn variables_declared<E: Imports, C: CheckExpr>(
    alloc: Global,
    checker: &C,
    scope: &mut Scope<'_, E>,
    book: &mut Notebook,
    contents: &mut Contents,
    names: &[IdentDef],
    node: &TypeNode,
) -> Result<(), AllocError>
    ensures around { OnOk result (around_of E.types scope.new ≡ (spec.variables_declared names.now (written node.now) (around_of E.types scope.old)).around) }
    ensures noted { OnOk result (book.new ≡ book_after book.old (spec.variables_declared names.now (written node.now) (around_of E.types scope.old)).part.notes) }
    ensures added { OnOk result (contents_of contents.new ≡ spec.together (contents_of contents.old) (spec.variables_declared names.now (written node.now) (around_of E.types scope.old)).part.contents) }
{
    let name = variables_name(alloc, &*scope, names)?;
    match check_type(
        alloc,
        checker,
        scope,
        book,
        node,
        name.as_bytes(),
        Mark::Hidden,
        false,
    )? {
        None => variables_with(alloc, scope, book, contents, names, None),
        Some(t) => variables_sound(alloc, scope, book, contents, names, t),
    }
}
