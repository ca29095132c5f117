//! The guards of WITH.

ghost use Rattle.std.specs.Prelude.{◌≡◌, IfOk, OnOk};
ghost use Rattle.std.specs.Option.{option_copied, option_map};
ghost use Rattle.ob_rules.specs.Books.{book_after};
ghost use Rattle.ob_rules.specs.Judged.{if_sound, paired};
ghost use Rattle.ob_rules.specs.Statements as spec;
ghost use Rattle.ob_rules.specs.Types.{first_of};
ghost use Rattle.ob_cstmt_parts.specs.Seen.{expr_in, test_in};

use ob_cexpr_designator::guard_of;
use ob_cexpr_name::is_pointer;
use ob_rules::{Entity, Known, Meant, Notebook, Place, Rule, Surroundings};
use ob_tree::{CompactName, Ident, Pos, QName, Qualident};
use ob_types::{Guarded, TypeRef, Types, Variable};
use ob_types_trees::{ExprTree, copy_type, copy_variable};
use std::alloc::{AllocError, Global};

/// The first symbol of a qualified name.
pub fn first_of(name: &Qualident) -> Pos
    ensures { result ≡ first_of name.now }
{
    match &name.qualifier {
        None => name.ident.pos,
        Some(unit) => unit.pos,
    }
}

/// The guarded variable, where its name is sound. Rule 37 where it is neither a pointer variable nor
/// a VAR parameter of a record type. Takes no memory.
pub fn guarded_if<T: Types>(
    types: &T,
    book: &mut Notebook,
    at: Pos,
    meant: Option<Meant>,
) -> Option<Place>
    ensures made { result ≡ (if_sound meant (λ m. spec.with_place (T.types types.now) at m)).node }
    ensures noted { book.new ≡ book_after book.old (if_sound meant (λ m. spec.with_place (T.types types.now) at m)).notes }
{
    match meant {
        None => None,
        Some(Meant::Place(place)) => {
            let fit = is_pointer(types, &place.of) || place.var_record;
            book.wants(fit, Rule::UnfitWith, at, place)
        }
        Some(
            Meant::Constant(_)
            | Meant::Procedure(_, _)
            | Meant::Bound(_)
            | Meant::Out(_)
            | Meant::Predeclared(_)
            | Meant::Call(_)
            | Meant::Statement(_),
        ) => {
            book.breaks(Rule::UnfitWith, at);
            None
        }
    }
}

fn guard_test(
    alloc: Global,
    place: Place,
    guarded: Guarded,
    target: QName,
) -> Result<ExprTree, AllocError>
    ensures { IfOk result (λ r. r.inner ≡ spec.guard_test place guarded target) }
{
    let designator = place.into_designator();
    match guarded {
        Guarded::Pointer => {
            let operand = ExprTree::designator(designator);
            ExprTree::is_pointer(alloc, operand, target)
        }
        Guarded::Record => Ok(ExprTree::is_record(designator, target)),
    }
}

/// A guard as a test, and the type that is tested for.
#[derive(Drop)]
pub struct Test {
    pub tree: ExprTree,
    pub of: TypeRef,
}

// Rule 37: the type is an extension.
fn tested<T: Types>(
    alloc: Global,
    types: &T,
    book: &mut Notebook,
    at: Pos,
    place: Place,
    of: TypeRef,
) -> Result<Option<Test>, AllocError>
    ensures made { IfOk result (λ r. test_in r ≡ (spec.tested (T.types types.now) at place of).node) }
    ensures noted { OnOk result (book.new ≡ book_after book.old (spec.tested (T.types types.now) at place of).notes) }
{
    match guard_of(types, &place, &of)? {
        None => {
            book.breaks(Rule::UnfitWith, at);
            Ok(None)
        }
        Some((guarded, target)) => {
            let tree = guard_test(alloc, place, guarded, target)?;
            Ok(Some(Test { tree, of }))
        }
    }
}

/// A guard of its variable and its type, where both are sound. Rule 37 where the type is no extension.
pub fn tested_if<T: Types>(
    alloc: Global,
    types: &T,
    book: &mut Notebook,
    at: Pos,
    place: Option<Place>,
    of: Option<TypeRef>,
) -> Result<Option<Test>, AllocError>
    ensures made { IfOk result (λ r. test_in r ≡ (if_sound (paired place of) (λ p. spec.tested (T.types types.now) at p.0 p.1)).node) }
    ensures noted { OnOk result (book.new ≡ book_after book.old (if_sound (paired place of) (λ p. spec.tested (T.types types.now) at p.0 p.1)).notes) }
{
    match place {
        None => Ok(None),
        Some(place) => match of {
            None => Ok(None),
            Some(of) => tested(alloc, types, book, at, place, of),
        },
    }
}

fn variable_of(entity: &Entity) -> Result<Option<Variable>, AllocError>
    ensures { IfOk result (λ r. r ≡ spec.variable_in entity.now) }
{
    match entity {
        Entity::Variable(variable, _) => {
            let variable = copy_variable(variable)?;
            Ok(Some(variable))
        }
        Entity::Module(_)
        | Entity::TypeName(_)
        | Entity::Constant(_)
        | Entity::Procedure(_, _)
        | Entity::Forward(_, _)
        | Entity::Predeclared(_)
        | Entity::LeftOut
        | Entity::Unsound => Ok(None),
    }
}

fn variable_behind(
    alloc: Global,
    x: &Ident,
    entity: &Entity,
) -> Result<Option<Variable>, AllocError>
    ensures { IfOk result (λ r. r ≡ spec.variable_behind x.now entity.now) }
{
    match entity {
        Entity::Module(unit) => {
            let module = CompactName::of(alloc, unit)?;
            let name = CompactName::of(alloc, &x.name)?;
            Ok(Some(Variable::Module { module, name }))
        }
        Entity::Variable(_, _)
        | Entity::TypeName(_)
        | Entity::Constant(_)
        | Entity::Procedure(_, _)
        | Entity::Forward(_, _)
        | Entity::Predeclared(_)
        | Entity::LeftOut
        | Entity::Unsound => Ok(None),
    }
}

fn known_variable(known: Option<&Known>) -> Result<Option<Variable>, AllocError>
    ensures { IfOk result (λ r. r ≡ spec.entity_variable (option_copied known.entry)) }
{
    match known {
        None => Ok(None),
        Some(known) => variable_of(&known.what),
    }
}

fn unit_variable(
    alloc: Global,
    x: &Ident,
    known: Option<&Known>,
) -> Result<Option<Variable>, AllocError>
    ensures { IfOk result (λ r. r ≡ spec.module_variable x.now (option_copied known.entry)) }
{
    match known {
        None => Ok(None),
        Some(known) => variable_behind(alloc, x, &known.what),
    }
}

/// The variable that the body of a branch means by the guarded name, also where a rule is broken at
/// it. An `Err` is want of memory.
pub fn variable_meant<S: Surroundings>(
    alloc: Global,
    here: &S,
    name: &Qualident,
) -> Result<Option<Variable>, AllocError>
    ensures { IfOk result (λ r. r ≡ spec.variable_meant (S.around here.now) name.now.qualifier name.now.ident) }
{
    match &name.qualifier {
        None => known_variable(here.known(&name.ident.name)),
        Some(unit) => unit_variable(alloc, &name.ident, here.known(&unit.name)),
    }
}

/// The test alone.
pub fn test_tree(test: Option<Test>) -> Option<ExprTree>
    ensures { expr_in result ≡ option_map (λ t. t.0) (test_in test) }
{
    match test {
        None => None,
        Some(test) => {
            let Test { tree, .. } = test;
            Some(tree)
        }
    }
}

/// The type alone.
pub fn tested_type(test: Option<&Test>) -> Result<Option<TypeRef>, AllocError>
    ensures { IfOk result (λ r. r ≡ spec.type_if (test_in (option_copied test.entry))) }
{
    match test {
        None => Ok(None),
        Some(test) => {
            let of = copy_type(&test.of)?;
            Ok(Some(of))
        }
    }
}
