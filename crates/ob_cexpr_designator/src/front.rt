//! The name at the front of a designator.

ghost use Rattle.std.specs.Prelude.{◌≡◌, IfOk, OnOk, Some, None, false};
ghost use Rattle.std.specs.Option.{option_copied, option_map};
ghost use Rattle.ob_rules.specs.Books.{book_after};
ghost use Rattle.ob_rules.specs.Judged as judged;
ghost use Rattle.ob_rules.specs.Names as names;
ghost use Rattle.ob_rules.specs.Designators as spec;
ghost use Rattle.ob_rules.specs.declared.meant.Meant.TheVariants as means;
ghost use Rattle.ob_cexpr_designator.specs.Fronts.{front_judged};

use crate::places::variable_named;
use ob_cexpr_name::{exported, is_out, named, out_procedure};
use ob_rules::{Entity, Meant, Notebook, Rule, Surroundings};
use ob_tree::{CompactName, Ident, Mark, Name, ObjName, Pos, QName};
use ob_types::{Desc, OutProcedure, Signature, TypeRef, Variable};
use ob_types_trees::{copy_name, copy_signature, copy_value};
use std::alloc::{AllocError, Global};

fn place_of<S: Surroundings>(
    alloc: Global,
    here: &S,
    at: Pos,
    variable: &Variable,
    t: &TypeRef,
    read_only: bool,
) -> Result<Option<Meant>, AllocError>
    ensures { IfOk result (λ r. record { node = r; notes = judged.no_notes } ≡ spec.of_variable (spec.variable_named (S.around here.now) at variable.now t.now read_only)) }
{
    match variable_named(alloc, here, at, variable, t, read_only)? {
        None => Ok(None),
        Some(place) => Ok(Some(Meant::Place(place))),
    }
}

fn procedure_of(
    alloc: Global,
    name: QName,
    signature: &Signature,
) -> Result<Option<Meant>, AllocError>
    ensures { IfOk result (λ r. r ≡ (judged.sound (means.Procedure name signature.now)).node) }
{
    let signature = copy_signature(alloc, signature)?;
    Ok(Some(Meant::Procedure(name, signature)))
}

fn is_read_only(mark: Mark) -> bool
    ensures { result ≡ spec.is_read_only mark }
{
    match mark {
        Mark::ReadOnly => true,
        Mark::Hidden | Mark::Full => false,
    }
}

fn exported_meant<S: Surroundings>(
    alloc: Global,
    here: &S,
    book: &mut Notebook,
    start: Pos,
    unit: &Name,
    x: &Ident,
    desc: &Desc,
) -> Result<Option<Meant>, AllocError>
    ensures made { IfOk result (λ r. r ≡ (spec.exported_meant (S.around here.now) start x.now.«pos» unit.now x.now.name desc.now).node) }
    ensures noted { OnOk result (book.new ≡ book_after book.old (spec.exported_meant (S.around here.now) start x.now.«pos» unit.now x.now.name desc.now).notes) }
{
    match desc {
        Desc::Const(value) => {
            let value = copy_value(alloc, value)?;
            Ok(Some(Meant::Constant(value)))
        }
        Desc::Var(mark, t) => {
            let variable = Variable::Module {
                module: CompactName::of(alloc, unit)?,
                name: CompactName::of(alloc, &x.name)?,
            };
            place_of(alloc, here, start, &variable, t, is_read_only(*mark))
        }
        Desc::Proc(signature) => {
            let object = ObjName::from_name(alloc, &x.name)?;
            let name = QName {
                module: CompactName::of(alloc, unit)?,
                object,
            };
            procedure_of(alloc, name, signature)
        }
        Desc::Alias(_, _)
        | Desc::Array(_, _, _)
        | Desc::OpenArray(_, _)
        | Desc::Pointer(_, _)
        | Desc::ProcType(_, _)
        | Desc::Record(_) => {
            book.breaks(Rule::WrongKind, x.pos);
            Ok(None)
        }
    }
}

fn out_meant(book: &mut Notebook, at: Pos, procedure: Option<OutProcedure>) -> Option<Meant>
    ensures made { result ≡ (spec.out_meant at procedure).node }
    ensures noted { book.new ≡ book_after book.old (spec.out_meant at procedure).notes }
{
    match procedure {
        None => {
            book.breaks(Rule::NotDeclared, at);
            None
        }
        Some(procedure) => Some(Meant::Out(procedure)),
    }
}

fn in_other<S: Surroundings>(
    alloc: Global,
    here: &S,
    book: &mut Notebook,
    start: Pos,
    unit: &Name,
    x: &Ident,
) -> Result<Option<Meant>, AllocError>
    ensures made { IfOk result (λ r. r ≡ (spec.in_module false (S.around here.now) start unit.now x.now).node) }
    ensures noted { OnOk result (book.new ≡ book_after book.old (spec.in_module false (S.around here.now) start unit.now x.now).notes) }
{
    match exported(alloc, here, book, unit, x)? {
        None => Ok(None),
        Some(desc) => exported_meant(alloc, here, book, start, unit, x, desc),
    }
}

fn in_module<S: Surroundings>(
    alloc: Global,
    here: &S,
    book: &mut Notebook,
    start: Pos,
    unit: &Name,
    x: &Ident,
) -> Result<Option<Meant>, AllocError>
    ensures made { IfOk result (λ r. r ≡ (spec.in_module (names.is_out unit.now) (S.around here.now) start unit.now x.now).node) }
    ensures noted { OnOk result (book.new ≡ book_after book.old (spec.in_module (names.is_out unit.now) (S.around here.now) start unit.now x.now).notes) }
{
    if is_out(unit) {
        Ok(out_meant(book, x.pos, out_procedure(&x.name)))
    } else {
        in_other(alloc, here, book, start, unit, x)
    }
}

fn module_front<S: Surroundings>(
    alloc: Global,
    here: &S,
    book: &mut Notebook,
    start: Pos,
    unit: &Name,
    dot: Option<Ident>,
) -> Result<Option<Meant>, AllocError>
    ensures made { IfOk result (λ r. r ≡ (spec.module_front (S.around here.now) start unit.now dot).node) }
    ensures noted { OnOk result (book.new ≡ book_after book.old (spec.module_front (S.around here.now) start unit.now dot).notes) }
{
    match dot {
        None => {
            book.breaks(Rule::WrongKind, start);
            Ok(None)
        }
        Some(x) => in_module(alloc, here, book, start, unit, &x),
    }
}

/// What the name at the front of a designator comes to where it stands for that entity, with the name
/// behind its dot if it is a module's. None where it breaks a rule.
pub fn front_of<S: Surroundings>(
    alloc: Global,
    here: &S,
    book: &mut Notebook,
    x: &Ident,
    entity: &Entity,
    dot: Option<Ident>,
) -> Result<Option<Meant>, AllocError>
    ensures made { IfOk result (λ r. r ≡ (spec.front_of (S.around here.now) x.now entity.now dot).node) }
    ensures noted { OnOk result (book.new ≡ book_after book.old (spec.front_of (S.around here.now) x.now entity.now dot).notes) }
{
    match entity {
        Entity::Constant(value) => {
            let value = copy_value(alloc, value)?;
            Ok(Some(Meant::Constant(value)))
        }
        Entity::Variable(variable, t) => place_of(alloc, here, x.pos, variable, t, false),
        Entity::Procedure(name, signature) => {
            let name = copy_name(name)?;
            procedure_of(alloc, name, signature)
        }
        Entity::Forward(name, signature) => {
            let name = copy_name(name)?;
            procedure_of(alloc, name, signature)
        }
        Entity::Predeclared(procedure) => Ok(Some(Meant::Predeclared(*procedure))),
        Entity::Module(unit) => module_front(alloc, here, book, x.pos, unit, dot),
        Entity::TypeName(_) | Entity::LeftOut | Entity::Unsound => {
            book.breaks(Rule::WrongKind, x.pos);
            Ok(None)
        }
    }
}

fn is_module(entity: &Entity) -> bool
    ensures { result ≡ spec.is_module entity.now }
{
    matches!(entity, Entity::Module(_))
}

/// What the name at the front of a designator comes to, and whether the name behind its dot was taken
/// with it.
#[derive(Drop)]
pub struct Front {
    pub meant: Meant,
    pub with_name: bool,
}

fn front_with(meant: Option<Meant>, with_name: bool) -> Option<Front>
    ensures { result ≡ option_map (λ m. record { meant = m; with_name = with_name }) meant }
{
    match meant {
        None => None,
        Some(meant) => Some(Front { meant, with_name }),
    }
}

/// What the name at the front of a designator comes to, behind which stands a dot with that name, or
/// something else. None where it breaks a rule.
#[inline(never)]
pub fn front_named<S: Surroundings>(
    alloc: Global,
    here: &S,
    book: &mut Notebook,
    x: &Ident,
    dot: Option<Ident>,
) -> Result<Option<Front>, AllocError>
    ensures made { IfOk result (λ r. r ≡ (front_judged (S.around here.now) x.now dot).node) }
    ensures noted { OnOk result (book.new ≡ book_after book.old (front_judged (S.around here.now) x.now dot).notes) }
{
    match named(here, book, x) {
        None => Ok(None),
        Some(entity) => {
            let with_name = is_module(entity);
            let meant = front_of(alloc, here, book, x, entity, dot)?;
            Ok(front_with(meant, with_name))
        }
    }
}
