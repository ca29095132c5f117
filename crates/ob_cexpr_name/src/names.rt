//! What names mean, and the rules of names.
#![tactic(auto, using(ob_rules::proofs::BookLaws::after_none, ob_rules::proofs::BookLaws::after_joined))]

ghost use Rattle.std.specs.Prelude.{◌≡◌, IfOk, OnOk, Some, None, false};
ghost use Rattle.std.specs.Option.{option_copied, option_map};
ghost use Rattle.ob_rules.specs.Books.{book_after};
ghost use Rattle.ob_rules.specs.Names as spec;

use ob_rules::{Entity, Known, Notebook, Rule, Surroundings};
use ob_tree::{CompactName, Ident, Mark, Name, ObjName, Pos, QName, Qualident};
use ob_types::{Desc, OutProcedure, TypeRef};
use ob_types_trees::copy_type;
use std::alloc::{AllocError, Global};

// Whether a variable of that scope is one of an enclosing procedure.
fn is_enclosing<S: Surroundings>(here: &S, scope: u32) -> bool
    ensures { result ≡ spec.is_enclosing (S.around here.now) scope }
{
    1 < scope && scope < here.level()
}

fn entity_known<'a, S: Surroundings>(
    here: &S,
    book: &mut Notebook,
    at: Pos,
    known: &'a Known,
) -> Option<&'a Entity>
    ensures made { option_copied result ≡ (spec.entity_known (S.around here.now) at known.now.scope known.now.what).node }
    ensures noted { book.new ≡ book_after book.old (spec.entity_known (S.around here.now) at known.now.scope known.now.what).notes }
{
    match &known.what {
        Entity::LeftOut => {
            book.breaks(Rule::LeftOut, at);
            None
        }
        Entity::Unsound => None,
        Entity::Variable(_, _) => {
            if is_enclosing(here, known.scope) {
                book.breaks(Rule::OuterVariable, at);
                None
            } else {
                Some(&known.what)
            }
        }
        Entity::Constant(_)
        | Entity::TypeName(_)
        | Entity::Procedure(_, _)
        | Entity::Forward(_, _)
        | Entity::Module(_)
        | Entity::Predeclared(_) => Some(&known.what),
    }
}

/// What a name stands for. None where it breaks rule 2, 7 or 8, or its declaration breaks a rule.
pub fn named<'a, S: Surroundings>(here: &'a S, book: &mut Notebook, x: &Ident) -> Option<&'a Entity>
    ensures made { option_copied result ≡ (spec.named (S.around here.now) x.now).node }
    ensures noted { book.new ≡ book_after book.old (spec.named (S.around here.now) x.now).notes }
{
    match here.known(&x.name) {
        None => {
            book.breaks(Rule::NotDeclared, x.pos);
            None
        }
        Some(known) => entity_known(here, book, x.pos, known),
    }
}

fn unless_hidden(mark: Mark, desc: &Desc) -> Option<&Desc>
    ensures { option_copied result ≡ spec.unless_hidden mark desc.now }
{
    match mark {
        Mark::Hidden => None,
        Mark::ReadOnly | Mark::Full => Some(desc),
    }
}

fn visible(desc: &Desc) -> Option<&Desc>
    ensures { option_copied result ≡ spec.record_unless_hidden desc.now }
{
    match desc {
        Desc::Var(mark, _)
        | Desc::Alias(mark, _)
        | Desc::Array(mark, _, _)
        | Desc::OpenArray(mark, _)
        | Desc::Pointer(mark, _)
        | Desc::ProcType(mark, _) => unless_hidden(*mark, desc),
        Desc::Record(record) => unless_hidden(record.mark, desc),
        Desc::Const(_) | Desc::Proc(_) => Some(desc),
    }
}

fn shown_of<'a>(desc: Option<&'a Desc>) -> Option<&'a Desc>
    ensures { option_copied result ≡ spec.shown_of (option_copied desc.entry) }
{
    visible(desc?)
}

/// What an imported module shows of a name, which is noted as named. None where it breaks rule 2.
pub fn exported<'a, S: Surroundings>(
    alloc: Global,
    here: &'a S,
    book: &mut Notebook,
    unit: &Name,
    x: &Ident,
) -> Result<Option<&'a Desc>, AllocError>
    ensures made { IfOk result (λ r. option_map (λ d. (record { «module» = unit.now; object = x.now.name }, d)) (option_copied r) ≡ (spec.exported (S.around here.now) unit.now x.now).node) }
    ensures noted { OnOk result (book.new ≡ book_after book.old (spec.exported (S.around here.now) unit.now x.now).notes) }
{
    match shown_of(here.shown(unit, &x.name)) {
        None => {
            book.breaks(Rule::NotDeclared, x.pos);
            Ok(None)
        }
        Some(desc) => {
            let object = ObjName::from_name(alloc, &x.name)?;
            book.name(QName {
                module: CompactName::of(alloc, unit)?,
                object,
            })?;
            Ok(Some(desc))
        }
    }
}

/// Whether a module is Out.
pub fn is_out(unit: &Name) -> bool
    ensures { result ≡ spec.is_out unit.now }
{
    unit.as_bytes() == b"Out".as_slice()
}

/// The procedure of Out of that name.
pub fn out_procedure(name: &Name) -> Option<OutProcedure>
    ensures { result ≡ spec.out_procedure name.now }
{
    if name.as_bytes() == b"Char".as_slice() {
        Some(OutProcedure::Char)
    } else if name.as_bytes() == b"String".as_slice() {
        Some(OutProcedure::Str)
    } else if name.as_bytes() == b"Int".as_slice() {
        Some(OutProcedure::Int)
    } else if name.as_bytes() == b"Ln".as_slice() {
        Some(OutProcedure::Ln)
    } else {
        None
    }
}

fn out_type(book: &mut Notebook, at: Pos, procedure: Option<OutProcedure>) -> Option<TypeRef>
    ensures made { result ≡ (spec.out_type at procedure).node }
    ensures noted { book.new ≡ book_after book.old (spec.out_type at procedure).notes }
{
    match procedure {
        None => book.breaks(Rule::NotDeclared, at),
        Some(_) => book.breaks(Rule::WrongKind, at),
    }
    None
}

fn type_of_desc(
    alloc: Global,
    book: &mut Notebook,
    unit: &Name,
    x: &Ident,
    desc: &Desc,
) -> Result<Option<TypeRef>, AllocError>
    ensures made { IfOk result (λ r. r ≡ (spec.type_of_desc x.now.«pos» (record { «module» = unit.now; object = x.now.name }) desc.now).node) }
    ensures noted { OnOk result (book.new ≡ book_after book.old (spec.type_of_desc x.now.«pos» (record { «module» = unit.now; object = x.now.name }) desc.now).notes) }
{
    match desc {
        Desc::Const(_) | Desc::Var(_, _) | Desc::Proc(_) => {
            book.breaks(Rule::WrongKind, x.pos);
            Ok(None)
        }
        Desc::Alias(_, _)
        | Desc::Array(_, _, _)
        | Desc::OpenArray(_, _)
        | Desc::Pointer(_, _)
        | Desc::ProcType(_, _)
        | Desc::Record(_) => {
            let object = ObjName::from_name(alloc, &x.name)?;
            Ok(Some(TypeRef::Named(QName {
                module: CompactName::of(alloc, unit)?,
                object,
            })))
        }
    }
}

fn exported_type<S: Surroundings>(
    alloc: Global,
    here: &S,
    book: &mut Notebook,
    unit: &Name,
    x: &Ident,
) -> Result<Option<TypeRef>, AllocError>
    ensures made { IfOk result (λ r. r ≡ (spec.type_in false (S.around here.now) unit.now x.now).node) }
    ensures noted { OnOk result (book.new ≡ book_after book.old (spec.type_in false (S.around here.now) unit.now x.now).notes) }
{
    match exported(alloc, here, book, unit, x)? {
        None => Ok(None),
        Some(desc) => type_of_desc(alloc, book, unit, x, desc),
    }
}

fn type_in<S: Surroundings>(
    alloc: Global,
    here: &S,
    book: &mut Notebook,
    unit: &Name,
    x: &Ident,
) -> Result<Option<TypeRef>, AllocError>
    ensures made { IfOk result (λ r. r ≡ (spec.type_in (spec.is_out unit.now) (S.around here.now) unit.now x.now).node) }
    ensures noted { OnOk result (book.new ≡ book_after book.old (spec.type_in (spec.is_out unit.now) (S.around here.now) unit.now x.now).notes) }
{
    if is_out(unit) {
        Ok(out_type(book, x.pos, out_procedure(&x.name)))
    } else {
        exported_type(alloc, here, book, unit, x)
    }
}

fn plain_type_of<S: Surroundings>(
    here: &S,
    book: &mut Notebook,
    x: &Ident,
    known: &Known,
) -> Result<Option<TypeRef>, AllocError>
    ensures made { IfOk result (λ r. r ≡ (spec.unless_variable_is (S.around here.now) x.now known.now known.now.what (spec.type_of_entity x.now.«pos»)).node) }
    ensures noted { OnOk result (book.new ≡ book_after book.old (spec.unless_variable_is (S.around here.now) x.now known.now known.now.what (spec.type_of_entity x.now.«pos»)).notes) }
{
    match &known.what {
        Entity::TypeName(of) => {
            let of = copy_type(of)?;
            Ok(Some(of))
        }
        Entity::LeftOut => {
            book.breaks(Rule::LeftOut, x.pos);
            Ok(None)
        }
        Entity::Unsound => Ok(None),
        Entity::Constant(_)
        | Entity::Variable(_, _)
        | Entity::Procedure(_, _)
        | Entity::Forward(_, _)
        | Entity::Module(_)
        | Entity::Predeclared(_) => {
            book.breaks(Rule::WrongKind, x.pos);
            Ok(None)
        }
    }
}

fn type_behind<S: Surroundings>(
    alloc: Global,
    here: &S,
    book: &mut Notebook,
    unit: &Ident,
    x: &Ident,
    known: &Known,
) -> Result<Option<TypeRef>, AllocError>
    ensures made { IfOk result (λ r. r ≡ (spec.unless_variable_is (S.around here.now) unit.now known.now known.now.what (spec.type_behind (S.around here.now) unit.now x.now)).node) }
    ensures noted { OnOk result (book.new ≡ book_after book.old (spec.unless_variable_is (S.around here.now) unit.now known.now known.now.what (spec.type_behind (S.around here.now) unit.now x.now)).notes) }
{
    match &known.what {
        Entity::Module(name) => type_in(alloc, here, book, name, x),
        Entity::LeftOut => {
            book.breaks(Rule::LeftOut, unit.pos);
            Ok(None)
        }
        Entity::Unsound => Ok(None),
        Entity::TypeName(_)
        | Entity::Constant(_)
        | Entity::Variable(_, _)
        | Entity::Procedure(_, _)
        | Entity::Forward(_, _)
        | Entity::Predeclared(_) => {
            book.breaks(Rule::WrongKind, unit.pos);
            Ok(None)
        }
    }
}

fn type_by<S: Surroundings>(
    alloc: Global,
    here: &S,
    book: &mut Notebook,
    unit: &Ident,
    x: &Ident,
) -> Result<Option<TypeRef>, AllocError>
    ensures made { IfOk result (λ r. r ≡ (spec.type_by (S.around here.now) (Some unit.now) x.now).node) }
    ensures noted { OnOk result (book.new ≡ book_after book.old (spec.type_by (S.around here.now) (Some unit.now) x.now).notes) }
{
    match here.known(&unit.name) {
        None => {
            book.breaks(Rule::NotDeclared, unit.pos);
            Ok(None)
        }
        Some(known) => type_behind(alloc, here, book, unit, x, known),
    }
}

fn plain_type<S: Surroundings>(
    here: &S,
    book: &mut Notebook,
    x: &Ident,
) -> Result<Option<TypeRef>, AllocError>
    ensures made { IfOk result (λ r. r ≡ (spec.type_by (S.around here.now) None x.now).node) }
    ensures noted { OnOk result (book.new ≡ book_after book.old (spec.type_by (S.around here.now) None x.now).notes) }
{
    match here.known(&x.name) {
        None => {
            book.breaks(Rule::NotDeclared, x.pos);
            Ok(None)
        }
        Some(known) => plain_type_of(here, book, x, known),
    }
}

/// The type that a qualified name names. None where it breaks rule 2, 3 or 7, or its declaration
/// breaks a rule.
pub fn type_named<S: Surroundings>(
    alloc: Global,
    here: &S,
    book: &mut Notebook,
    name: &Qualident,
) -> Result<Option<TypeRef>, AllocError>
    ensures made { IfOk result (λ r. r ≡ (spec.type_named (S.around here.now) name.now).node) }
    ensures noted { OnOk result (book.new ≡ book_after book.old (spec.type_named (S.around here.now) name.now).notes) }
{
    match &name.qualifier {
        None => plain_type(here, book, &name.ident),
        Some(unit) => type_by(alloc, here, book, unit, &name.ident),
    }
}

fn is_predeclared_type(name: &Name) -> bool
    ensures { result ≡ spec.is_predeclared_type name.now }
{
    name.as_bytes() == b"REAL".as_slice() || name.as_bytes() == b"LONGREAL".as_slice()
}

fn is_type_entity(name: &Name, entity: &Entity) -> bool
    ensures { result ≡ spec.is_type_entity name.now entity.now }
{
    match entity {
        Entity::TypeName(_) => true,
        Entity::LeftOut => is_predeclared_type(name),
        Entity::Constant(_)
        | Entity::Variable(_, _)
        | Entity::Procedure(_, _)
        | Entity::Forward(_, _)
        | Entity::Module(_)
        | Entity::Predeclared(_)
        | Entity::Unsound => false,
    }
}

fn is_type_desc(desc: Option<&Desc>) -> bool
    ensures { result ≡ spec.is_type_desc (option_copied desc.entry) }
{
    match desc {
        None => false,
        Some(Desc::Const(_) | Desc::Var(_, _) | Desc::Proc(_)) => false,
        Some(_) => true,
    }
}

fn is_type_behind<S: Surroundings>(here: &S, name: &Name, entity: &Entity) -> bool
    ensures { result ≡ spec.is_type_behind (S.around here.now) name.now entity.now }
{
    match entity {
        Entity::Module(unit) => is_type_desc(shown_of(here.shown(unit, name))),
        Entity::Constant(_)
        | Entity::TypeName(_)
        | Entity::Variable(_, _)
        | Entity::Procedure(_, _)
        | Entity::Forward(_, _)
        | Entity::Predeclared(_)
        | Entity::LeftOut
        | Entity::Unsound => false,
    }
}

fn is_plain_type<S: Surroundings>(here: &S, x: &Ident) -> bool
    ensures { result ≡ spec.is_type_by (S.around here.now) None x.now }
{
    match here.known(&x.name) {
        None => false,
        Some(known) => is_type_entity(&x.name, &known.what),
    }
}

fn is_type_in<S: Surroundings>(here: &S, unit: &Ident, x: &Ident) -> bool
    ensures { result ≡ spec.is_type_by (S.around here.now) (Some unit.now) x.now }
{
    match here.known(&unit.name) {
        None => false,
        Some(known) => is_type_behind(here, &x.name, &known.what),
    }
}

/// Whether a qualified name names a type, whatever rule its place breaks. REAL and LONGREAL do.
/// Takes no memory.
pub fn is_type_name<S: Surroundings>(here: &S, name: &Qualident) -> bool
    ensures { result ≡ spec.is_type_name (S.around here.now) name.now }
{
    match &name.qualifier {
        None => is_plain_type(here, &name.ident),
        Some(unit) => is_type_in(here, unit, &name.ident),
    }
}
