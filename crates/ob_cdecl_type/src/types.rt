//! Types and formal parameters as they are written, and what they make.

#![tactic(auto, using(ob_rules::proofs::BookLaws::after_none, ob_rules::proofs::BookLaws::after_joined))]

ghost use Rattle.std.specs.Prelude.{◌≡◌, [], ◌∷◌, IfOk, OnOk, map, is_none, Some, None, true};
ghost use Rattle.std.specs.Option.{option_map};
ghost use Rattle.ob_tree.specs.declared.ident.Mark.TheVariants as mark_is;
ghost use Rattle.ob_cdecl_scopes.specs.Scopes.{around_of};
ghost use Rattle.ob_rules.specs.Books.{book_after};
ghost use Rattle.ob_rules.specs.Judged.{◌▷◌};
ghost use Rattle.ob_rules.specs.Names.{Around, map_of};
ghost use Rattle.ob_rules.specs.Expressions.{phrase_of};
ghost use Rattle.ob_rules.specs.Types as spec;
ghost use Rattle.ob_cdecl_field.specs.Makes.{typing_of, parameters_of};
ghost use Rattle.ob_cdecl_field.specs.FieldMakes.{fields_seen, list_judged};
ghost use Rattle.ob_cdecl_field.specs.ParameterMakes.{section_typing, section_made, behind_section};
ghost use Rattle.ob_cdecl_type.specs.Nested.{open_judged, written_fields, fields_as, written_section, section_as};

use crate::arrays::{array_of, arrays_of, inner_name, lengths_of};
use crate::lengths::array_length;
use crate::pointers::{later_pointer, pointer_base, pointer_to};
use ob_cdecl_field::{
    Fields, Parameters, Typed, base_if, base_name, element_name, field_name, fields_of,
    fields_together, first_name, is_open_array, joined_fields, joined_parameters, later_type,
    mode_of, name_of, named_type, no_fields, no_parameters, number_behind, procedure_of, record_of,
    result_of, section_known, section_name, start_of, typed_as, with_result,
};
use ob_cdecl_scopes::{Imports, Scope, Stack};
use ob_cexpr_trait::CheckExpr;
use ob_rules::{Notebook, Rule};
use ob_tree::{Expr, FieldList, FormalPars, Mark, Pos, Qualident, Section, TypeNode};
use ob_types::{Desc, TypeRef};
use std::alloc::{AllocError, Global};

/// A type as it is written: what it is, and the types that it makes under that name and mark. An
/// open array may stand there where `open_ok` is true. None where it breaks a rule, or a declaration
/// that it names does. What is broken, and what it names, is noted in the book; what stands around
/// stays.
#[cycle(types)]
pub fn check_type<E: Imports, C: CheckExpr>(
    alloc: Global,
    checker: &C,
    scope: &mut Scope<'_, E>,
    book: &mut Notebook,
    node: &TypeNode,
    name: &[u8],
    mark: Mark,
    open_ok: bool,
) -> Result<Option<Typed>, AllocError>
    ensures made { IfOk result (λ r. option_map typing_of r ≡ ((spec.written node.now).typing (around_of E.types scope.old) name.now mark open_ok).node) }
    ensures noted { OnOk result (book.new ≡ book_after book.old ((spec.written node.now).typing (around_of E.types scope.old) name.now mark open_ok).notes) }
    ensures stays { OnOk result (around_of E.types scope.new ≡ around_of E.types scope.old) }
{
    match node {
        TypeNode::Named(q) => named_type(alloc, &*scope, book, q, open_ok),
        TypeNode::Array {
            pos,
            lengths,
            element,
        } => array_type(
            alloc,
            checker,
            scope,
            book,
            name,
            mark,
            *pos,
            open_ok,
            element.get(),
            lengths.as_slice(),
        ),
        TypeNode::Record {
            pos: _,
            base,
            fields,
        } => record_type(
            alloc,
            checker,
            scope,
            book,
            name,
            mark,
            base,
            fields.as_slice(),
        ),
        TypeNode::Pointer { pos: _, base } => {
            pointer_type(alloc, checker, scope, book, name, mark, base.get())
        }
        TypeNode::Procedure { pos: _, parameters } => {
            procedure_type(alloc, checker, scope, book, name, mark, parameters)
        }
    }
}

#[cycle(types)]
fn array_type<E: Imports, C: CheckExpr>(
    alloc: Global,
    checker: &C,
    scope: &mut Scope<'_, E>,
    book: &mut Notebook,
    name: &[u8],
    mark: Mark,
    at: Pos,
    open_ok: bool,
    element: &TypeNode,
    lengths: &[Expr],
) -> Result<Option<Typed>, AllocError>
    ensures made { IfOk result (λ r. option_map typing_of r ≡ (spec.array (around_of E.types scope.old) name.now mark at open_ok (map phrase_of lengths.now) (spec.written element.now)).node) }
    ensures noted { OnOk result (book.new ≡ book_after book.old (spec.array (around_of E.types scope.old) name.now mark at open_ok (map phrase_of lengths.now) (spec.written element.now)).notes) }
    ensures stays { OnOk result (around_of E.types scope.new ≡ around_of E.types scope.old) }
{
    match lengths {
        [] => open_array(
            alloc, checker, scope, book, name, mark, at, open_ok, element,
        ),
        [first, rest @ ..] => {
            fixed_array(
                alloc, checker, scope, book, name, mark, element, first, rest,
            )
        }
    }
}

// Arrays of arrays of these lengths, all but the outermost.
#[cycle(types)]
#[tactic(auto, using(ob_rules::proofs::BookLaws::after_none, ob_rules::proofs::BookLaws::after_joined, crate::proofs::ArrayLaws::fixed_node, crate::proofs::ArrayLaws::fixed_notes))]
fn inner_arrays<E: Imports, C: CheckExpr>(
    alloc: Global,
    checker: &C,
    scope: &mut Scope<'_, E>,
    book: &mut Notebook,
    name: &[u8],
    element: &TypeNode,
    lengths: &[Expr],
) -> Result<Option<Typed>, AllocError>
    ensures made { IfOk result (λ r. option_map typing_of r ≡ (spec.fixed_array (around_of E.types scope.old) name.now mark_is.Hidden (map phrase_of lengths.now) (spec.written element.now)).node) }
    ensures noted { OnOk result (book.new ≡ book_after book.old (spec.fixed_array (around_of E.types scope.old) name.now mark_is.Hidden (map phrase_of lengths.now) (spec.written element.now)).notes) }
    ensures stays { OnOk result (around_of E.types scope.new ≡ around_of E.types scope.old) }
{
    let sizes = lengths_of(alloc, checker, &*scope, book, lengths)?;
    let inner = inner_name(alloc, name, lengths)?;
    let of = check_type(
        alloc,
        checker,
        scope,
        book,
        element,
        inner.as_bytes(),
        Mark::Hidden,
        false,
    )?;
    let all = arrays_of(alloc, &*scope, name, &sizes, of)?;
    Ok(all)
}

#[cycle(types)]
#[tactic(auto, using(ob_rules::proofs::BookLaws::after_none, ob_rules::proofs::BookLaws::after_joined, crate::proofs::ArrayLaws::fixed_first))]
fn fixed_array<E: Imports, C: CheckExpr>(
    alloc: Global,
    checker: &C,
    scope: &mut Scope<'_, E>,
    book: &mut Notebook,
    name: &[u8],
    mark: Mark,
    element: &TypeNode,
    first: &Expr,
    rest: &[Expr],
) -> Result<Option<Typed>, AllocError>
    ensures made { IfOk result (λ r. option_map typing_of r ≡ (spec.fixed_array (around_of E.types scope.old) name.now mark (phrase_of first.now ∷ map phrase_of rest.now) (spec.written element.now)).node) }
    ensures noted { OnOk result (book.new ≡ book_after book.old (spec.fixed_array (around_of E.types scope.old) name.now mark (phrase_of first.now ∷ map phrase_of rest.now) (spec.written element.now)).notes) }
    ensures stays { OnOk result (around_of E.types scope.new ≡ around_of E.types scope.old) }
{
    let length = array_length(alloc, checker, &*scope, book, first)?;
    let inner = element_name(alloc, name)?;
    let of = inner_arrays(alloc, checker, scope, book, inner.as_bytes(), element, rest)?;
    let array = array_of(alloc, &*scope, name, mark, length, of)?;
    Ok(array)
}

#[cycle(types)]
fn open_element<E: Imports, C: CheckExpr>(
    alloc: Global,
    checker: &C,
    scope: &mut Scope<'_, E>,
    book: &mut Notebook,
    name: &[u8],
    mark: Mark,
    element: &TypeNode,
) -> Result<Option<Typed>, AllocError>
    ensures made { IfOk result (λ r. option_map typing_of r ≡ (open_judged (around_of E.types scope.old) name.now mark (spec.written element.now)).node) }
    ensures noted { OnOk result (book.new ≡ book_after book.old (open_judged (around_of E.types scope.old) name.now mark (spec.written element.now)).notes) }
    ensures stays { OnOk result (around_of E.types scope.new ≡ around_of E.types scope.old) }
{
    let inner = element_name(alloc, name)?;
    let open_ok = is_open_array(element);
    match check_type(
        alloc,
        checker,
        scope,
        book,
        element,
        inner.as_bytes(),
        Mark::Hidden,
        open_ok,
    )? {
        None => Ok(None),
        Some(t) => {
            let Typed { of, made } = t;
            let array = typed_as(alloc, &*scope, name, Desc::OpenArray(mark, of), made)?;
            Ok(Some(array))
        }
    }
}

#[cycle(types)]
fn open_array<E: Imports, C: CheckExpr>(
    alloc: Global,
    checker: &C,
    scope: &mut Scope<'_, E>,
    book: &mut Notebook,
    name: &[u8],
    mark: Mark,
    at: Pos,
    open_ok: bool,
    element: &TypeNode,
) -> Result<Option<Typed>, AllocError>
    ensures made { IfOk result (λ r. option_map typing_of r ≡ (spec.open_array (around_of E.types scope.old) name.now mark at open_ok (spec.written element.now)).node) }
    ensures noted { OnOk result (book.new ≡ book_after book.old (spec.open_array (around_of E.types scope.old) name.now mark at open_ok (spec.written element.now)).notes) }
    ensures stays { OnOk result (around_of E.types scope.new ≡ around_of E.types scope.old) }
{
    if !open_ok || is_open_array(element) {
        book.breaks(Rule::MisplacedOpenArray, at);
        let _ = open_element(alloc, checker, scope, book, name, mark, element)?;
        return Ok(None);
    }
    open_element(alloc, checker, scope, book, name, mark, element)
}

#[cycle(types)]
fn pointed_type<E: Imports, C: CheckExpr>(
    alloc: Global,
    checker: &C,
    scope: &mut Scope<'_, E>,
    book: &mut Notebook,
    name: &[u8],
    base: &TypeNode,
) -> Result<Option<Typed>, AllocError>
    ensures made { IfOk result (λ r. option_map typing_of r ≡ ((spec.written base.now).typing (around_of E.types scope.old) (spec.base_name name.now) mark_is.Hidden true ▷ spec.pointer_base (around_of E.types scope.old) name.now (is_none (spec.written base.now).name) (spec.written base.now).start).node) }
    ensures noted { OnOk result (book.new ≡ book_after book.old ((spec.written base.now).typing (around_of E.types scope.old) (spec.base_name name.now) mark_is.Hidden true ▷ spec.pointer_base (around_of E.types scope.old) name.now (is_none (spec.written base.now).name) (spec.written base.now).start).notes) }
    ensures stays { OnOk result (around_of E.types scope.new ≡ around_of E.types scope.old) }
{
    let inner = base_name(alloc, name)?;
    let inline = name_of(base).is_none();
    match check_type(
        alloc,
        checker,
        scope,
        book,
        base,
        inner.as_bytes(),
        Mark::Hidden,
        true,
    )? {
        None => Ok(None),
        Some(t) => pointer_base(alloc, scope, book, name, inline, start_of(base), t),
    }
}

#[cycle(types)]
fn plain_pointer<E: Imports, C: CheckExpr>(
    alloc: Global,
    checker: &C,
    scope: &mut Scope<'_, E>,
    book: &mut Notebook,
    name: &[u8],
    mark: Mark,
    base: &TypeNode,
) -> Result<Option<Typed>, AllocError>
    ensures made { IfOk result (λ r. option_map typing_of r ≡ (spec.pointer_by (around_of E.types scope.old) name.now mark (spec.written base.now) None).node) }
    ensures noted { OnOk result (book.new ≡ book_after book.old (spec.pointer_by (around_of E.types scope.old) name.now mark (spec.written base.now) None).notes) }
    ensures stays { OnOk result (around_of E.types scope.new ≡ around_of E.types scope.old) }
{
    match pointed_type(alloc, checker, scope, book, name, base)? {
        None => Ok(None),
        Some(t) => {
            let pointer = pointer_to(alloc, &*scope, name, mark, t)?;
            Ok(Some(pointer))
        }
    }
}

#[cycle(types)]
fn pointer_type<E: Imports, C: CheckExpr>(
    alloc: Global,
    checker: &C,
    scope: &mut Scope<'_, E>,
    book: &mut Notebook,
    name: &[u8],
    mark: Mark,
    base: &TypeNode,
) -> Result<Option<Typed>, AllocError>
    ensures made { IfOk result (λ r. option_map typing_of r ≡ (spec.pointer (around_of E.types scope.old) name.now mark (spec.written base.now)).node) }
    ensures noted { OnOk result (book.new ≡ book_after book.old (spec.pointer (around_of E.types scope.old) name.now mark (spec.written base.now)).notes) }
    ensures stays { OnOk result (around_of E.types scope.new ≡ around_of E.types scope.old) }
{
    match later_type(&*scope, &name_of(base)) {
        None => plain_pointer(alloc, checker, scope, book, name, mark, base),
        Some(x) => {
            let pointer = later_pointer(alloc, &*scope, book, name, mark, &x)?;
            Ok(Some(pointer))
        }
    }
}

// The fields of one list.
#[cycle(types)]
#[tactic(auto, using(ob_rules::proofs::BookLaws::after_none, ob_rules::proofs::BookLaws::after_joined, crate::proofs::ListLaws::list_node, crate::proofs::ListLaws::list_notes))]
fn list_of_fields<E: Imports, C: CheckExpr>(
    alloc: Global,
    checker: &C,
    scope: &mut Scope<'_, E>,
    book: &mut Notebook,
    name: &[u8],
    base: &Option<Option<TypeRef>>,
    before: &mut Stack,
    list: &FieldList,
) -> Result<Option<Fields>, AllocError>
    ensures made { IfOk result (λ r. option_map fields_seen r ≡ (list_judged (around_of E.types scope.old) name.now base.now before.old (fields_as list.now)).node) }
    ensures noted { OnOk result (book.new ≡ book_after book.old (list_judged (around_of E.types scope.old) name.now base.now before.old (fields_as list.now)).notes) }
    ensures behind { OnOk result (before.new ≡ spec.names_behind (fields_as list.now).names before.old) }
    ensures stays { OnOk result (around_of E.types scope.new ≡ around_of E.types scope.old) }
{
    let names = list.names.as_slice();
    let inner = field_name(alloc, name, first_name(names))?;
    let typed = check_type(
        alloc,
        checker,
        scope,
        book,
        &list.node,
        inner.as_bytes(),
        Mark::Hidden,
        false,
    )?;
    let fields = fields_of(alloc, &*scope, book, base, before, names, &typed)?;
    Ok(fields_together(typed, fields))
}

// The fields of a record, in order.
#[cycle(types)]
fn all_fields<E: Imports, C: CheckExpr>(
    alloc: Global,
    checker: &C,
    scope: &mut Scope<'_, E>,
    book: &mut Notebook,
    name: &[u8],
    base: &Option<Option<TypeRef>>,
    lists: &[FieldList],
) -> Result<Option<Fields>, AllocError>
    ensures made { IfOk result (λ r. option_map fields_seen r ≡ (spec.field_lists (around_of E.types scope.old) name.now base.now [] (map written_fields lists.now)).node) }
    ensures noted { OnOk result (book.new ≡ book_after book.old (spec.field_lists (around_of E.types scope.old) name.now base.now [] (map written_fields lists.now)).notes) }
    ensures stays { OnOk result (around_of E.types scope.new ≡ around_of E.types scope.old) }
{
    let mut before = Stack::new(alloc);
    let mut all = Some(no_fields(alloc));
    'lists: for list in lists {
        let more = list_of_fields(alloc, checker, scope, book, name, base, &mut before, list)?;
        all = joined_fields(all, more)?;
    }
    Ok(all)
}

#[cycle(types)]
#[tactic(auto, using(ob_rules::proofs::BookLaws::after_none, ob_rules::proofs::BookLaws::after_joined, ob_cdecl_field::proofs::FieldLaws::record_node, ob_cdecl_field::proofs::FieldLaws::record_notes))]
fn record_type<E: Imports, C: CheckExpr>(
    alloc: Global,
    checker: &C,
    scope: &mut Scope<'_, E>,
    book: &mut Notebook,
    name: &[u8],
    mark: Mark,
    base: &Option<Qualident>,
    lists: &[FieldList],
) -> Result<Option<Typed>, AllocError>
    ensures made { IfOk result (λ r. option_map typing_of r ≡ (spec.record_with (around_of E.types scope.old) name.now mark (map written_fields lists.now) (spec.base_if (around_of E.types scope.old) base.now)).node) }
    ensures noted { OnOk result (book.new ≡ book_after book.old (spec.record_with (around_of E.types scope.old) name.now mark (map written_fields lists.now) (spec.base_if (around_of E.types scope.old) base.now)).notes) }
    ensures stays { OnOk result (around_of E.types scope.new ≡ around_of E.types scope.old) }
{
    let base = base_if(alloc, &*scope, book, base)?;
    let fields = all_fields(alloc, checker, scope, book, name, &base, lists)?;
    record_of(alloc, &*scope, name, mark, base, fields)
}

// A section of parameters, of which the first has that number.
#[cycle(types)]
fn section<E: Imports, C: CheckExpr>(
    alloc: Global,
    checker: &C,
    scope: &mut Scope<'_, E>,
    book: &mut Notebook,
    name: &[u8],
    number: usize,
    written: &Section,
) -> Result<Option<Parameters>, AllocError>
    ensures made { IfOk result (λ r. option_map parameters_of r ≡ section_made (around_of E.types scope.old) (spec.mode_of written.now.is_var) written.now.names (section_typing (around_of E.types scope.old) name.now number (section_as written.now)).node) }
    ensures noted { OnOk result (book.new ≡ book_after (book_after book.old (section_typing (around_of E.types scope.old) name.now number (section_as written.now)).notes) (spec.declare_all (around_of E.types scope.old) (spec.mode_of written.now.is_var) (section_typing (around_of E.types scope.old) name.now number (section_as written.now)).node written.now.names).notes) }
    ensures known { OnOk result (around_of E.types scope.new ≡ behind_section (around_of E.types scope.old) name.now number (section_as written.now)) }
{
    let inner = section_name(alloc, name, number)?;
    let typed = check_type(
        alloc,
        checker,
        scope,
        book,
        &written.node,
        inner.as_bytes(),
        Mark::Hidden,
        true,
    )?;
    section_known(
        alloc,
        scope,
        book,
        mode_of(written.is_var),
        written.names.as_slice(),
        typed,
    )
}

// Sections of parameters, in order. The types that they make are around for those behind them, and
// no longer.
#[cycle(types)]
fn all_sections<E: Imports, C: CheckExpr>(
    alloc: Global,
    checker: &C,
    scope: &mut Scope<'_, E>,
    book: &mut Notebook,
    name: &[u8],
    sections: &[Section],
) -> Result<Option<Parameters>, AllocError>
    ensures made { IfOk result (λ r. option_map parameters_of r ≡ (spec.sections (around_of E.types scope.old) name.now 1 (map written_section sections.now)).found.node) }
    ensures noted { OnOk result (book.new ≡ book_after book.old (spec.sections (around_of E.types scope.old) name.now 1 (map written_section sections.now)).found.notes) }
    ensures known { OnOk result (around_of E.types scope.new ≡ record (around_of E.types scope.old) { known = (spec.sections (around_of E.types scope.old) name.now 1 (map written_section sections.now)).known }) }
{
    let mark = scope.mark();
    let mut all = Some(no_parameters(alloc));
    let mut number = 1;
    'sections: for written in sections {
        let more = section(alloc, checker, scope, book, name, number, written)?;
        all = joined_parameters(all, more)?;
        number = number_behind(number, written.names.len())?;
    }
    scope.cut_types(mark);
    Ok(all)
}

#[cycle(types)]
#[tactic(auto, using(ob_rules::proofs::BookLaws::after_none, ob_rules::proofs::BookLaws::after_joined, crate::proofs::HeadingLaws::procedure_node, crate::proofs::HeadingLaws::procedure_notes))]
fn procedure_type<E: Imports, C: CheckExpr>(
    alloc: Global,
    checker: &C,
    scope: &mut Scope<'_, E>,
    book: &mut Notebook,
    name: &[u8],
    mark: Mark,
    written: &FormalPars,
) -> Result<Option<Typed>, AllocError>
    ensures made { IfOk result (λ r. option_map typing_of r ≡ (spec.procedure_type (around_of E.types scope.old) name.now mark (spec.written_parameters written.now)).node) }
    ensures noted { OnOk result (book.new ≡ book_after book.old (spec.procedure_type (around_of E.types scope.old) name.now mark (spec.written_parameters written.now)).notes) }
    ensures stays { OnOk result (around_of E.types scope.new ≡ around_of E.types scope.old) }
{
    let outer = scope.mark();
    scope.enter()?;
    let parameters = check_parameters(alloc, checker, scope, book, written, name)?;
    scope.leave(outer);
    procedure_of(alloc, &*scope, name, mark, parameters)
}

/// The parameters of a heading or of a procedure type of that name, in the innermost scope. None
/// where they break a rule, or a declaration that they name does. What is broken, and what they
/// name, is noted in the book; from here on they are known.
#[cycle(types)]
#[tactic(auto, using(ob_rules::proofs::BookLaws::after_none, ob_rules::proofs::BookLaws::after_joined, crate::proofs::HeadingLaws::heading_node, crate::proofs::HeadingLaws::heading_notes, crate::proofs::HeadingLaws::heading_known))]
pub fn check_parameters<E: Imports, C: CheckExpr>(
    alloc: Global,
    checker: &C,
    scope: &mut Scope<'_, E>,
    book: &mut Notebook,
    written: &FormalPars,
    name: &[u8],
) -> Result<Option<Parameters>, AllocError>
    ensures made { IfOk result (λ r. option_map parameters_of r ≡ (spec.parameters_in (around_of E.types scope.old) name.now (spec.written_parameters written.now)).found.node) }
    ensures noted { OnOk result (book.new ≡ book_after book.old (spec.parameters_in (around_of E.types scope.old) name.now (spec.written_parameters written.now)).found.notes) }
    ensures known { OnOk result (around_of E.types scope.new ≡ record (around_of E.types scope.old) { known = (spec.parameters_in (around_of E.types scope.old) name.now (spec.written_parameters written.now)).known }) }
{
    let all = all_sections(
        alloc,
        checker,
        scope,
        book,
        name,
        written.sections.as_slice(),
    )?;
    let result_type = result_of(alloc, &*scope, book, &written.result_type)?;
    Ok(with_result(all, result_type))
}
