//! The fields of records, where their types are judged.

#![tactic(auto, using(ob_rules::proofs::BookLaws::after_none, ob_rules::proofs::BookLaws::after_joined))]

ghost use Rattle.std.specs.Prelude.{◌≡◌, ◌∷◌, [], ◌++◌, IfOk, OnOk, Option as Maybe, List as Listed, Some, None, is_some};
ghost use Rattle.std.specs.Option.{option_map};
ghost use Rattle.ob_types.specs.declared.desc.Field.{Field as AField};
ghost use Rattle.ob_cdecl_scopes.specs.Scopes.{around_of};
ghost use Rattle.ob_rules.specs.Books.{book_after};
ghost use Rattle.ob_rules.specs.Judged.{Judged, ◌▷◌, each_sound, judge_later};
ghost use Rattle.ob_rules.specs.Names.{map_of};
ghost use Rattle.ob_rules.specs.Types as spec;
ghost use Rattle.ob_cdecl_field.specs.Makes.{typing_of};
ghost use Rattle.ob_cdecl_field.specs.FieldMakes.{fields_in, fields_made, finish, one_more, join_fields, field_marked, fields_seen, record_made};

use crate::made::{Typed, typed_as};
use crate::marks::check_mark;
use ob_cdecl_scopes::{Imports, Scope, Stack};
use ob_cexpr_name::{find_member, record_of as record_named};
use ob_rules::{Later, Notebook, Rule, Surroundings};
use ob_tree::{CompactName, IdentDef, List, Mark, Name, ObjName, QName};
use ob_types::{Desc, Field, RecordDesc, TypeRef, TypedType};
use ob_types_trees::copy_type;
use std::alloc::{AllocError, Global};

/// Fields, and the types that they make.
#[derive(Drop)]
pub struct Fields {
    pub fields: List<Field>,
    pub made: List<TypedType>,
}

fn is_inherited<E: Imports>(
    alloc: Global,
    scope: &Scope<'_, E>,
    base: &Option<Option<TypeRef>>,
    name: &Name,
) -> Result<bool, AllocError>
    ensures { IfOk result (λ r. r ≡ is_some (spec.member_in (map_of (around_of E.types scope.now)) (spec.record_in (map_of (around_of E.types scope.now)) base.now) name.now)) }
{
    match base {
        Some(Some(t)) => match record_named(scope, t) {
            None => Ok(false),
            Some(owner) => match find_member(alloc, scope, owner, name)? {
                None => Ok(false),
                Some(_) => Ok(true),
            },
        },
        Some(None) | None => Ok(false),
    }
}

// A field of a record with a base is judged again when all bound procedures are known.
fn note_base(
    book: &mut Notebook,
    base: &Option<Option<TypeRef>>,
    d: &IdentDef,
) -> Result<(), AllocError>
    ensures { OnOk result ((j : Judged AField) → book_after book.new j.notes ≡ book_after book.old (judge_later (spec.inherits base.now d.now.ident) j).notes) }
{
    match base {
        Some(Some(t)) => {
            let base = copy_type(t)?;
            book.judge_later(Later::Inherits {
                field: d.ident,
                base,
            })
        }
        Some(None) | None => Ok(()),
    }
}

// Rules 6 and 1 of a field.
fn field_of<E: Imports>(
    alloc: Global,
    scope: &Scope<'_, E>,
    book: &mut Notebook,
    base: &Option<Option<TypeRef>>,
    before: &Stack,
    d: &IdentDef,
    of: TypeRef,
) -> Result<Option<Field>, AllocError>
    ensures made { IfOk result (λ r. r ≡ (field_marked (around_of E.types scope.now) base.now before.now d.now of).node) }
    ensures noted { OnOk result (book.new ≡ book_after book.old (field_marked (around_of E.types scope.now) base.now before.now d.now of).notes) }
{
    match check_mark(scope, book, true, d) {
        None => Ok(None),
        Some(mark) => {
            let inherited = is_inherited(alloc, scope, base, &d.ident.name)?;
            let twice = before.has(d.ident.name.as_bytes()) || inherited;
            Ok(book.unless(
                twice,
                Rule::DeclaredTwice,
                d.ident.pos,
                Field {
                    name: d.ident.name,
                    mark,
                    place: 0,
                    of,
                },
            ))
        }
    }
}

fn field_declared<E: Imports>(
    alloc: Global,
    scope: &Scope<'_, E>,
    book: &mut Notebook,
    base: &Option<Option<TypeRef>>,
    before: &Stack,
    d: &IdentDef,
    of: TypeRef,
) -> Result<Option<Field>, AllocError>
    ensures made { IfOk result (λ r. r ≡ (spec.field_declared (around_of E.types scope.now) base.now before.now d.now of).node) }
    ensures noted { OnOk result (book.new ≡ book_after book.old (spec.field_declared (around_of E.types scope.now) base.now before.now d.now of).notes) }
{
    note_base(book, base, d)?;
    let field = field_of(alloc, scope, book, base, before, d, of)?;
    Ok(field)
}

fn field_if<E: Imports>(
    alloc: Global,
    scope: &Scope<'_, E>,
    book: &mut Notebook,
    base: &Option<Option<TypeRef>>,
    before: &Stack,
    d: &IdentDef,
    typed: &Option<Typed>,
) -> Result<Option<Field>, AllocError>
    ensures made { IfOk result (λ r. r ≡ (spec.field_if (around_of E.types scope.now) base.now before.now d.now (option_map typing_of typed.now)).node) }
    ensures noted { OnOk result (book.new ≡ book_after book.old (spec.field_if (around_of E.types scope.now) base.now before.now d.now (option_map typing_of typed.now)).notes) }
{
    match typed {
        Some(t) => {
            let of = copy_type(&t.of)?;
            field_declared(alloc, scope, book, base, before, d, of)
        }
        None => {
            let object = ObjName::new(alloc, b"".as_slice())?;
            let of = TypeRef::Named(QName {
                module: CompactName::of(alloc, &scope.unit())?,
                object,
            });
            let _ = field_declared(alloc, scope, book, base, before, d, of)?;
            Ok(None)
        }
    }
}

// Adds a field, where all so far are sound.
fn collect(sound: bool, fields: &mut List<Field>, field: Option<Field>) -> Result<bool, AllocError>
    ensures { IfOk result (λ r. (rest : Maybe (Listed AField)) → finish r fields.new rest ≡ finish sound fields.old (one_more field rest)) }
{
    match field {
        None => Ok(false),
        Some(field) => {
            fields.push(field)?;
            Ok(sound)
        }
    }
}

/// Fields of one type, in order. Their names stand behind those before.
pub fn fields_of<E: Imports>(
    alloc: Global,
    scope: &Scope<'_, E>,
    book: &mut Notebook,
    base: &Option<Option<TypeRef>>,
    before: &mut Stack,
    names: &[IdentDef],
    typed: &Option<Typed>,
) -> Result<Option<List<Field>>, AllocError>
    ensures made { IfOk result (λ r. r ≡ (fields_in (around_of E.types scope.now) base.now before.old names.now (option_map typing_of typed.now)).node) }
    ensures noted { OnOk result (book.new ≡ book_after book.old (fields_in (around_of E.types scope.now) base.now before.old names.now (option_map typing_of typed.now)).notes) }
    ensures behind { OnOk result (before.new ≡ spec.names_behind names.now before.old) }
{
    let mut fields = List::new(alloc);
    let mut sound = true;
    'fields: for d in names {
        let field = field_if(alloc, scope, book, base, &*before, d, typed)?;
        sound = collect(sound, &mut fields, field)?;
        before.push(alloc, d.ident.name.as_bytes())?;
    }
    if sound { Ok(Some(fields)) } else { Ok(None) }
}

/// The name of the first of the fields.
pub fn first_name(names: &[IdentDef]) -> &[u8]
    ensures { result.now ≡ spec.first_name names.now }
{
    match names {
        [] => b"".as_slice(),
        [d, ..] => d.ident.name.as_bytes(),
    }
}

/// Fields with the types that they make.
pub fn fields_together(typed: Option<Typed>, fields: Option<List<Field>>) -> Option<Fields>
    ensures { option_map fields_seen result ≡ fields_made (option_map typing_of typed) fields }
{
    match typed {
        None => None,
        Some(t) => match fields {
            None => None,
            Some(fields) => {
                let Typed { of: _, made } = t;
                Some(Fields { fields, made })
            }
        },
    }
}

/// No fields. Takes no memory.
pub fn no_fields(alloc: Global) -> Fields
    ensures { fields_seen result ≡ record { fields = []; made = [] } }
{
    Fields {
        fields: List::new(alloc),
        made: List::new(alloc),
    }
}

/// Fields, and more fields behind them.
pub fn joined_fields(
    all: Option<Fields>,
    more: Option<Fields>,
) -> Result<Option<Fields>, AllocError>
    ensures { IfOk result (λ r. option_map fields_seen r ≡ join_fields (option_map fields_seen all) (option_map fields_seen more)) }
{
    match all {
        None => Ok(None),
        Some(first) => match more {
            None => Ok(None),
            Some(second) => {
                let Fields { fields, made } = first;
                let mut all_fields = fields;
                let mut all_made = made;
                let Fields {
                    fields: more_fields,
                    made: more_made,
                } = second;
                all_fields.append(more_fields)?;
                all_made.append(more_made)?;
                Ok(Some(Fields {
                    fields: all_fields,
                    made: all_made,
                }))
            }
        },
    }
}

/// The record type of that name and mark, where its base and its fields are judged.
pub fn record_of<E: Imports>(
    alloc: Global,
    scope: &Scope<'_, E>,
    name: &[u8],
    mark: Mark,
    base: Option<Option<TypeRef>>,
    fields: Option<Fields>,
) -> Result<Option<Typed>, AllocError>
    ensures { IfOk result (λ r. option_map typing_of r ≡ record_made (around_of E.types scope.now) name.now mark base (option_map fields_seen fields)) }
{
    match base {
        None => Ok(None),
        Some(base) => match fields {
            None => Ok(None),
            Some(found) => {
                let Fields { fields, made } = found;
                let desc = Desc::Record(RecordDesc {
                    mark,
                    base,
                    fields,
                    methods: List::new(alloc),
                    words: 0,
                    procedures: 0,
                });
                let record = typed_as(alloc, scope, name, desc, made)?;
                Ok(Some(record))
            }
        },
    }
}
