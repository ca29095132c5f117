//! A description written as its two texts, shape and layout.

ghost use Rattle.std.specs.Prelude.{◌≡◌, ◌++◌, ◌∷◌, ◌<◌, Some, OnOk, IfOk, IsSome, decimal, codes};
ghost use Rattle.std.specs.List.{flat_map, filter};
ghost use Rattle.std.specs.Fmt.{signed_decimal};
ghost use Rattle.ob_format.specs.Format.{Adds};
ghost use Rattle.ob_desc.specs.Grammar.{dotted, basic_name, type_print, base_print, param, params_print, signature, mark_name, is_shown, truth_name, const_name, int_kind, hex_digit, hex_print, set_word, quoted, value_print, field, method, receiver_name, const_text, marked_text, array_text, proc_text, proctype_text, record_text, layout, shape_text, layout_text, seen, text_of};

use crate::kind::ConstKind;
use ob_format::{put_bytes, put_number, put_signed, put_word};
use ob_tree::{Name, ObjName, QName, Text};
use ob_types::{
    Aspect, Basic, Desc, Field, Mark, Method, Mode, Receiver, RecordDesc, Signature, TypeRef, Value,
};
use std::alloc::{AllocError, Global};

fn put_dotted(out: &mut Vec<u8>, module: &[u8], object: &ObjName) -> Result<(), AllocError>
    ensures { OnOk result (Adds out.old.items out.new.items («module».now ++ 46 ∷ object.now)) }
{
    out.extend_from_slice(module)?;
    out.push(b'.')?;
    out.extend_from_slice(object.as_bytes())?;
    Ok(())
}

fn basic_name_of(basic: Basic) -> &'static [u8]
    ensures { result.now ≡ basic_name basic }
{
    match basic {
        Basic::Boolean => b"BOOLEAN",
        Basic::Char => b"CHAR",
        Basic::ShortInt => b"SHORTINT",
        Basic::Integer => b"INTEGER",
        Basic::LongInt => b"LONGINT",
        Basic::Set => b"SET",
    }
}

fn put_type(out: &mut Vec<u8>, of: &TypeRef) -> Result<(), AllocError>
    ensures { OnOk result (Adds out.old.items out.new.items (type_print of.now)) }
{
    match of {
        TypeRef::Basic(basic) => put_bytes(out, basic_name_of(*basic)),
        TypeRef::Named(name) => put_dotted(out, name.module.as_bytes(), &name.object),
    }
}

fn put_base(out: &mut Vec<u8>, base: &Option<TypeRef>) -> Result<(), AllocError>
    ensures { OnOk result (Adds out.old.items out.new.items (base_print base.now)) }
{
    match base {
        None => put_bytes(out, b"NONE"),
        Some(of) => put_type(out, of),
    }
}

fn put_param(out: &mut Vec<u8>, p: &(Mode, TypeRef)) -> Result<(), AllocError>
    ensures { OnOk result (Adds out.old.items out.new.items (param.print p.now)) }
{
    match p.0 {
        Mode::Value => out.push(b'=')?,
        Mode::Var => out.push(b'&')?,
    }
    put_type(out, &p.1)
}

fn put_params(out: &mut Vec<u8>, params: &[(Mode, TypeRef)]) -> Result<(), AllocError>
    ensures { OnOk result (Adds out.old.items out.new.items (params_print params.now)) }
{
    let Some((first, others)) = params.split_first() else {
        return Ok(());
    };
    put_param(out, first)?;
    for p in others {
        out.push(b',')?;
        put_param(out, p)?;
    }
    Ok(())
}

fn put_signature(out: &mut Vec<u8>, s: &Signature) -> Result<(), AllocError>
    ensures { OnOk result (Adds out.old.items out.new.items (signature.print s.now)) }
{
    out.push(b'(')?;
    put_params(out, s.params.as_slice())?;
    out.push(b')')?;
    put_base(out, &s.result)
}

fn put_spaced(out: &mut Vec<u8>, module: &Name, object: &ObjName) -> Result<(), AllocError>
    ensures { OnOk result (Adds out.old.items out.new.items (32 ∷ («module».now ++ 46 ∷ object.now))) }
{
    out.push(b' ')?;
    put_dotted(out, module.as_bytes(), object)
}

fn put_mark(out: &mut Vec<u8>, mark: Mark) -> Result<(), AllocError>
    ensures { OnOk result (Adds out.old.items out.new.items (32 ∷ mark_name mark)) }
{
    put_word(
        out,
        match mark {
            Mark::Full => b"*",
            Mark::ReadOnly => b"-",
            Mark::Hidden => b".",
        },
    )
}

fn put_last_type(out: &mut Vec<u8>, of: &TypeRef) -> Result<(), AllocError>
    ensures { OnOk result (Adds out.old.items out.new.items (32 ∷ type_print of.now)) }
{
    out.push(b' ')?;
    put_type(out, of)
}

fn put_last_signature(out: &mut Vec<u8>, s: &Signature) -> Result<(), AllocError>
    ensures { OnOk result (Adds out.old.items out.new.items (32 ∷ signature.print s.now)) }
{
    out.push(b' ')?;
    put_signature(out, s)
}

pub fn int_kind_of(value: i32) -> ConstKind
    ensures { result ≡ int_kind value }
{
    if -128 <= value && value < 128 {
        ConstKind::ShortInt
    } else if -32768 <= value && value < 32768 {
        ConstKind::Integer
    } else {
        ConstKind::LongInt
    }
}

pub fn const_name_of(kind: ConstKind) -> &'static [u8]
    ensures { result.now ≡ const_name kind }
{
    match kind {
        ConstKind::Boolean => b"BOOLEAN",
        ConstKind::Char => b"CHAR",
        ConstKind::ShortInt => b"SHORTINT",
        ConstKind::Integer => b"INTEGER",
        ConstKind::LongInt => b"LONGINT",
        ConstKind::Set => b"SET",
        ConstKind::String => b"STRING",
    }
}

fn hex_digit_of(value: u8) -> u8
    requires { value < 16 }
    ensures { result ≡ hex_digit value }
{
    if value < 10 { value + 48 } else { value + 55 }
}

fn put_hex(out: &mut Vec<u8>, text: &[u8]) -> Result<(), AllocError>
    ensures { OnOk result (Adds out.old.items out.new.items (hex_print text.now)) }
{
    for c in text {
        out.push(hex_digit_of(*c / 16))?;
        out.push(hex_digit_of(*c % 16))?;
    }
    Ok(())
}

fn put_quoted(out: &mut Vec<u8>, text: &[u8]) -> Result<(), AllocError>
    ensures { OnOk result (Adds out.old.items out.new.items (32 ∷ quoted.print text.now)) }
{
    out.extend_from_slice(b" \"")?;
    put_hex(out, text)?;
    out.push(b'"')?;
    Ok(())
}

fn put_value(out: &mut Vec<u8>, value: &Value) -> Result<(), AllocError>
    ensures { OnOk result (Adds out.old.items out.new.items (value_print value.now)) }
{
    match value {
        Value::Bool(holds) => {
            put_bytes(out, b"BOOLEAN")?;
            put_word(out, if *holds { b"1" } else { b"0" })
        }
        Value::Char(code) => {
            put_bytes(out, b"CHAR")?;
            put_number(out, *code as u32)
        }
        Value::Int(number) => {
            put_bytes(out, const_name_of(int_kind_of(*number)))?;
            put_signed(out, *number)
        }
        Value::Set(word) => {
            put_bytes(out, b"SET")?;
            put_signed(out, word.cast_signed())
        }
        Value::Str(text) => {
            put_bytes(out, b"STRING")?;
            put_quoted(out, text.as_slice())
        }
        Value::Nil => Ok(()),
    }
}

#[tactic(auto, unfolding(crate::specs::Grammar::field), using(ob_format::specs::Exact::then_adds))]
fn put_field(out: &mut Vec<u8>, f: &Field) -> Result<(), AllocError>
    ensures { OnOk result (Adds out.old.items out.new.items (field.spell f.now)) }
{
    put_bytes(out, b" f")?;
    put_word(out, f.name.as_bytes())?;
    put_mark(out, f.mark)?;
    put_number(out, f.place)?;
    put_last_type(out, &f.of)
}

fn shows(mark: Mark) -> bool
    ensures { result ≡ is_shown mark }
{
    match mark {
        Mark::Full => true,
        Mark::ReadOnly => true,
        Mark::Hidden => false,
    }
}

// The fields that other modules see.
fn put_fields(out: &mut Vec<u8>, fields: &[Field]) -> Result<(), AllocError>
    ensures { OnOk result (Adds out.old.items out.new.items (flat_map field.spell (filter (λ f. is_shown f.mark) fields.now))) }
{
    let mut rest = fields;
    while let [first, more @ ..] = rest {
        if shows(first.mark) {
            put_field(out, first)?;
        }
        rest = more;
    }
    Ok(())
}

fn put_receiver(out: &mut Vec<u8>, receiver: Receiver) -> Result<(), AllocError>
    ensures { OnOk result (Adds out.old.items out.new.items (32 ∷ receiver_name receiver)) }
{
    put_word(
        out,
        match receiver {
            Receiver::Record => b"v",
            Receiver::Pointer => b"p",
        },
    )
}

#[tactic(auto, unfolding(crate::specs::Grammar::method), using(ob_format::specs::Exact::then_adds))]
fn put_method(out: &mut Vec<u8>, m: &Method) -> Result<(), AllocError>
    ensures { OnOk result (Adds out.old.items out.new.items (method.spell m.now)) }
{
    put_bytes(out, b" p")?;
    put_word(out, m.name.as_bytes())?;
    put_number(out, m.number)?;
    put_receiver(out, m.receiver)?;
    put_last_signature(out, &m.signature)
}

// The bound procedures that other modules see.
fn put_methods(out: &mut Vec<u8>, methods: &[Method]) -> Result<(), AllocError>
    ensures { OnOk result (Adds out.old.items out.new.items (flat_map method.spell (filter (λ m. is_shown m.mark) methods.now))) }
{
    let mut rest = methods;
    while let [first, more @ ..] = rest {
        if shows(first.mark) {
            put_method(out, first)?;
        }
        rest = more;
    }
    Ok(())
}

fn put_last_value(out: &mut Vec<u8>, value: &Value) -> Result<(), AllocError>
    ensures { OnOk result (Adds out.old.items out.new.items (32 ∷ value_print value.now)) }
{
    out.push(b' ')?;
    put_value(out, value)
}

fn put_head(out: &mut Vec<u8>, module: &Name, name: &ObjName, mark: Mark) -> Result<(), AllocError>
    ensures { OnOk result (Adds out.old.items out.new.items ((32 ∷ («module».now ++ 46 ∷ name.now)) ++ (32 ∷ mark_name mark))) }
{
    put_spaced(out, module, name)?;
    put_mark(out, mark)
}

#[tactic(auto, using(ob_format::specs::Exact::then_adds))]
fn put_marked(
    out: &mut Vec<u8>,
    module: &Name,
    name: &ObjName,
    mark: Mark,
    of: &TypeRef,
) -> Result<(), AllocError>
    ensures { OnOk result (Adds out.old.items out.new.items (marked_text.print ((record { «module» = «module».now; object = name.now }, mark), of.now))) }
{
    put_head(out, module, name, mark)?;
    put_last_type(out, of)
}

#[tactic(auto, using(ob_format::specs::Exact::then_adds))]
fn put_array(
    out: &mut Vec<u8>,
    module: &Name,
    name: &ObjName,
    mark: Mark,
    len: u32,
    of: &TypeRef,
) -> Result<(), AllocError>
    ensures { OnOk result (Adds out.old.items out.new.items (array_text.print ((record { «module» = «module».now; object = name.now }, (mark, len)), of.now))) }
{
    put_spaced(out, module, name)?;
    put_mark(out, mark)?;
    put_number(out, len)?;
    put_last_type(out, of)
}

#[tactic(auto, using(ob_format::specs::Exact::then_adds))]
fn put_proc(
    out: &mut Vec<u8>,
    module: &Name,
    name: &ObjName,
    signature: &Signature,
) -> Result<(), AllocError>
    ensures { OnOk result (Adds out.old.items out.new.items (proc_text.print (record { «module» = «module».now; object = name.now }, signature.now))) }
{
    put_spaced(out, module, name)?;
    put_last_signature(out, signature)
}

#[tactic(auto, using(ob_format::specs::Exact::then_adds))]
fn put_proctype(
    out: &mut Vec<u8>,
    module: &Name,
    name: &ObjName,
    mark: Mark,
    signature: &Signature,
) -> Result<(), AllocError>
    ensures { OnOk result (Adds out.old.items out.new.items (proctype_text.print ((record { «module» = «module».now; object = name.now }, mark), signature.now))) }
{
    put_head(out, module, name, mark)?;
    put_last_signature(out, signature)
}

#[tactic(auto, using(ob_format::specs::Exact::then_adds))]
fn put_const(
    out: &mut Vec<u8>,
    module: &Name,
    name: &ObjName,
    value: &Value,
) -> Result<(), AllocError>
    ensures { OnOk result (Adds out.old.items out.new.items (const_text.print (record { «module» = «module».now; object = name.now }, value.now))) }
{
    put_spaced(out, module, name)?;
    put_last_value(out, value)
}

fn put_last_base(out: &mut Vec<u8>, base: &Option<TypeRef>) -> Result<(), AllocError>
    ensures { OnOk result (Adds out.old.items out.new.items (32 ∷ base_print base.now)) }
{
    out.push(b' ')?;
    put_base(out, base)
}

// A record as other modules see it.
#[tactic(auto, using(ob_format::specs::Exact::then_adds))]
fn put_record(
    out: &mut Vec<u8>,
    module: &Name,
    name: &ObjName,
    r: &RecordDesc,
) -> Result<(), AllocError>
    ensures { OnOk result (Adds out.old.items out.new.items (record_text.print ((record { «module» = «module».now; object = name.now }, (r.now.mark, r.now.base)), (filter (λ f. is_shown f.mark) r.now.fields, filter (λ m. is_shown m.mark) r.now.methods)))) }
{
    put_spaced(out, module, name)?;
    put_mark(out, r.mark)?;
    put_last_base(out, &r.base)?;
    put_fields(out, r.fields.as_slice())?;
    put_methods(out, r.methods.as_slice())
}

#[tactic(auto, using(ob_format::specs::Exact::then_adds))]
fn put_shape(
    out: &mut Vec<u8>,
    module: &Name,
    name: &ObjName,
    desc: &Desc,
) -> Result<(), AllocError>
    ensures { OnOk result (Adds out.old.items out.new.items (shape_text (record { «module» = «module».now; object = name.now }) (seen desc.now))) }
{
    match desc {
        Desc::Const(value) => {
            put_bytes(out, b"const")?;
            put_const(out, module, name, value)
        }
        Desc::Var(mark, of) => {
            put_bytes(out, b"var")?;
            put_marked(out, module, name, *mark, of)
        }
        Desc::Proc(signature) => {
            put_bytes(out, b"proc")?;
            put_proc(out, module, name, signature)
        }
        Desc::Alias(mark, of) => {
            put_bytes(out, b"alias")?;
            put_marked(out, module, name, *mark, of)
        }
        Desc::Array(mark, len, of) => {
            put_bytes(out, b"array")?;
            put_array(out, module, name, *mark, *len, of)
        }
        Desc::OpenArray(mark, of) => {
            put_bytes(out, b"open")?;
            put_marked(out, module, name, *mark, of)
        }
        Desc::Pointer(mark, of) => {
            put_bytes(out, b"pointer")?;
            put_marked(out, module, name, *mark, of)
        }
        Desc::ProcType(mark, signature) => {
            put_bytes(out, b"proctype")?;
            put_proctype(out, module, name, *mark, signature)
        }
        Desc::Record(record) => {
            put_bytes(out, b"record")?;
            put_record(out, module, name, record)
        }
    }
}

#[tactic(auto, using(ob_format::specs::Exact::then_adds))]
fn put_layout(
    out: &mut Vec<u8>,
    module: &Name,
    name: &ObjName,
    words: u32,
    procedures: u32,
) -> Result<(), AllocError>
    ensures { OnOk result (Adds out.old.items out.new.items (layout.print ((record { «module» = «module».now; object = name.now }, words), procedures))) }
{
    put_bytes(out, b"layout")?;
    put_spaced(out, module, name)?;
    put_number(out, words)?;
    put_number(out, procedures)
}

/// The text of one aspect of a description: the shape text, without a record's `Hidden` fields and
/// bound procedures, or the layout text of a record.
///
/// Where what the text shows of the description can be spelled (`IsSpelled`), this is the one
/// text of it that `read_desc` reads. An error is want of memory alone.
pub fn write_desc(
    alloc: Global,
    module: &Name,
    name: &ObjName,
    desc: &Desc,
    aspect: Aspect,
) -> Result<Text, AllocError>
    // Only a record has a layout.
    requires { IsSome (text_of (record { «module» = «module».now; object = name.now }) desc.now aspect) }
    ensures { IfOk result (λ text. text_of (record { «module» = «module».now; object = name.now }) desc.now aspect ≡ Some text) }
{
    let mut out = Vec::new(alloc);
    match aspect {
        Aspect::Shape => put_shape(&mut out, module, name, desc)?,
        Aspect::Layout => {
            if let Desc::Record(record) = desc {
                put_layout(&mut out, module, name, record.words, record.procedures)?;
            }
        }
    }
    Text::from_slice(alloc, &out)
}
