//! The conditions under which an object fits, one by one.

ghost use Rattle.std.specs.Prelude.{◌≡◌, ◌||◌, ◌&&◌, not, nat_le};
ghost use Rattle.std.specs.Option.{option_copied};
ghost use Rattle.std.specs.List.{list_all};
ghost use Rattle.ob_types.specs.Maps.{is_type};
ghost use Rattle.ob_types.specs.declared.types.TypeRef.TheVariants as ref;
ghost use Rattle.ob_layout.specs.Words.{words_of, most_words};
ghost use Rattle.ob_env.specs.Mapped.{map_of};
ghost use Rattle.ob_env.specs.Fit as fit;

use crate::targets::{base_record, is_open_for, is_record_for, is_structure_for};
use ob_env::Env;
use ob_env_ranks::{Test, all_named};
use ob_layout::{counted_words, counted_words_of_name};
use ob_tree::QName;
use ob_types::{Desc, Field, Method, RecordDesc, Signature, TypeRef, Types};

/// The most words of a type, and the most procedures of a record.
const MOST: u32 = 1_048_576;

/// Whether a description is one of a type.
pub fn describes_type(desc: &Desc) -> bool
    ensures { result ≡ is_type desc.now }
{
    !matches!(desc, Desc::Const(_) | Desc::Var(_, _) | Desc::Proc(_))
}

// Whether a type is held.
#[derive(Drop)]
struct HeldTest<'a> {
    env: &'a Env,
    steps: usize,
}

impl Test for HeldTest<'_> {
    ghost passes = { λ p t. fit.is_held (map_of p.env.now) p.steps t };

    fn test(&self, t: &TypeRef) -> bool {
        match t {
            TypeRef::Basic(_) => true,
            TypeRef::Named(name) => match self.env.desc_of(name) {
                None => false,
                Some(desc) => describes_type(desc),
            },
        }
    }
}

/// Each type that is named is held.
pub fn names_types(env: &Env, steps: usize, desc: &Desc) -> bool
    ensures { result ≡ fit.names_types (map_of env.now) steps desc.now }
{
    all_named(&HeldTest { env, steps }, desc)
}

/// A base is a record, and a pointer's base a record or array.
pub fn has_bases(env: &Env, steps: usize, desc: &Desc) -> bool
    ensures { result ≡ fit.has_bases (map_of env.now) steps desc.now }
{
    match desc {
        Desc::Record(record) => match &record.base {
            None => true,
            Some(base) => is_record_for(env, steps, base),
        },
        Desc::Pointer(_, of) => is_structure_for(env, steps, of),
        _ => true,
    }
}

fn has_plain_result(env: &Env, steps: usize, signature: &Signature) -> bool
    ensures { result ≡ fit.has_plain_result (map_of env.now) steps signature.now }
{
    match &signature.result {
        None => true,
        Some(of) => !is_structure_for(env, steps, of),
    }
}

fn no_open_fields(env: &Env, steps: usize, fields: &[Field]) -> bool
    ensures { result ≡ list_all (fit.is_closed_field (map_of env.now) steps) fields.now }
{
    let mut rest = fields;
    while let [first, more @ ..] = rest {
        if is_open_for(env, steps, &first.of) {
            return false;
        }
        rest = more;
    }
    true
}

fn plain_methods(env: &Env, steps: usize, methods: &[Method]) -> bool
    ensures { result ≡ list_all (fit.is_plain_method (map_of env.now) steps) methods.now }
{
    let mut rest = methods;
    while let [first, more @ ..] = rest {
        if !has_plain_result(env, steps, &first.signature) {
            return false;
        }
        rest = more;
    }
    true
}

/// Open arrays and results stand where they may.
pub fn keeps_places(env: &Env, steps: usize, desc: &Desc) -> bool
    ensures { result ≡ fit.keeps_places (map_of env.now) steps desc.now }
{
    match desc {
        Desc::Const(_) => true,
        Desc::Var(_, of) => !is_open_for(env, steps, of),
        Desc::Proc(signature) => has_plain_result(env, steps, signature),
        Desc::Alias(_, of) => !is_open_for(env, steps, of),
        Desc::Array(_, _, of) => !is_open_for(env, steps, of),
        Desc::OpenArray(_, of) => !is_open_for(env, steps, of),
        Desc::Pointer(_, _) => true,
        Desc::ProcType(_, signature) => has_plain_result(env, steps, signature),
        Desc::Record(record) => {
            no_open_fields(env, steps, record.fields.as_slice())
                && plain_methods(env, steps, record.methods.as_slice())
        }
    }
}

/// A type's words keep their limit.
#[tactic(auto, using(crate::proofs::Sizes::few_words))]
pub fn has_few_words(env: &Env, name: &QName, desc: &Desc) -> bool
    ensures { result ≡ (not (is_type desc.now) || nat_le (words_of (map_of env.now) (ref.Named name.now)) most_words) }
{
    !describes_type(desc) || counted_words_of_name(env, name) <= MOST as u64
}

fn words_before(base: Option<&RecordDesc>) -> u32
    ensures { result ≡ fit.words_before (option_copied base.entry) }
{
    match base {
        None => 0,
        Some(record) => record.words,
    }
}

fn procedures_before(base: Option<&RecordDesc>) -> u32
    ensures { result ≡ fit.procedures_before (option_copied base.entry) }
{
    match base {
        None => 0,
        Some(record) => record.procedures,
    }
}

// The field lies behind so many words and before others.
#[tactic(auto, using(crate::proofs::Sizes::inside))]
fn is_inside(env: &Env, before: u32, words: u32, field: &Field) -> bool
    ensures { result ≡ fit.is_inside (map_of env.now) before words field.now }
{
    before <= field.place && field.place as u64 + counted_words(env, &field.of) <= words as u64
}

fn all_inside(env: &Env, before: u32, words: u32, fields: &[Field]) -> bool
    ensures { result ≡ list_all (fit.is_inside (map_of env.now) before words) fields.now }
{
    let mut rest = fields;
    while let [first, more @ ..] = rest {
        if !is_inside(env, before, words, first) {
            return false;
        }
        rest = more;
    }
    true
}

fn all_numbered(before: u32, procedures: u32, methods: &[Method]) -> bool
    ensures { result ≡ list_all (fit.is_numbered before procedures) methods.now }
{
    let mut rest = methods;
    while let [first, more @ ..] = rest {
        if first.number < before || first.number >= procedures {
            return false;
        }
        rest = more;
    }
    true
}

// The words and the procedures are at least those of the base.
fn covers(base: Option<&RecordDesc>, r: &RecordDesc) -> bool
    ensures { result ≡ (nat_le (fit.words_before (option_copied base.entry)) r.now.words && nat_le (fit.procedures_before (option_copied base.entry)) r.now.procedures) }
{
    words_before(base) <= r.words && procedures_before(base) <= r.procedures
}

/// The procedures of a record are few, it covers its base, its fields lie inside it, and it has
/// numbers of its own.
pub fn has_sound_sizes(env: &Env, steps: usize, r: &RecordDesc) -> bool
    ensures { result ≡ fit.has_sound_sizes (map_of env.now) steps r.now }
{
    let base = base_record(env, steps, r);
    if r.procedures > MOST || !covers(base, r) {
        return false;
    }
    all_inside(env, words_before(base), r.words, r.fields.as_slice())
        && all_numbered(procedures_before(base), r.procedures, r.methods.as_slice())
}
