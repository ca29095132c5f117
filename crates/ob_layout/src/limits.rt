//! The first limit that a module exceeds.

ghost use Rattle.std.specs.Prelude.{◌≡◌, ◌+◌, ◌*◌, ◌≤◌, ◌||◌, suc, min, Some, IfOk, length, map as each};
ghost use Rattle.std.specs.List.{list_any};
ghost use Rattle.ob_types.specs.TypedView.{stmts_view, procedure_view, module_view};
ghost use Rattle.ob_layout.specs.Lists.{sum_of};
ghost use Rattle.ob_layout.specs.Words.{words_of as words_in_map, described_words, most_words};
ghost use Rattle.ob_layout.specs.Used.{used};
ghost use Rattle.ob_layout.specs.Room.{above, is_wide as is_wide_in, bound_procedures as bound_procedures_of, hidden_of_all, frame_words as frame_words_of, globals_words, first_limit as first_exceeded};

use crate::room::{frame_words, hidden_locals, variable_words};
use crate::texts::UsedText;
use crate::texts_of_code::texts_of_module;
use crate::words::counted_words;
use ob_tree::Which;
use ob_types::{Desc, TypedModule, TypedProcedure, TypedStmt, TypedType, Types};
use std::alloc::{AllocError, Global};

/// The most words of a type, of an activation, and the most bound procedures of a record.
const MOST_WORDS: u64 = 1_048_576;

/// The most words of globals.
const MOST_GLOBALS: u64 = 262_144;

/// The most objects of an interface, and the most procedures of a module with its body.
const MOST_NAMES: usize = 4096;

/// More words than any number of 32 bits.
const MANY: u64 = 4_294_967_296;

// The words of an array, those above that number as it.
fn times(length: u32, words: u64) -> u64
    requires { words ≤ 4294967296 }
    ensures { result ≡ min (length * words) 4294967296 }
{
    if length == 0 {
        return 0;
    }
    let product = length as u64 * words;
    if product > MANY { MANY } else { product }
}

#[tactic(auto, using(crate::proofs::Counted::capped_times))]
fn words_of_desc<T: Types>(types: &T, desc: &Desc) -> u64
    ensures { result ≡ min (described_words (words_in_map (T.types types.now)) (Some desc.now)) 4294967296 }
{
    match desc {
        Desc::Alias(_, of) => counted_words(types, of),
        Desc::Array(_, length, of) => times(*length, counted_words(types, of)),
        Desc::OpenArray(_, _) => 0,
        Desc::Record(described) => described.words as u64,
        Desc::Const(_) => 1,
        Desc::Var(_, _) => 1,
        Desc::Proc(_) => 1,
        Desc::Pointer(_, _) => 1,
        Desc::ProcType(_, _) => 1,
    }
}

fn is_wide<T: Types>(types: &T, of: &TypedType) -> bool
    ensures { result ≡ is_wide_in (T.types types.now) of.now }
{
    words_of_desc(types, &of.desc) > MOST_WORDS
}

fn has_wide_type<T: Types>(types: &T, all: &[TypedType]) -> bool
    ensures { result ≡ list_any (is_wide_in (T.types types.now)) all.now }
{
    'types: for of in all {
        if is_wide(types, of) {
            return true;
        }
    }
    false
}

fn is_large<T: Types>(types: &T, procedure: &TypedProcedure) -> bool
    ensures { result ≡ above most_words (frame_words_of (words_in_map (T.types types.now)) (procedure_view procedure.now)) }
{
    frame_words(types, procedure) > MOST_WORDS
}

fn has_large_frame<T: Types>(types: &T, procedures: &[TypedProcedure]) -> bool
    ensures { result ≡ list_any (λ p. above most_words (frame_words_of (words_in_map (T.types types.now)) p)) (each procedure_view procedures.now) }
{
    'procedures: for procedure in procedures {
        if is_large(types, procedure) {
            return true;
        }
    }
    false
}

fn has_large_body(body: &[TypedStmt]) -> bool
    ensures { result ≡ above most_words (hidden_of_all (stmts_view body.now)) }
{
    hidden_locals(body) > MOST_WORDS
}

fn bound_procedures(desc: &Desc) -> u32
    ensures { result ≡ bound_procedures_of desc.now }
{
    match desc {
        Desc::Record(described) => described.procedures,
        Desc::Const(_) => 0,
        Desc::Var(_, _) => 0,
        Desc::Proc(_) => 0,
        Desc::Alias(_, _) => 0,
        Desc::Array(_, _, _) => 0,
        Desc::OpenArray(_, _) => 0,
        Desc::Pointer(_, _) => 0,
        Desc::ProcType(_, _) => 0,
    }
}

fn has_large_table(all: &[TypedType]) -> bool
    ensures { result ≡ list_any (λ t. above most_words (bound_procedures_of t.desc)) all.now }
{
    'types: for of in all {
        if u64::from(bound_procedures(&of.desc)) > MOST_WORDS {
            return true;
        }
    }
    false
}

// Both, those above that number as it.
fn joined(total: u64, words: u64) -> u64
    requires { total ≤ 4294967296 }
    ensures { result ≡ min (total + words) 4294967296 }
{
    if words > MANY {
        return MANY;
    }
    (total + words).min(MANY)
}

// The words of strings, those above that number as it.
#[tactic(auto, using(crate::proofs::Counted::capped_next))]
fn words_of_texts(texts: &[UsedText]) -> u64
    ensures { result ≡ min (sum_of (λ t. t.words) (used texts.now)) 4294967296 }
{
    let mut total = 0;
    'texts: for text in texts {
        total = joined(total, text.words);
    }
    total
}

fn has_many_globals<T: Types>(
    alloc: Global,
    types: &T,
    module: &TypedModule,
) -> Result<bool, AllocError>
    ensures { IfOk result (λ b. b ≡ above 262144 (globals_words (T.types types.now) (module_view «module».now))) }
{
    let texts = texts_of_module(alloc, types, module)?;
    Ok(variable_words(types, module) + words_of_texts(texts.as_slice()) > MOST_GLOBALS)
}

fn has_many_procedures(module: &TypedModule) -> bool
    ensures { result ≡ above 4096 (suc (length (module_view «module».now).procedures)) || list_any (λ t. above most_words (bound_procedures_of t.desc)) (module_view «module».now).types }
{
    module.procedures.len() >= MOST_NAMES || has_large_table(module.types.as_slice())
}

fn has_large_activation<T: Types>(types: &T, module: &TypedModule) -> bool
    ensures { result ≡ list_any (λ p. above most_words (frame_words_of (words_in_map (T.types types.now)) p)) (module_view «module».now).procedures || above most_words (hidden_of_all (module_view «module».now).body) }
{
    has_large_frame(types, module.procedures.as_slice()) || has_large_body(module.body.as_slice())
}

/// The first limit of sizes that a module exceeds, which is laid out and whose interface has so many
/// objects: objects, words, frame, globals, procedures. `types` has the descriptions of its own types
/// and of those around it.
pub fn first_limit<T: Types>(
    alloc: Global,
    types: &T,
    module: &TypedModule,
    objects: usize,
) -> Result<Option<Which>, AllocError>
    ensures { IfOk result (λ w. w ≡ first_exceeded (T.types types.now) (module_view «module».now) objects) }
{
    if objects > MOST_NAMES {
        return Ok(Some(Which::Objects));
    }
    if has_wide_type(types, module.types.as_slice()) {
        return Ok(Some(Which::Words));
    }
    if has_large_activation(types, module) {
        return Ok(Some(Which::Frame));
    }
    if has_many_globals(alloc, types, module)? {
        return Ok(Some(Which::Globals));
    }
    if has_many_procedures(module) {
        return Ok(Some(Which::Procedures));
    }
    Ok(None)
}
