//! The words of types, where those of the module's own records are sums over their declarations.

ghost use Rattle.std.specs.Prelude.{◌≡◌, ◌+◌, ◌*◌, ◌&&◌, true, suc, Some, IfOk};
ghost use Rattle.std.specs.Option.{option_copied};
ghost use Rattle.ob_types.specs.TypedView.{module_view};
ghost use Rattle.ob_layout.specs.Lists.{sum_of};
ghost use Rattle.ob_layout.specs.LaidOut.{summed, declared_words, record_words, base_of, kept, is_own};
ghost use Rattle.ob_env.specs.Faces.{faces_of, described};
ghost use Rattle.ob_layout_module.specs.Sums.{own_ref, sum_in, ends_in, base_ends, fields_end, declared_ends, row_at, row_in, all_end, Hold};

use ob_env::View;
use ob_layout::item_at;
use ob_tree::{List, QName};
use ob_types::{Desc, Field, RecordDesc, TypeRef, TypedType, Types};
use std::alloc::{AllocError, Global};

/// The most types that are asked in a chain.
pub const CHAIN: usize = 201;

/// More words than a type may have.
const MANY: u64 = 1_048_577;

/// The words of a type in so many steps, those above the limit as the next number, and whether each
/// chain of names from it ends within them, so that they are its words in any more steps.
#[derive(Clone, Copy, Drop)]
pub struct Sum {
    pub words: u32,
    pub ends: bool,
}

/// So many words and more, those above the limit as the next number.
pub fn plus(a: u32, b: u32) -> u32
    ensures { result ≡ kept (a + b) }
{
    let sum = u64::from(a) + u64::from(b);
    sum.min(MANY) as u32
}

// The words of a type that stands on no other.
fn ended(words: u32) -> Sum
    ensures { result ≡ record { words = kept words; ends = true } }
{
    Sum {
        words: u64::from(words).min(MANY) as u32,
        ends: true,
    }
}

// Both one behind the other.
fn both(a: Sum, b: Sum) -> Sum
    ensures { result ≡ record { words = kept (a.words + b.words); ends = a.ends && b.ends } }
{
    Sum {
        words: plus(a.words, b.words),
        ends: a.ends && b.ends,
    }
}

// So many of them.
fn times(length: u32, sum: Sum) -> Sum
    ensures { result ≡ record { words = kept (length * sum.words); ends = sum.ends } }
{
    let product = u64::from(length) * u64::from(sum.words);
    Sum {
        words: product.min(MANY) as u32,
        ends: sum.ends,
    }
}

/// Whether a name is of a type of the module.
pub fn is_own(view: &View<'_>, name: &QName) -> bool
    ensures { result ≡ is_own (module_view view.now.«module».now) name.now }
{
    name.module.as_bytes() == view.module().name.as_bytes()
}

// The row of so many steps; where it was not made, the last one.
fn row_of(rows: &[List<Sum>], steps: usize) -> Option<&List<Sum>>
    ensures { option_copied result ≡ row_in rows.now steps }
{
    match item_at(rows, steps) {
        Some(row) => Some(row),
        None => item_at(rows, rows.len().saturating_sub(1)),
    }
}

/// The words of the type of the module that has this name, in so many steps.
pub fn own_words(view: &View<'_>, rows: &[List<Sum>], steps: usize, name: &[u8]) -> Sum
    requires { Hold (described (faces_of view.now.env.now)) (module_view view.now.«module».now) rows.now steps }
    ensures { result ≡ sum_in (described (faces_of view.now.env.now)) (module_view view.now.«module».now) steps (own_ref (module_view view.now.«module».now).name name.now) }
{
    match view.position(name) {
        None => Sum {
            words: 1,
            ends: steps > 0,
        },
        Some(at) => match row_of(rows, steps) {
            None => unreachable!(),
            Some(row) => match item_at(row.as_slice(), at) {
                None => unreachable!(),
                Some(sum) => *sum,
            },
        },
    }
}

/// The words of a type in so many steps.
#[tactic(auto, using(crate::proofs::Rows::own_kept, crate::proofs::Rows::basic_words, crate::proofs::Rows::hold_less))]
pub fn words_at(view: &View<'_>, rows: &[List<Sum>], steps: usize, t: &TypeRef) -> Sum
    requires { Hold (described (faces_of view.now.env.now)) (module_view view.now.«module».now) rows.now steps }
    ensures { result ≡ sum_in (described (faces_of view.now.env.now)) (module_view view.now.«module».now) steps t.now }
{
    let TypeRef::Named(name) = t else {
        return ended(1);
    };
    if is_own(view, name) {
        return own_words(view, rows, steps, name.object.as_bytes());
    }
    if steps == 0 {
        return Sum {
            words: 1,
            ends: false,
        };
    }
    match view.desc_of(name) {
        Some(Desc::Alias(_, of)) => words_at(view, rows, steps - 1, of),
        Some(Desc::Array(_, length, of)) => times(*length, words_at(view, rows, steps - 1, of)),
        Some(Desc::OpenArray(_, _)) => ended(0),
        Some(Desc::Record(described)) => ended(described.words),
        _ => ended(1),
    }
}

// The words of fields.
#[tactic(auto, using(crate::proofs::Keeping::kept_more, crate::proofs::Keeping::ends_more, crate::proofs::Keeping::ends_last))]
fn words_of_fields(view: &View<'_>, rows: &[List<Sum>], steps: usize, fields: &[Field]) -> Sum
    requires { Hold (described (faces_of view.now.env.now)) (module_view view.now.«module».now) rows.now steps }
    ensures { result ≡ record { words = kept (sum_of (λ f. summed (described (faces_of view.now.env.now)) (module_view view.now.«module».now) steps f.of) fields.now); ends = fields_end (ends_in (described (faces_of view.now.env.now)) (module_view view.now.«module».now) steps) fields.now } }
{
    let mut total = ended(0);
    'fields: for field in fields {
        total = both(total, words_at(view, rows, steps, &field.of));
    }
    total
}

/// The words of the base of a record, if it has one.
pub fn words_of_base(
    view: &View<'_>,
    rows: &[List<Sum>],
    steps: usize,
    base: &Option<TypeRef>,
) -> Sum
    requires { Hold (described (faces_of view.now.env.now)) (module_view view.now.«module».now) rows.now steps }
    ensures { result ≡ record { words = kept (base_of (summed (described (faces_of view.now.env.now)) (module_view view.now.«module».now) steps) base.now); ends = base_ends (ends_in (described (faces_of view.now.env.now)) (module_view view.now.«module».now) steps) base.now } }
{
    match base {
        None => ended(0),
        Some(t) => words_at(view, rows, steps, t),
    }
}

// The words of a record of the module.
#[tactic(auto, using(crate::proofs::Keeping::kept_plus))]
fn words_of_record(view: &View<'_>, rows: &[List<Sum>], steps: usize, own: &RecordDesc) -> Sum
    requires { Hold (described (faces_of view.now.env.now)) (module_view view.now.«module».now) rows.now steps }
    ensures { result ≡ record { words = kept (record_words (summed (described (faces_of view.now.env.now)) (module_view view.now.«module».now) steps) true own.now); ends = base_ends (ends_in (described (faces_of view.now.env.now)) (module_view view.now.«module».now) steps) own.now.base && fields_end (ends_in (described (faces_of view.now.env.now)) (module_view view.now.«module».now) steps) own.now.fields } }
{
    both(
        words_of_base(view, rows, steps, &own.base),
        words_of_fields(view, rows, steps, own.fields.as_slice()),
    )
}

// The words of a type of the module that is so described, in one step more.
#[tactic(auto, using(crate::proofs::Keeping::kept_times))]
fn words_of_desc(view: &View<'_>, rows: &[List<Sum>], steps: usize, desc: &Desc) -> Sum
    requires { Hold (described (faces_of view.now.env.now)) (module_view view.now.«module».now) rows.now steps }
    ensures { result ≡ record { words = kept (declared_words (summed (described (faces_of view.now.env.now)) (module_view view.now.«module».now) steps) true (Some desc.now)); ends = declared_ends (ends_in (described (faces_of view.now.env.now)) (module_view view.now.«module».now) steps) true (Some desc.now) } }
{
    match desc {
        Desc::Alias(_, of) => words_at(view, rows, steps, of),
        Desc::Array(_, length, of) => times(*length, words_at(view, rows, steps, of)),
        Desc::OpenArray(_, _) => ended(0),
        Desc::Record(described) => words_of_record(view, rows, steps, described),
        Desc::Const(_) => ended(1),
        Desc::Var(_, _) => ended(1),
        Desc::Proc(_) => ended(1),
        Desc::Pointer(_, _) => ended(1),
        Desc::ProcType(_, _) => ended(1),
    }
}

// The words of the type of the module that has this name, in one step more.
#[tactic(auto, using(crate::proofs::Rows::next_none, crate::proofs::Rows::next_is))]
fn next_words(view: &View<'_>, rows: &[List<Sum>], steps: usize, name: &[u8]) -> Sum
    requires { Hold (described (faces_of view.now.env.now)) (module_view view.now.«module».now) rows.now steps }
    ensures { result ≡ sum_in (described (faces_of view.now.env.now)) (module_view view.now.«module».now) (suc steps) (own_ref (module_view view.now.«module».now).name name.now) }
{
    match view.own_desc(name) {
        None => ended(1),
        Some(desc) => words_of_desc(view, rows, steps, desc),
    }
}

fn first_row(alloc: Global, view: &View<'_>, types: &[TypedType]) -> Result<List<Sum>, AllocError>
    requires { types.now ≡ view.now.«module».now.types }
    ensures { IfOk result (λ row. row ≡ row_at (described (faces_of view.now.env.now)) (module_view view.now.«module».now) 0) }
{
    let mut row = List::new(alloc);
    'types: for t in types {
        let _ = t;
        row.push(Sum {
            words: 1,
            ends: false,
        })?;
    }
    Ok(row)
}

// The words of all types of the module, in one step more.
fn next_row(
    alloc: Global,
    view: &View<'_>,
    rows: &[List<Sum>],
    steps: usize,
    types: &[TypedType],
) -> Result<List<Sum>, AllocError>
    requires rows { Hold (described (faces_of view.now.env.now)) (module_view view.now.«module».now) rows.now steps }
    requires types { types.now ≡ view.now.«module».now.types }
    ensures { IfOk result (λ row. row ≡ row_at (described (faces_of view.now.env.now)) (module_view view.now.«module».now) (suc steps)) }
{
    let mut row = List::new(alloc);
    'types: for t in types {
        row.push(next_words(view, rows, steps, t.name.as_bytes()))?;
    }
    Ok(row)
}

// Whether each chain of names ends within the steps of a row.
fn all_end(row: &[Sum]) -> bool
    ensures { result ≡ all_end row.now }
{
    let mut rest = row;
    while let [first, more @ ..] = rest {
        if !first.ends {
            return false;
        }
        rest = more;
    }
    true
}

/// The words of all types of the module, in each number of steps up to the longest chain. There
/// are no rows behind the first in which each chain of names ends.
#[tactic(auto, using(crate::proofs::Rows::more_rows))]
pub fn all_rows(alloc: Global, view: &View<'_>) -> Result<Vec<List<Sum>>, AllocError>
    ensures { IfOk result (λ rows. Hold (described (faces_of view.now.env.now)) (module_view view.now.«module».now) rows.items 201) }
{
    let types = view.module().types.as_slice();
    let mut rows = Vec::new(alloc);
    let first = first_row(alloc, view, types)?;
    rows.push(first)?;
    'rows: while rows.len() <= CHAIN {
        let steps = rows.len() - 1;
        let row = next_row(alloc, view, &rows, steps, types)?;
        let ended = all_end(row.as_slice());
        rows.push(row)?;
        if ended {
            return Ok(rows);
        }
    }
    Ok(rows)
}
