//! The groups of parts of an object file.

ghost use Rattle.std.specs.Prelude.{◌≡◌, true, IfOk};
ghost use Rattle.ob_format.specs.Format.{few};
ghost use Rattle.ob_format.specs.Names.{name};
ghost use Rattle.ob_obj.specs.Grammar.{by_name, by_type, record_type, head, globals, links, body};

use crate::checks::{are_imports, count_names, has_distinct_names, has_few_words};
use crate::lists::{Spelled, is_list, is_rising_list};
use ob_format::is_distinct;
use ob_obj::{Body, Globals, Head, Links, RecordType};
use ob_tree::{List, Name};
use std::alloc::{AllocError, Global};

/// The most imports of a module.
const MOST_IMPORTS: usize = 64;

/// The most names among the exports of a module.
const MOST_NAMES: usize = 4096;

/// The most record types of a module.
const MOST_TYPES: usize = 1_048_576;

/// Whether it is found that a list of imports has a spelling. Takes no memory.
#[tactic(auto, using(crate::proofs::Sorted::differ_distinct))]
pub fn is_import_list(names: &List<Name>) -> bool
    ensures { result ≡ true → (few 64 name by_name).fits names.now }
{
    is_list(names) && names.len() <= MOST_IMPORTS && is_distinct(names.as_slice())
}

/// Whether it is found that the head of an object file has a spelling. Takes no memory.
#[tactic(auto, unfolding(ob_obj::specs::Grammar::head), using(crate::proofs::Sorted::exports_total, crate::proofs::Sorted::uses_total, crate::proofs::Sorted::head_is))]
pub fn has_head(of: &Head) -> bool
    ensures { result ≡ true → head.fits of.now }
{
    of.module.is_spelled()
        && is_import_list(&of.imports)
        && is_rising_list(&of.exports)
        && is_rising_list(&of.uses)
        && are_imports(of.imports.as_slice())
        && count_names(of.exports.as_slice()) <= MOST_NAMES
}

/// Whether it is found that the globals of an object file have a spelling. Takes no memory.
#[tactic(auto, unfolding(ob_obj::specs::Grammar::globals, ob_format::specs::Format::word32), using(crate::proofs::Sorted::variables_total, crate::proofs::Sorted::few_words))]
pub fn has_globals(of: &Globals) -> bool
    ensures { result ≡ true → globals.fits of.now }
{
    is_list(&of.strings)
        && is_rising_list(&of.variables)
        && has_few_words(of.variable_words, of.strings.as_slice())
}

/// Whether it is found that the links of an object file have a spelling. Takes no memory.
#[tactic(auto, unfolding(ob_obj::specs::Grammar::links))]
pub fn has_links(of: &Links) -> bool
    ensures { result ≡ true → links.fits of.now }
{
    is_list(&of.variables) && is_list(&of.procedures) && is_list(&of.types)
}

#[tactic(auto, using(crate::proofs::Sorted::differ_distinct))]
fn is_type_list(alloc: Global, types: &List<RecordType>) -> Result<bool, AllocError>
    ensures { IfOk result (λ b. b ≡ true → (few 1048576 record_type by_type).fits types.now) }
{
    let distinct = has_distinct_names(alloc, types.as_slice())?;
    Ok(is_list(types) && types.len() <= MOST_TYPES && distinct)
}

/// Whether it is found that the body of an object file has a spelling.
#[tactic(auto, unfolding(ob_obj::specs::Grammar::body), using(crate::proofs::Sorted::commands_total))]
pub fn has_body(alloc: Global, of: &Body) -> Result<bool, AllocError>
    ensures { IfOk result (λ b. b ≡ true → body.fits of.now) }
{
    let types = is_type_list(alloc, &of.types)?;
    Ok(
        types
            && is_list(&of.procedures)
            && is_rising_list(&of.commands)
            && is_list(&of.code)
            && is_list(&of.positions),
    )
}
