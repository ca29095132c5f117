//! Exports, found by their names.

ghost use Rattle.std.specs.Prelude.{◌≡◌, ◌<◌, true, length};
ghost use Rattle.std.specs.List.{HoldsAt};
ghost use Rattle.std.specs.List.Sorted.{IsStrictlySortedBy};
ghost use Rattle.std.specs.Option.{option_copied, option_map};
ghost use Rattle.std.specs.declared.cmp.Ordering.TheVariants.{Equal};
ghost use Rattle.ob_obj.specs.Grammar.{by_name, by_export, by_variable};
ghost use Rattle.ob_types.specs.Spelled.{aspect_number as aspect_number_of};
ghost use Rattle.ob_link.specs.Files.{exported as exported_of, has_variable as has_variable_of};
ghost use Rattle.ob_link.specs.Members.{by_export_name, by_exported, procedure_named};

use crate::exported::Exported;
use ob_obj::{Export, Variable};
use ob_tree::{Name, ObjName, Print};
use ob_types::Aspect;
use std::cmp::Ordering;

// The order of two names.
fn compare(a: &[u8], b: &[u8]) -> Ordering
    ensures { result ≡ by_name a.now b.now }
{
    a.cmp(b)
}

fn aspect_number(aspect: Aspect) -> u8
    ensures { result ≡ aspect_number_of aspect }
{
    match aspect {
        Aspect::Shape => 0,
        Aspect::Layout => 1,
    }
}

// The order of an export and of the name and aspect of one.
fn compare_export(export: &Export, name: &ObjName, aspect: Aspect) -> Ordering
    ensures { result ≡ by_export_name (export.now.name, aspect_number_of export.now.aspect) (name.now, aspect_number_of aspect) }
{
    let order = compare(export.name.as_bytes(), name.as_bytes());
    if order != Ordering::Equal {
        return order;
    }
    aspect_number(export.aspect).cmp(&aspect_number(aspect))
}

// Whether the export of a name and aspect stands at a place.
fn is_at(exports: &[Export], place: usize, name: &ObjName, aspect: Aspect) -> bool
    ensures there { result ≡ true → place < length exports.now }
    ensures same { result ≡ true → HoldsAt (λ e. by_export_name (e.name, aspect_number_of e.aspect) (name.now, aspect_number_of aspect) ≡ Equal) exports.now place }
{
    match exports.get(place) {
        Some(export) => compare_export(export, name, aspect) == Ordering::Equal,
        None => false,
    }
}

/// The export of a name and aspect: its print and its place. Where it stands at the place `near`, it is found at once.
pub fn exported(
    exports: &[Export],
    near: usize,
    name: &ObjName,
    aspect: Aspect,
) -> Option<(Print, usize)>
    requires { IsStrictlySortedBy by_export exports.now }
    ensures { option_map (λ f. f.0) result ≡ exported_of name.now aspect exports.now }
{
    if is_at(exports, near, name, aspect) {
        return Some((exports[near].print, near));
    }
    match exports.binary_search_by(|export| { compare_export(export, name, aspect) }) {
        Ok(place) => Some((exports[place].print, place)),
        Err(_) => None,
    }
}

/// Whether a variable of the name is exported.
pub fn has_variable(variables: &[Variable], name: &Name) -> bool
    requires { IsStrictlySortedBy by_variable variables.now }
    ensures { result ≡ has_variable_of name.now variables.now }
{
    match variables.binary_search_by(|variable| {
        compare(variable.name.as_bytes(), name.as_bytes())
    }) {
        Ok(_) => true,
        Err(_) => false,
    }
}

/// The exported procedure of the name.
pub fn procedure<'a>(procedures: &'a [Exported], name: &Name) -> Option<&'a Exported>
    requires { IsStrictlySortedBy by_exported procedures.now }
    ensures { option_copied result ≡ procedure_named name.now procedures.now }
{
    match procedures.binary_search_by(|procedure| {
        compare(procedure.name.as_bytes(), name.as_bytes())
    }) {
        Ok(place) => Some(&procedures[place]),
        Err(_) => None,
    }
}
