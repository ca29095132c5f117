//! What the modules of an environment show to a module that is compiled.

ghost use Rattle.std.specs.Prelude.{◌≡◌, IfOk, slice_get};
ghost use Rattle.std.specs.Option.{option_copied, option_map};
ghost use Rattle.std.specs.List.Sorted.{IsStrictlySortedBy};
ghost use Rattle.ob_env.specs.Faces.{faces_of};
ghost use Rattle.ob_env.specs.Shown.{blank, shown};
ghost use Rattle.ob_types.specs.Relations.{is_record};
ghost use Rattle.ob_env_shown.specs.Faces.{by_place, blanks_from, rows_of, blank_at, seen_at, seen_of, shown_finite};

use crate::blank::{BlankRecord, BlankRecords};
use ob_cdecl_scopes::Imports;
use ob_env::Env;
use ob_env_files::SymbolFile;
use ob_layout::item_at;
use ob_tree::{List, Name, QName};
use ob_types::{Desc, Object, Types};
use std::marker::Model;

/// What the modules of an environment show. Contracts see it as the list of the environment's
/// interfaces. Their records are copies without places, numbers and words; all else is found in the
/// environment.
pub struct Shown<'a> {
    env: &'a Env,
    records: &'a BlankRecords,
}

impl<'a> Model for Shown<'a> {
    ghost use Rattle.std.specs.Prelude.{◌≡◌, List as Listed};
    ghost use Rattle.ob_types.specs.declared.face.Interface.{Interface as Face};

    ghost Value = { Listed Face };

    ghost view = { λ s. s.env.now };

    ghost invariant = { λ s. s.records.now ≡ s.env.now };
}

impl Drop for Shown<'_> {
    fn drop(self) {
        let Shown { env: _, records: _ } = self;
    }
}

fn is_record(desc: &Desc) -> bool
    ensures { result ≡ is_record desc.now }
{
    matches!(desc, Desc::Record(_))
}

// The record of the object at a position.
fn blank_at(row: &[BlankRecord], at: usize) -> Option<&Desc>
    requires { IsStrictlySortedBy by_place row.now }
    ensures { option_copied result ≡ blank_at row.now at }
{
    match row.binary_search_by_key(&at, |blank| blank.at) {
        Ok(place) => Some(&row[place].desc),
        Err(_) => None,
    }
}

fn seen_among<'a>(objects: &'a [Object], row: &'a [BlankRecord], at: usize) -> Option<&'a Desc>
    requires { row.now ≡ blanks_from 0 objects.now }
    ensures { option_copied result ≡ option_map (λ o. blank o.desc) (slice_get objects.now at) }
{
    match item_at(objects, at) {
        None => None,
        Some(object) => {
            if is_record(&object.desc) {
                blank_at(row, at)
            } else {
                Some(&object.desc)
            }
        }
    }
}

fn seen_in<'a>(
    faces: &'a [SymbolFile],
    rows: &'a [List<BlankRecord>],
    face: usize,
    object: usize,
) -> Option<&'a Desc>
    requires { rows.now ≡ rows_of faces.now }
    ensures { option_copied result ≡ seen_at faces.now (face, object) }
{
    match item_at(faces, face) {
        None => None,
        Some(found) => match item_at(rows, face) {
            None => None,
            Some(row) => seen_among(found.objects(), row.as_slice(), object),
        },
    }
}

impl<'a> Shown<'a> {
    /// What the modules of the environment show, by the records of its interfaces. Takes no memory.
    pub fn new(env: &'a Env, records: &'a BlankRecords) -> Shown<'a>
        requires { records.now ≡ env.now }
        ensures { result ≡ env.now }
    {
        Shown { env, records }
    }

    // The object at a place, without places, numbers and words.
    #[tactic(auto, using(crate::proofs::Blanks::seen_through))]
    fn at(&self, place: Option<(usize, usize)>) -> Option<&Desc>
        ensures { option_copied result ≡ seen_of self.now place }
    {
        match place {
            None => None,
            Some((face, position)) => {
                seen_in(self.env.faces(), self.records.rows(), face, position)
            }
        }
    }
}

impl Types for Shown<'_> {
    ghost types = { λ s. shown (faces_of s) };

    ghost finite = { λ s. shown_finite (faces_of s) };

    #[tactic(auto, using(crate::proofs::Blanks::shown_at))]
    fn desc_of(&self, name: &QName) -> Option<&Desc> {
        self.at(self.env.place(name))
    }
}

impl Imports for Shown<'_> {
    fn shown(&self, unit: &Name, name: &Name) -> Option<&Desc> {
        self.at(self.env.position(unit.as_bytes(), name.as_bytes()))
    }
}
