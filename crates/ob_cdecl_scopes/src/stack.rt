//! Numbers by their names, of which the newest counts until it is taken off.

ghost use Rattle.std.specs.Prelude.{◌≡◌, [], ◌∷◌, ◌<◌, ◌-◌, ◌+◌, length, Some, OnOk, OnErr, IsSome, drop};
ghost use Rattle.ob_rules.specs.Names.{is_among};
ghost use Rattle.ob_cdecl_scopes.specs.Stacks.{latest, before_at, place_at, Puts};

use ob_tree::ObjName;
use std::alloc::{AllocError, Global};
use std::collections::HashMap;
use std::marker::Model;

/// A name in its place, and the place of the one before it of the same name.
#[derive(Drop)]
struct Key {
    name: ObjName,
    before: Option<usize>,
}

/// A stack of names. Places are counted from 0, the oldest; each name is found by its latest
/// place.
///
/// Contracts see the names, the latest first.
#[derive(Drop)]
pub struct Stack {
    keys: Vec<Key>,
    last: HashMap<Vec<u8>, usize>,
}

impl Model for Stack {
    ghost use Rattle.std.specs.Prelude.{List, ℕ, ◌≡◌};
    ghost use Rattle.ob_cdecl_scopes.specs.Stacks.{names_of, AreLinked, IsIndexed};

    ghost Value = { List (List ℕ) };

    ghost view = { λ s. names_of s.keys.items };

    ghost invariant = { λ s. AreLinked s.keys.items × IsIndexed s.last s.keys.items };
}

// Puts a place at a name.
fn put_place(
    alloc: Global,
    places: &mut HashMap<Vec<u8>, usize>,
    name: &[u8],
    place: usize,
) -> Result<(), AllocError>
    ensures ok { OnOk result (Puts places.old places.new name.now (Some place)) }
    ensures err { OnErr result (places.new.entries ≡ places.old.entries) }
{
    let key = Vec::from_slice(alloc, name)?;
    places.insert(key, place)?;
    Ok(())
}

// Puts the place that a name had before, or none.
fn put_back(places: &mut HashMap<Vec<u8>, usize>, name: &[u8], before: Option<usize>)
    requires { IsSome (place_at places.old name.now) }
    ensures { Puts places.old places.new name.now before }
{
    match before {
        None => {
            let _ = places.remove(name);
        }
        Some(place) => match places.get_mut(name) {
            Some(last) => *last = place,
            None => unreachable!(),
        },
    }
}

impl Stack {
    /// No names. Takes no memory.
    pub fn new(alloc: Global) -> Stack
        ensures { result ≡ [] }
    {
        Stack {
            keys: Vec::new(alloc),
            last: HashMap::new(alloc),
        }
    }

    /// How many names there are.
    pub fn len(&self) -> usize
        ensures { result ≡ length self.now }
    {
        self.keys.len()
    }

    /// The latest place of a name. Takes no memory.
    pub fn find(&self, name: &[u8]) -> Option<usize>
        ensures { result ≡ latest self.now name.now }
    {
        self.last.get(name).copied()
    }

    /// Whether the name is among them. Takes no memory.
    #[tactic(auto, using(crate::proofs::Scoping::among))]
    pub fn has(&self, name: &[u8]) -> bool
        ensures { result ≡ is_among name.now self.now }
    {
        self.find(name).is_some()
    }

    /// One more name, the latest.
    pub fn push(&mut self, alloc: Global, name: &[u8]) -> Result<(), AllocError>
        ensures ok { OnOk result (self.new ≡ name.now ∷ self.old) }
        ensures err { OnErr result (self.new ≡ self.old) }
    {
        let before = self.find(name);
        let place = self.keys.len();
        let key = ObjName::new(alloc, name)?;
        self.keys.reserve(1)?;
        put_place(alloc, &mut self.last, name, place)?;
        self.keys.push(Key { name: key, before })?;
        Ok(())
    }

    /// Takes the latest name away, if there is one. Takes no memory.
    pub fn pop(&mut self)
        ensures { self.new ≡ drop 1 self.old }
    {
        match self.keys.pop() {
            None => {}
            Some(key) => {
                let Key { name, before } = key;
                put_back(&mut self.last, name.as_bytes(), before);
            }
        }
    }

    /// Takes the latest names away until so many are left; where there are no more than that, none.
    /// Takes no memory.
    pub fn cut(&mut self, left: usize)
        ensures { self.new ≡ drop (length self.old - left) self.old }
    {
        'names: while self.len() > left {
            self.pop();
        }
    }

    /// The place of the latest name before this place that is the same. Takes no memory.
    pub fn before(&self, place: usize) -> Option<usize>
        requires { place < length self.now }
        ensures { Some result ≡ before_at self.now (length self.now - (place + 1)) }
    {
        self.keys[place].before
    }
}
