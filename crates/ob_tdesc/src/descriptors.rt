//! The descriptors of all record types, with tests of types and procedure tables.

ghost use Rattle.std.specs.Prelude.{◌≡◌, ◌+◌, ◌-◌, ◌≤◌, ◌<◌, ◌^◌, ◌∷◌, ◌++◌, [], max, length, take, drop, sum, slice_get, IfOk, IfSome, OnOk, OnErr, Some, if◌then◌else◌};
ghost use Rattle.std.specs.List.Sorted.{IsStrictlySortedBy};
ghost use Rattle.ob_tdesc.specs.Bases.{is_or_has_base, level_of, method_of};
ghost use Rattle.ob_tdesc.specs.Tables.{by_number, defined, declared};
ghost use Rattle.ob_tdesc.specs.Entries.{level_above, ancestors_above, with_own};

use crate::declaration::{Declaration, OwnMethod};
use crate::steps::Steps;
use ob_tree::{Name, ObjName, ProcRef};
use std::alloc::{AllocError, Global};
use std::marker::Model;
use std::sync::ledger::Ledger;

#[derive(Drop)]
struct Entry {
    module: Name,
    name: ObjName,
    base: Option<u32>,
    words: u32,
    level: u32,
    // by level, the entry's own number at its own
    ancestors: [u32; 16],
    // how many bound procedures the type has
    count: u32,
    // where those begin that it defines, and how many they are
    first: usize,
    own: usize,
}

/// The descriptors of a machine, numbered from 0 in the order in which they were added. Of a procedure
/// table only what the type defines is kept.
#[derive(Drop)]
pub struct Descriptors {
    entries: Vec<Entry>,
    methods: Vec<OwnMethod>,
    types_room: usize,
    methods_room: usize,
}

impl Model for Descriptors {
    ghost use Rattle.ob_tdesc.specs.Described.{Described};

    ghost Value = { Described };

    ghost use Rattle.ob_tdesc.specs.Entries.{list_of, own_counts, IsKept};

    ghost view = { λ d. record { list = list_of d.methods.items d.entries.items; own = own_counts d.entries.items; types_room = d.types_room; methods_room = d.methods_room } };

    ghost invariant = { λ d. IsKept d };
}

// The level of a new entry, and its ancestors.
fn level_and_ancestors(entries: &[Entry], base: Option<u32>, number: u32) -> (u32, [u32; 16])
    requires base { IfSome base (λ b. b < length entries.now) }
    requires few { level_above entries.now base < 2 ^ 32 }
    ensures level { result.0 ≡ level_above entries.now base }
    ensures ancestors { result.1 ≡ with_own number (level_above entries.now base) (ancestors_above entries.now base) }
{
    let (level, above) = match base {
        None => (0, [0; 16]),
        Some(base) => {
            let entry = &entries[base as usize];
            (entry.level + 1, entry.ancestors)
        }
    };
    let mut ancestors = above;
    if level < 16 {
        ancestors[level as usize] = number;
    }
    (level, ancestors)
}

// The procedure that is defined with a number.
fn find(methods: &[OwnMethod], number: u32) -> Option<ProcRef>
    requires { IsStrictlySortedBy by_number methods.now }
    ensures { result ≡ defined methods.now number }
{
    match methods.binary_search_by_key(&number, |method| method.number) {
        Ok(place) => Some(methods[place].procedure),
        Err(_) => None,
    }
}

impl Descriptors {
    /// No descriptors, and room for none. Takes no memory.
    pub fn new(alloc: Global) -> Descriptors
        ensures { result ≡ record { list = []; own = []; types_room = 0; methods_room = 0 } }
    {
        Descriptors {
            entries: Vec::new(alloc),
            methods: Vec::new(alloc),
            types_room: 0,
            methods_room: 0,
        }
    }

    /// Makes room for so many more descriptors and bound procedures that their types define. After a
    /// refusal nothing is changed.
    pub fn reserve(&mut self, types: u32, methods: usize) -> Result<(), AllocError>
        requires few { length self.old.list + types < 2 ^ 32 }
        ensures ok { OnOk result (self.new ≡ record self.old { types_room = max self.old.types_room types; methods_room = max self.old.methods_room methods }) }
        ensures err { OnErr result (self.new ≡ self.old) }
    {
        let types_room = self.types_room.max(types as usize);
        let methods_room = self.methods_room.max(methods);
        self.entries.reserve(types_room)?;
        self.methods.reserve(methods_room)?;
        self.types_room = types_room;
        self.methods_room = methods_room;
        Ok(())
    }

    /// The words of a record of a type.
    #[tactic(auto, using(crate::proofs::Tables::length_list))]
    pub fn words(&self, a: u32) -> u32
        requires { a < length self.now.list }
        ensures { IfSome (slice_get self.now.list a) (λ d. result ≡ d.words) }
    {
        self.entries[a as usize].words
    }

    /// The procedure of a number of a type; `None` exactly where its procedure table has no such number
    /// or holds none there. It is looked for among what the type defines, and then what its bases do.
    /// Takes no memory.
    #[tactic(auto, using(crate::proofs::Tables::length_list))]
    pub fn method(&self, a: u32, number: u32) -> Option<ProcRef>
        requires { a < length self.now.list }
        ensures { IfSome (slice_get self.now.list a) (λ d. result ≡ method_of d number) }
    {
        let mut next = Some(a);
        'line: while let Some(at) = next {
            let entry = &self.entries[at as usize];
            if number >= entry.count {
                return None;
            }
            let end = entry.first + entry.own;
            let own = find(&self.methods[entry.first..end], number);
            if own.is_some() {
                return own;
            }
            next = entry.base;
        }
        None
    }

    /// Whether `b` is `a` or one of its bases. It takes at most one step where the level of `b`, the
    /// number of its bases, is below 16, and otherwise at most one more than the level of `a` has over
    /// that of `b`, or none where it has less. A step is a comparison of two numbers of descriptors, or a
    /// base followed. Takes no memory.
    #[tactic(auto, using(crate::proofs::Tables::length_list))]
    pub fn test<L: Ledger>(&self, a: u32, b: u32, steps: &mut Steps<L>) -> bool
        requires a { a < length self.now.list }
        requires b { b < length self.now.list }
        ensures answer { result ≡ is_or_has_base self.now.list a b }
        ensures low { level_of self.now.list b < 16 → steps.new ≤ steps.old + 1 }
        ensures steps { steps.new ≤ steps.old + (level_of self.now.list a + 1 - level_of self.now.list b) }
    {
        let low = self.entries[b as usize].level;
        let level = self.entries[a as usize].level;
        if level < low {
            return false;
        }
        if low < 16 {
            steps.tick();
            return self.entries[a as usize].ancestors[low as usize] == b;
        }
        let mut at = a;
        let mut high = level;
        while high > low {
            let Some(base) = self.entries[at as usize].base else {
                return false;
            };
            steps.tick();
            at = base;
            high -= 1;
        }
        steps.tick();
        at == b
    }

    /// Adds the descriptor of a type, for which there is room, and gives its number. Takes no memory.
    #[tactic(auto, using(crate::proofs::Tables::length_list))]
    pub fn add(&mut self, d: Declaration) -> u32
        requires types { 0 < self.old.types_room }
        requires methods { length d.methods ≤ self.old.methods_room }
        requires rising { IsStrictlySortedBy by_number d.methods }
        requires base { IfSome d.base (λ b. b < length self.old.list) }
        ensures number { result ≡ length self.old.list }
        ensures after { self.new ≡ record { list = self.old.list ++ declared self.old.list d ∷ []; own = self.old.own ++ length d.methods ∷ []; types_room = self.old.types_room - 1; methods_room = self.old.methods_room - length d.methods } }
    {
        let number = self.entries.len() as u32;
        let (level, ancestors) = level_and_ancestors(&self.entries, d.base, number);
        let first = self.methods.len();
        let own = d.methods.len();
        let _ = self.methods.extend_from_slice(d.methods.as_slice());
        self.methods_room -= own;
        let Declaration {
            module,
            name,
            base,
            words,
            count,
            methods: _,
        } = d;
        let _ = self.entries.push(Entry {
            module,
            name,
            base,
            words,
            level,
            ancestors,
            count,
            first,
            own,
        });
        self.types_room -= 1;
        number
    }

    /// Keeps the first descriptors, so many, and gives the room of the others and of what their types
    /// define back. Takes no memory.
    #[tactic(auto, using(crate::proofs::Tables::length_list))]
    pub fn cut(&mut self, types: u32)
        requires { types ≤ length self.old.list }
        ensures list { self.new.list ≡ take types self.old.list }
        ensures own { self.new.own ≡ take types self.old.own }
        ensures types { self.new.types_room ≡ self.old.types_room + (length self.old.list - types) }
        ensures methods { self.new.methods_room ≡ self.old.methods_room + sum (drop types self.old.own) }
    {
        let types = types as usize;
        let len = self.entries.len();
        if types == len {
            return;
        }
        let first = self.entries[types].first;
        self.methods_room += self.methods.len() - first;
        self.methods.truncate(first);
        self.types_room += len - types;
        self.entries.truncate(types);
    }
}
