//! Links to record types, each with its number.

ghost use Rattle.std.specs.Prelude.{◌≡◌, ◌+◌, ◌≤◌, ◌<◌, ◌^◌, ◌∷◌, ◌++◌, [], length, OnOk, IfOk, List};
ghost use Rattle.ob_scheme.specs.Numbers.{same_type, number_among, with_one};

use crate::fault::CodeFault;
use ob_tree::{List, QName};
use std::alloc::Global;
use std::marker::Model;

/// The most links, as many as instructions.
const MOST: usize = 16_777_216;

/// Links to record types of other modules, in the order of their first use.
#[derive(Drop)]
pub struct TypeLinks {
    items: List<QName>,
}

impl Model for TypeLinks {
    ghost use Rattle.std.specs.Prelude.{List};
    ghost use Rattle.ob_tree.specs.declared.names.QName.{QName};

    ghost Value = { List QName };

    ghost view = { λ l. l.items };
}

fn is_same_type(a: &QName, b: &QName) -> bool
    ensures { result ≡ same_type a.now b.now }
{
    a.object.as_bytes() == b.object.as_bytes() && a.module.as_bytes() == b.module.as_bytes()
}

// Where a type stands among others, or their number.
fn type_number(types: &[QName], name: &QName) -> usize
    ensures is { result ≡ number_among same_type types.now name.now }
    ensures within { result ≤ length types.now }
{
    let mut rest = types;
    let mut number = 0;
    while let [first, more @ ..] = rest {
        if is_same_type(name, first) {
            return number;
        }
        number += 1;
        rest = more;
    }
    number
}

fn put_name(types: &mut List<QName>, name: &QName) -> Result<(), CodeFault>
    ensures { OnOk result (types.new ≡ types.old ++ name.now ∷ []) }
{
    let Ok(name) = name.clone() else {
        return Err(CodeFault::Memory);
    };
    match types.push(name) {
        Ok(()) => Ok(()),
        Err(_) => Err(CodeFault::Memory),
    }
}

// The number of a type of another module, which stands among the links from then on.
#[tactic(auto, using(ob_scheme::proofs::Appends::new_one, ob_scheme::proofs::Appends::old_one))]
fn number_type(types: &mut List<QName>, name: &QName) -> Result<u32, CodeFault>
    ensures number { IfOk result (λ n. n ≡ number_among same_type types.old name.now) }
    ensures within { IfOk result (λ n. n < 2 ^ 30) }
    ensures links { OnOk result (types.new ≡ with_one same_type types.old name.now) }
{
    let number = type_number(types.as_slice(), name);
    if number >= MOST {
        return Err(CodeFault::Beyond);
    }
    if number == types.len() {
        put_name(types, name)?;
    }
    Ok(number as u32)
}

impl TypeLinks {
    /// No links. Takes no memory.
    pub fn new(alloc: Global) -> TypeLinks
        ensures { result ≡ [] }
    {
        TypeLinks {
            items: List::new(alloc),
        }
    }

    /// The number of a type, which stands among the links from then on. After a fault the links
    /// are given up.
    pub fn number(&mut self, name: &QName) -> Result<u32, CodeFault>
        ensures number { IfOk result (λ n. n ≡ number_among same_type self.old name.now) }
        ensures within { IfOk result (λ n. n < 2 ^ 30) }
        ensures links { OnOk result (self.new ≡ with_one same_type self.old name.now) }
    {
        number_type(&mut self.items, name)
    }

    /// The number that a type has, or would have as the next one. Takes no memory.
    pub fn number_of(&self, name: &QName) -> usize
        ensures { result ≡ number_among same_type self.now name.now }
    {
        type_number(self.items.as_slice(), name)
    }

    /// The links, in the order of their numbers.
    pub fn into_list(self) -> List<QName>
        ensures { result ≡ self }
    {
        let TypeLinks { items } = self;
        items
    }
}
