//! Links to variables and procedures of other modules, each with its number.

ghost use Rattle.std.specs.Prelude.{◌≡◌, ◌+◌, ◌≤◌, ◌<◌, ◌^◌, ◌∷◌, ◌++◌, [], length, OnOk, IfOk, List};
ghost use Rattle.ob_scheme.specs.Numbers.{same_link, number_among, with_one, link_to};

use crate::fault::CodeFault;
use ob_obj::Link;
use ob_tree::{List, Name};
use std::alloc::Global;
use std::marker::Model;

/// The most links, as many as instructions.
const MOST: usize = 16_777_216;

/// Links to variables or to procedures of other modules, in the order of their first use.
#[derive(Drop)]
pub struct Links {
    items: List<Link>,
}

impl Model for Links {
    ghost use Rattle.std.specs.Prelude.{List};
    ghost use Rattle.ob_obj.specs.declared.parts.Link.{Link};

    ghost Value = { List Link };

    ghost view = { λ l. l.items };
}

fn is_same_link(unit: &Name, name: &Name, link: &Link) -> bool
    ensures { result ≡ same_link (link_to unit.now name.now) link.now }
{
    name.as_bytes() == link.name.as_bytes() && unit.as_bytes() == link.module.as_bytes()
}

fn put_link(links: &mut List<Link>, link: Link) -> Result<(), CodeFault>
    ensures { OnOk result (links.new ≡ links.old ++ link ∷ []) }
{
    match links.push(link) {
        Ok(()) => Ok(()),
        Err(_) => Err(CodeFault::Memory),
    }
}

// Where a link stands among others, or their number.
fn link_number(links: &[Link], unit: &Name, name: &Name) -> usize
    ensures is { result ≡ number_among same_link links.now (link_to unit.now name.now) }
    ensures within { result ≤ length links.now }
{
    let mut rest = links;
    let mut number = 0;
    while let [first, more @ ..] = rest {
        if is_same_link(unit, name, first) {
            return number;
        }
        number += 1;
        rest = more;
    }
    number
}

// The number of a link, which stands among the links from then on.
#[tactic(auto, using(ob_scheme::proofs::Appends::new_one, ob_scheme::proofs::Appends::old_one))]
fn number_link(links: &mut List<Link>, unit: &Name, name: &Name) -> Result<u32, CodeFault>
    ensures number { IfOk result (λ n. n ≡ number_among same_link links.old (link_to unit.now name.now)) }
    ensures within { IfOk result (λ n. n < 2 ^ 31) }
    ensures links { OnOk result (links.new ≡ with_one same_link links.old (link_to unit.now name.now)) }
{
    let number = link_number(links.as_slice(), unit, name);
    if number >= MOST {
        return Err(CodeFault::Beyond);
    }
    if number == links.len() {
        put_link(
            links,
            Link {
                module: *unit,
                name: *name,
            },
        )?;
    }
    Ok(number as u32)
}

impl Links {
    /// No links. Takes no memory.
    pub fn new(alloc: Global) -> Links
        ensures { result ≡ [] }
    {
        Links {
            items: List::new(alloc),
        }
    }

    /// The number of a link, which stands among the links from then on. After a fault the links
    /// are given up.
    pub fn number(&mut self, unit: &Name, name: &Name) -> Result<u32, CodeFault>
        ensures number { IfOk result (λ n. n ≡ number_among same_link self.old (link_to unit.now name.now)) }
        ensures within { IfOk result (λ n. n < 2 ^ 31) }
        ensures links { OnOk result (self.new ≡ with_one same_link self.old (link_to unit.now name.now)) }
    {
        number_link(&mut self.items, unit, name)
    }

    /// The links, in the order of their numbers.
    pub fn into_list(self) -> List<Link>
        ensures { result ≡ self }
    {
        let Links { items } = self;
        items
    }
}
