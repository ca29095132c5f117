//! Headings in their order, with an index of the bound procedures.

ghost use Rattle.std.specs.Prelude.{◌≡◌, [], ◌∷◌, ◌++◌, IfOk, OnOk, OnErr};
ghost use Rattle.std.specs.Option.{option_copied};
ghost use Rattle.ob_cdecl_heading.specs.Keys.{key};
ghost use Rattle.ob_cdecl_heading.specs.Index.{entry_if, comes_after};

use crate::head::Head;
use crate::keys::key_of;
use ob_cdecl_scopes::{Named, Table};
use ob_tree::{Name, ObjName, QName};
use std::alloc::{AllocError, Global};
use std::marker::Model;

/// Whether the latest bound procedure of a name and a record is a forward declaration.
#[derive(Drop)]
pub(crate) struct Latest {
    pub(crate) key: ObjName,
    pub(crate) forward: bool,
}

impl Named for Latest {
    ghost name = { λ l. l.key };

    fn name_bytes(&self) -> &[u8] {
        self.key.as_bytes()
    }
}

/// The headings of a sequence of declarations.
///
/// Contracts see them in the order of the text.
#[derive(Drop)]
pub struct Heads {
    items: Vec<Head>,
    latest: Table<Latest>,
}

impl Model for Heads {
    ghost use Rattle.std.specs.Prelude.{List as Listed, ◌≡◌, reverse};
    ghost use Rattle.ob_cdecl_heading.specs.declared.head.Head.{Head as Kept};
    ghost use Rattle.std.specs.Coded.{coded_list};
    ghost use Rattle.ob_cdecl_heading.specs.contracts.head.Head as one;
    ghost use Rattle.ob_cdecl_heading.specs.Index.{entries};

    ghost Value = { Listed Kept };

    ghost coded = { coded_list one.the_row.coded };

    ghost view = { λ h. h.items.items };

    ghost invariant = { λ h. h.latest ≡ entries (reverse h.items.items) };
}

fn add_entry(alloc: Global, latest: &mut Table<Latest>, head: &Head) -> Result<(), AllocError>
    ensures ok { OnOk result (latest.new ≡ entry_if head.now.bound head.now latest.old) }
    ensures err { OnErr result (latest.new ≡ latest.old) }
{
    match &head.bound {
        None => Ok(()),
        Some(bound) => {
            let key = key_of(alloc, &head.name, bound.owner.object.as_bytes())?;
            latest.push(
                alloc,
                Latest {
                    key,
                    forward: head.forward,
                },
            )
        }
    }
}

fn is_after(forward: bool, latest: Option<&Latest>) -> bool
    ensures { result ≡ comes_after forward (option_copied latest.entry) }
{
    match latest {
        None => false,
        Some(latest) => forward || !latest.forward,
    }
}

impl Heads {
    ghost use Rattle.std.specs.Prelude.{map, reverse};
    ghost use Rattle.ob_rules.specs.Headings.{head_twice, bound_before};
    ghost use Rattle.ob_cdecl_heading.specs.Kept.{seen};

    /// No headings. Takes no memory.
    pub fn new(alloc: Global) -> Heads
        ensures { result ≡ [] }
    {
        Heads {
            items: Vec::new(alloc),
            latest: Table::new(alloc),
        }
    }

    /// The headings, in the order of the text. Takes no memory.
    pub fn as_slice(&self) -> &[Head]
        ensures { result.now ≡ self.now }
    {
        &self.items
    }

    /// The headings themselves, in the order of the text. Takes no memory.
    pub fn into_items(self) -> Vec<Head>
        ensures { result.items ≡ self }
    {
        let Heads { items, latest: _ } = self;
        items
    }

    /// One more heading, the last.
    pub fn push(&mut self, alloc: Global, head: Head) -> Result<(), AllocError>
        ensures { OnOk result (self.new ≡ self.old ++ head ∷ []) }
    {
        self.items.reserve(1)?;
        add_entry(alloc, &mut self.latest, &head)?;
        self.items.push(head)?;
        Ok(())
    }

    /// Whether a bound procedure of that name and record, or a forward declaration of it, is twice
    /// there behind these headings.
    #[tactic(auto, using(crate::proofs::KeyLaws::after_by))]
    pub fn is_twice(
        &self,
        alloc: Global,
        forward: bool,
        owner: &QName,
        name: &Name,
    ) -> Result<bool, AllocError>
        ensures { IfOk result (λ r. r ≡ head_twice forward (bound_before (map seen (reverse self.now)) owner.now name.now)) }
    {
        let key = key_of(alloc, name, owner.object.as_bytes())?;
        Ok(is_after(forward, self.latest.find(key.as_bytes())))
    }
}
