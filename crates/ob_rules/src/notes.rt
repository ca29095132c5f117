//! The notes of a checker: what is broken, and what is named.

ghost use Rattle.std.specs.Prelude.{◌≡◌, None, OnOk, List as Listed};
ghost use Rattle.ob_rules.specs.declared.broken.Broken.{Broken as Mistake};
ghost use Rattle.ob_rules.specs.Judged as spec;
ghost use Rattle.ob_rules.specs.Books as books;

use crate::broken::{Broken, Rule, earlier};
use ob_tree::{Ident, List, ObjName, Pos, QName};
use ob_types::TypeRef;
use ob_types_trees::{DesignatorTree, DesignatorTrees};
use std::alloc::{AllocError, Global};

/// What can only be judged when more of the text is known.
#[derive(Drop)]
pub enum Later {
    /// The base of a pointer type of that name, which is declared later or a pointer itself,
    /// perhaps written at its place.
    PointsTo {
        pointer: ObjName,
        at: Pos,
        base: TypeRef,
        inline: bool,
    },
    /// A field of a record with a base.
    Inherits {
        field: Ident,
        base: TypeRef,
    },
}

/// What is noted while a text is checked: of what is broken the least alone; the objects of other
/// modules that it names; the types that MAX and MIN name; the designators of each LEN that is a
/// constant; and what is judged later.
#[derive(Drop)]
pub struct Notebook {
    pub broken: Option<Broken>,
    pub objects: List<QName>,
    pub types: List<TypeRef>,
    pub lengths: DesignatorTrees,
    pub later: List<Later>,
}

#[tactic(auto, using(crate::proofs::BookLaws::quiet_if, crate::proofs::BookLaws::loud_if))]
fn is_nothing(broken: Option<Broken>) -> bool
    ensures { (all : Listed Mistake) → broken ≡ spec.least all → result ≡ spec.is_quiet all }
{
    match broken {
        None => true,
        Some(_) => false,
    }
}

impl Notebook {
    pub fn new(alloc: Global) -> Notebook
        ensures { result ≡ books.empty_book }
    {
        Notebook {
            broken: None,
            objects: List::new(alloc),
            types: List::new(alloc),
            lengths: DesignatorTrees::new(alloc),
            later: List::new(alloc),
        }
    }

    /// The rule is broken there.
    #[tactic(auto, using(crate::proofs::BookLaws::after_broken))]
    pub fn breaks(&mut self, rule: Rule, at: Pos)
        ensures { self.new ≡ books.book_after self.old (spec.broken_at rule at) }
    {
        let broken = Some(Broken { rule, pos: at });
        self.broken = earlier(self.broken, broken);
    }

    /// The text names an object of another module.
    #[tactic(auto, using(crate::proofs::BookLaws::after_object))]
    pub fn name(&mut self, object: QName) -> Result<(), AllocError>
        ensures { OnOk result (self.new ≡ books.book_after self.old (spec.naming object)) }
    {
        self.objects.push(object)
    }

    /// MAX or MIN names a type.
    #[tactic(auto, using(crate::proofs::BookLaws::after_type))]
    pub fn name_type(&mut self, t: TypeRef) -> Result<(), AllocError>
        ensures { OnOk result (self.new ≡ books.book_after self.old (spec.naming_type t)) }
    {
        self.types.push(t)
    }

    /// A LEN that is a constant has this designator.
    #[tactic(auto, using(crate::proofs::BookLaws::after_length))]
    pub fn name_length(&mut self, designator: DesignatorTree) -> Result<(), AllocError>
        ensures { OnOk result (self.new ≡ books.book_after self.old (spec.naming_length designator.inner)) }
    {
        self.lengths.push(designator)
    }

    /// Something is judged later.
    #[tactic(auto, using(crate::proofs::BookLaws::after_later))]
    pub fn judge_later(&mut self, what: Later) -> Result<(), AllocError>
        ensures { OnOk result (self.new ≡ books.book_after self.old (spec.left_for_later what)) }
    {
        self.later.push(what)
    }

    /// Sets what is broken aside, until `put_back`.
    pub fn set_aside(&mut self) -> Option<Broken>
        ensures broken { result ≡ self.old.broken }
        ensures aside { self.new ≡ record self.old { broken = None } }
    {
        let before = self.broken;
        self.broken = None;
        before
    }

    /// Whether nothing was broken since `set_aside`.
    #[tactic(auto, using(crate::proofs::BookLaws::broken_since))]
    pub fn is_quiet(&self) -> bool
        ensures { (book : Notebook) (n : spec.Notes) → self.now ≡ books.book_after (record book { broken = None }) n → result ≡ spec.is_quiet n.broken }
    {
        is_nothing(self.broken)
    }

    /// Puts back what was set aside.
    #[tactic(auto, using(crate::proofs::BookLaws::put_back_before))]
    pub fn put_back(&mut self, before: Option<Broken>)
        ensures { (book : Notebook) (n : spec.Notes) → self.old ≡ books.book_after (record book { broken = None }) n → before ≡ book.broken → self.new ≡ books.book_after book n }
    {
        self.broken = earlier(before, self.broken);
    }
}

impl Notebook {
    /// The rule is broken there, if it is so.
    #[tactic(auto, using(crate::proofs::BookLaws::after_none))]
    pub fn breaks_if(&mut self, broken: bool, rule: Rule, at: Pos)
        ensures { self.new ≡ books.book_after self.old (spec.notes_if broken rule at) }
    {
        if broken {
            self.breaks(rule, at);
        }
    }

    /// The part itself where the condition holds; else the rule is broken there.
    #[tactic(auto, using(crate::proofs::BookLaws::after_none))]
    pub fn wants<A: Drop>(&mut self, holds: bool, rule: Rule, at: Pos, part: A) -> Option<A>
        ensures { books.Says (spec.wants holds rule at part) result self.old self.new }
    {
        if holds {
            return Some(part);
        }
        self.breaks(rule, at);
        None
    }

    /// The part itself unless the rule is broken there.
    #[tactic(auto, using(crate::proofs::BookLaws::after_none))]
    pub fn unless<A: Drop>(&mut self, broken: bool, rule: Rule, at: Pos, part: A) -> Option<A>
        ensures { books.Says (spec.unless broken rule at part) result self.old self.new }
    {
        if broken {
            self.breaks(rule, at);
            return None;
        }
        Some(part)
    }

    /// What there is; where there is nothing, the rule is broken there.
    #[tactic(auto, using(crate::proofs::BookLaws::after_none))]
    pub fn found_or<A: Drop>(&mut self, rule: Rule, at: Pos, part: Option<A>) -> Option<A>
        ensures { books.Says (spec.found_or rule at part) result self.old self.new }
    {
        if part.is_none() {
            self.breaks(rule, at);
        }
        part
    }
}
