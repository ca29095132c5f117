//! Designators of checked trees.

ghost use Rattle.std.specs.Prelude.{◌≡◌, [], ◌∷◌, ◌++◌, IfOk, OnOk, OnErr};
ghost use Rattle.ob_types.specs.declared.typed.Designator.TheVariants as d;

use crate::destructors::{destroy_designator, destroy_designators};
use crate::expr::ExprTree;
use ob_tree::{Boxed, CompactName, List, Pos, QName};
use ob_types::{Designator, Guarded, TypeRef, Variable};
use std::alloc::{AllocError, Global};

/// A designator.
pub struct DesignatorTree {
    pub inner: Designator,
}

impl Drop for DesignatorTree {
    fn drop(self) {
        let DesignatorTree { inner } = self;
        destroy_designator(inner);
    }
}

impl DesignatorTree {
    pub fn into_inner(self) -> Designator
        ensures { result ≡ self.inner }
    {
        let DesignatorTree { inner } = self;
        inner
    }

    pub fn variable(variable: Variable, of: TypeRef) -> DesignatorTree
        ensures { result.inner ≡ d.Variable variable of }
    {
        DesignatorTree {
            inner: Designator::Variable { variable, of },
        }
    }

    pub fn field(
        alloc: Global,
        inner: DesignatorTree,
        owner: QName,
        name: CompactName,
        of: TypeRef,
    ) -> Result<DesignatorTree, AllocError>
        ensures { IfOk result (λ t. t.inner ≡ d.Field inner.inner owner name of) }
    {
        let inner = Boxed::new(alloc, inner.into_inner())?;
        Ok(DesignatorTree {
            inner: Designator::Field {
                inner,
                owner,
                name,
                of,
            },
        })
    }

    pub fn index(
        alloc: Global,
        inner: DesignatorTree,
        length: Option<u32>,
        index: ExprTree,
        pos: Pos,
        of: TypeRef,
    ) -> Result<DesignatorTree, AllocError>
        ensures { IfOk result (λ t. t.inner ≡ d.Index inner.inner length index.inner «pos» of) }
    {
        let inner = Boxed::new(alloc, inner.into_inner())?;
        let index = Boxed::new(alloc, index.into_inner())?;
        Ok(DesignatorTree {
            inner: Designator::Index {
                inner,
                length,
                index,
                pos,
                of,
            },
        })
    }

    pub fn deref(
        alloc: Global,
        inner: DesignatorTree,
        pos: Pos,
        of: TypeRef,
    ) -> Result<DesignatorTree, AllocError>
        ensures { IfOk result (λ t. t.inner ≡ d.Deref inner.inner «pos» of) }
    {
        let inner = Boxed::new(alloc, inner.into_inner())?;
        Ok(DesignatorTree {
            inner: Designator::Deref { inner, pos, of },
        })
    }

    pub fn guard(
        alloc: Global,
        inner: DesignatorTree,
        guarded: Guarded,
        target: QName,
        pos: Pos,
        of: TypeRef,
    ) -> Result<DesignatorTree, AllocError>
        ensures { IfOk result (λ t. t.inner ≡ d.Guard inner.inner guarded target «pos» of) }
    {
        let inner = Boxed::new(alloc, inner.into_inner())?;
        Ok(DesignatorTree {
            inner: Designator::Guard {
                inner,
                guarded,
                target,
                pos,
                of,
            },
        })
    }
}

/// Designators in a row.
pub struct DesignatorTrees {
    pub inner: List<Designator>,
}

impl Drop for DesignatorTrees {
    fn drop(self) {
        let DesignatorTrees { inner } = self;
        destroy_designators(inner);
    }
}

impl DesignatorTrees {
    pub fn into_inner(self) -> List<Designator>
        ensures { result ≡ self.inner }
    {
        let DesignatorTrees { inner } = self;
        inner
    }

    pub fn new(alloc: Global) -> DesignatorTrees
        ensures { result.inner ≡ [] }
    {
        DesignatorTrees {
            inner: List::new(alloc),
        }
    }

    /// One more, at the end.
    pub fn push(&mut self, one: DesignatorTree) -> Result<(), AllocError>
        ensures ok { OnOk result (self.new.inner ≡ self.old.inner ++ one.inner ∷ []) }
        ensures err { OnErr result (self.new.inner ≡ self.old.inner) }
    {
        self.inner.push(one.into_inner())
    }

    /// More of them, at the end.
    pub fn append(&mut self, more: DesignatorTrees) -> Result<(), AllocError>
        ensures ok { OnOk result (self.new.inner ≡ self.old.inner ++ more.inner) }
        ensures err { OnErr result (self.new.inner ≡ self.old.inner) }
    {
        self.inner.append(more.into_inner())
    }
}
