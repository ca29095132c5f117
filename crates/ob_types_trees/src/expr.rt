//! Expressions of checked trees.

ghost use Rattle.std.specs.Prelude.{◌≡◌, [], ◌∷◌, ◌++◌, IfOk, OnOk, OnErr};
ghost use Rattle.ob_types.specs.declared.typed.TypedExpr.TheVariants as e;
ghost use Rattle.ob_types.specs.declared.typed.Actual.{roll-Actual};

use crate::designator::DesignatorTree;
use crate::destructors::{destroy_actuals, destroy_expr};
use ob_tree::{Boxed, List, Pos, QName};
use ob_types::{
    Actual, Binary, Callee, Comparison, Connective, Passing, Signature, TypeRef, TypedExpr, Unary,
    Value,
};
use std::alloc::{AllocError, Global};

/// An expression.
pub struct ExprTree {
    pub inner: TypedExpr,
}

impl Drop for ExprTree {
    fn drop(self) {
        let ExprTree { inner } = self;
        destroy_expr(inner);
    }
}

impl ExprTree {
    pub fn into_inner(self) -> TypedExpr
        ensures { result ≡ self.inner }
    {
        let ExprTree { inner } = self;
        inner
    }

    pub fn constant(value: Value) -> ExprTree
        ensures { result.inner ≡ e.Constant value }
    {
        ExprTree {
            inner: TypedExpr::Constant(value),
        }
    }

    pub fn designator(designator: DesignatorTree) -> ExprTree
        ensures { result.inner ≡ e.Designator designator.inner }
    {
        ExprTree {
            inner: TypedExpr::Designator(designator.into_inner()),
        }
    }

    pub fn procedure(name: QName, signature: Signature) -> ExprTree
        ensures { result.inner ≡ e.Procedure name signature }
    {
        ExprTree {
            inner: TypedExpr::Procedure { name, signature },
        }
    }

    pub fn unary(
        alloc: Global,
        op: Unary,
        operand: ExprTree,
        pos: Pos,
    ) -> Result<ExprTree, AllocError>
        ensures { IfOk result (λ t. t.inner ≡ e.Unary op operand.inner «pos») }
    {
        let operand = Boxed::new(alloc, operand.into_inner())?;
        Ok(ExprTree {
            inner: TypedExpr::Unary { op, operand, pos },
        })
    }

    pub fn binary(
        alloc: Global,
        op: Binary,
        left: ExprTree,
        right: ExprTree,
        pos: Pos,
    ) -> Result<ExprTree, AllocError>
        ensures { IfOk result (λ t. t.inner ≡ e.Binary op left.inner right.inner «pos») }
    {
        let left = Boxed::new(alloc, left.into_inner())?;
        let right = Boxed::new(alloc, right.into_inner())?;
        Ok(ExprTree {
            inner: TypedExpr::Binary {
                op,
                left,
                right,
                pos,
            },
        })
    }

    pub fn logical(
        alloc: Global,
        connective: Connective,
        left: ExprTree,
        right: ExprTree,
    ) -> Result<ExprTree, AllocError>
        ensures { IfOk result (λ t. t.inner ≡ e.Logical connective left.inner right.inner) }
    {
        let left = Boxed::new(alloc, left.into_inner())?;
        let right = Boxed::new(alloc, right.into_inner())?;
        Ok(ExprTree {
            inner: TypedExpr::Logical {
                connective,
                left,
                right,
            },
        })
    }

    pub fn compare_texts(
        alloc: Global,
        comparison: Comparison,
        left: ExprTree,
        right: ExprTree,
        pos: Pos,
    ) -> Result<ExprTree, AllocError>
        ensures { IfOk result (λ t. t.inner ≡ e.CompareTexts comparison left.inner right.inner «pos») }
    {
        let left = Boxed::new(alloc, left.into_inner())?;
        let right = Boxed::new(alloc, right.into_inner())?;
        Ok(ExprTree {
            inner: TypedExpr::CompareTexts {
                comparison,
                left,
                right,
                pos,
            },
        })
    }

    pub fn is_pointer(
        alloc: Global,
        operand: ExprTree,
        target: QName,
    ) -> Result<ExprTree, AllocError>
        ensures { IfOk result (λ t. t.inner ≡ e.IsPointer operand.inner target) }
    {
        let operand = Boxed::new(alloc, operand.into_inner())?;
        Ok(ExprTree {
            inner: TypedExpr::IsPointer { operand, target },
        })
    }

    pub fn is_record(inner: DesignatorTree, target: QName) -> ExprTree
        ensures { result.inner ≡ e.IsRecord inner.inner target }
    {
        ExprTree {
            inner: TypedExpr::IsRecord {
                inner: inner.into_inner(),
                target,
            },
        }
    }

    pub fn length(designator: DesignatorTree) -> ExprTree
        ensures { result.inner ≡ e.Length designator.inner }
    {
        ExprTree {
            inner: TypedExpr::Length(designator.into_inner()),
        }
    }

    pub fn call(callee: Callee, actuals: ActualTrees, pos: Pos, of: Option<TypeRef>) -> ExprTree
        ensures { result.inner ≡ e.Call callee actuals.inner «pos» of }
    {
        ExprTree {
            inner: TypedExpr::Call {
                callee,
                actuals: actuals.into_inner(),
                pos,
                result: of,
            },
        }
    }

    pub fn call_variable(
        inner: DesignatorTree,
        actuals: ActualTrees,
        pos: Pos,
        of: Option<TypeRef>,
    ) -> ExprTree
        ensures { result.inner ≡ e.CallVariable inner.inner actuals.inner «pos» of }
    {
        ExprTree {
            inner: TypedExpr::CallVariable {
                inner: inner.into_inner(),
                actuals: actuals.into_inner(),
                pos,
                result: of,
            },
        }
    }
}

/// Actual parameters in a row.
pub struct ActualTrees {
    pub inner: List<Actual>,
}

impl Drop for ActualTrees {
    fn drop(self) {
        let ActualTrees { inner } = self;
        destroy_actuals(inner);
    }
}

impl ActualTrees {
    pub fn into_inner(self) -> List<Actual>
        ensures { result ≡ self.inner }
    {
        let ActualTrees { inner } = self;
        inner
    }

    pub fn new(alloc: Global) -> ActualTrees
        ensures { result.inner ≡ [] }
    {
        ActualTrees {
            inner: List::new(alloc),
        }
    }

    /// One more, at the end.
    pub fn push(
        &mut self,
        passing: Passing,
        formal: TypeRef,
        value: ExprTree,
    ) -> Result<(), AllocError>
        ensures ok { OnOk result (self.new.inner ≡ self.old.inner ++ roll-Actual (record { passing = passing; formal = formal; value = value.inner }) ∷ []) }
        ensures err { OnErr result (self.new.inner ≡ self.old.inner) }
    {
        self.inner.push(Actual {
            passing,
            formal,
            value: value.into_inner(),
        })
    }

    /// One before the others.
    pub fn after(
        alloc: Global,
        passing: Passing,
        formal: TypeRef,
        value: ExprTree,
        others: ActualTrees,
    ) -> Result<ActualTrees, AllocError>
        ensures { IfOk result (λ t. t.inner ≡ roll-Actual (record { passing = passing; formal = formal; value = value.inner }) ∷ others.inner) }
    {
        let mut all = ActualTrees::new(alloc);
        all.push(passing, formal, value)?;
        all.append(others)?;
        Ok(all)
    }

    /// More of them, at the end.
    pub fn append(&mut self, more: ActualTrees) -> Result<(), AllocError>
        ensures ok { OnOk result (self.new.inner ≡ self.old.inner ++ more.inner) }
        ensures err { OnErr result (self.new.inner ≡ self.old.inner) }
    {
        self.inner.append(more.into_inner())
    }
}
