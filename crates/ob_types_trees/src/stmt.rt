//! Statements of checked trees.

ghost use Rattle.std.specs.Prelude.{◌≡◌, [], ◌∷◌, ◌++◌, IfOk, OnOk, OnErr};
ghost use Rattle.std.specs.Option.{option_map};
ghost use Rattle.ob_types.specs.declared.typed.TypedStmt.TheVariants as s;
ghost use Rattle.ob_types.specs.declared.typed.TypedBranch.{roll-TypedBranch};
ghost use Rattle.ob_types.specs.declared.typed.TypedCase.{roll-TypedCase};

use crate::designator::DesignatorTree;
use crate::destructors::{destroy_branches, destroy_cases, destroy_stmt, destroy_stmts};
use crate::expr::ExprTree;
use ob_tree::{List, Pos};
use ob_types::{
    Assigned, Label, Made, TypeRef, TypedBranch, TypedCase, TypedExpr, TypedStmt, Update, Variable,
    Width,
};
use std::alloc::{AllocError, Global};

/// A statement.
pub struct StmtTree {
    pub inner: TypedStmt,
}

impl Drop for StmtTree {
    fn drop(self) {
        let StmtTree { inner } = self;
        destroy_stmt(inner);
    }
}

/// Statements in a row.
pub struct StmtTrees {
    pub inner: List<TypedStmt>,
}

impl Drop for StmtTrees {
    fn drop(self) {
        let StmtTrees { inner } = self;
        destroy_stmts(inner);
    }
}

/// Branches in a row.
pub struct BranchTrees {
    pub inner: List<TypedBranch>,
}

impl Drop for BranchTrees {
    fn drop(self) {
        let BranchTrees { inner } = self;
        destroy_branches(inner);
    }
}

/// The alternatives of a CASE in a row.
pub struct CaseTrees {
    pub inner: List<TypedCase>,
}

impl Drop for CaseTrees {
    fn drop(self) {
        let CaseTrees { inner } = self;
        destroy_cases(inner);
    }
}

impl StmtTrees {
    pub fn into_inner(self) -> List<TypedStmt>
        ensures { result ≡ self.inner }
    {
        let StmtTrees { inner } = self;
        inner
    }

    pub fn new(alloc: Global) -> StmtTrees
        ensures { result.inner ≡ [] }
    {
        StmtTrees {
            inner: List::new(alloc),
        }
    }

    /// A single one.
    pub fn one(alloc: Global, only: StmtTree) -> Result<StmtTrees, AllocError>
        ensures { IfOk result (λ t. t.inner ≡ only.inner ∷ []) }
    {
        let mut all = StmtTrees::new(alloc);
        all.push(only)?;
        Ok(all)
    }

    /// More of them, at the end.
    pub fn append(&mut self, more: StmtTrees) -> Result<(), AllocError>
        ensures ok { OnOk result (self.new.inner ≡ self.old.inner ++ more.inner) }
        ensures err { OnErr result (self.new.inner ≡ self.old.inner) }
    {
        self.inner.append(more.into_inner())
    }

    /// One more, at the end.
    pub fn push(&mut self, one: StmtTree) -> Result<(), AllocError>
        ensures ok { OnOk result (self.new.inner ≡ self.old.inner ++ one.inner ∷ []) }
        ensures err { OnErr result (self.new.inner ≡ self.old.inner) }
    {
        self.inner.push(one.into_inner())
    }
}

impl BranchTrees {
    pub fn into_inner(self) -> List<TypedBranch>
        ensures { result ≡ self.inner }
    {
        let BranchTrees { inner } = self;
        inner
    }

    pub fn new(alloc: Global) -> BranchTrees
        ensures { result.inner ≡ [] }
    {
        BranchTrees {
            inner: List::new(alloc),
        }
    }

    /// One more, at the end.
    pub fn push(&mut self, test: ExprTree, body: StmtTrees) -> Result<(), AllocError>
        ensures ok { OnOk result (self.new.inner ≡ self.old.inner ++ roll-TypedBranch (record { test = test.inner; body = body.inner }) ∷ []) }
        ensures err { OnErr result (self.new.inner ≡ self.old.inner) }
    {
        self.inner.push(TypedBranch {
            test: test.into_inner(),
            body: body.into_inner(),
        })
    }
}

impl CaseTrees {
    pub fn into_inner(self) -> List<TypedCase>
        ensures { result ≡ self.inner }
    {
        let CaseTrees { inner } = self;
        inner
    }

    pub fn new(alloc: Global) -> CaseTrees
        ensures { result.inner ≡ [] }
    {
        CaseTrees {
            inner: List::new(alloc),
        }
    }

    /// One more, at the end.
    pub fn push(&mut self, labels: List<Label>, body: StmtTrees) -> Result<(), AllocError>
        ensures ok { OnOk result (self.new.inner ≡ self.old.inner ++ roll-TypedCase (record { labels = labels; body = body.inner }) ∷ []) }
        ensures err { OnErr result (self.new.inner ≡ self.old.inner) }
    {
        self.inner.push(TypedCase {
            labels,
            body: body.into_inner(),
        })
    }
}

fn statements(trees: Option<StmtTrees>) -> Option<List<TypedStmt>>
    ensures { result ≡ option_map (λ t. t.inner) trees }
{
    match trees {
        None => None,
        Some(trees) => Some(trees.into_inner()),
    }
}

fn expression(tree: Option<ExprTree>) -> Option<TypedExpr>
    ensures { result ≡ option_map (λ t. t.inner) tree }
{
    match tree {
        None => None,
        Some(tree) => Some(tree.into_inner()),
    }
}

impl StmtTree {
    pub fn into_inner(self) -> TypedStmt
        ensures { result ≡ self.inner }
    {
        let StmtTree { inner } = self;
        inner
    }

    pub fn assign(target: DesignatorTree, assigned: Assigned, value: ExprTree, pos: Pos) -> StmtTree
        ensures { result.inner ≡ s.Assign target.inner assigned value.inner «pos» }
    {
        StmtTree {
            inner: TypedStmt::Assign {
                target: target.into_inner(),
                assigned,
                value: value.into_inner(),
                pos,
            },
        }
    }

    pub fn call(call: ExprTree) -> StmtTree
        ensures { result.inner ≡ s.Call call.inner }
    {
        StmtTree {
            inner: TypedStmt::Call(call.into_inner()),
        }
    }

    pub fn update(op: Update, target: DesignatorTree, operand: ExprTree, pos: Pos) -> StmtTree
        ensures { result.inner ≡ s.Update op target.inner operand.inner «pos» }
    {
        StmtTree {
            inner: TypedStmt::Update {
                op,
                target: target.into_inner(),
                operand: operand.into_inner(),
                pos,
            },
        }
    }

    pub fn copy(source: ExprTree, target: DesignatorTree, pos: Pos) -> StmtTree
        ensures { result.inner ≡ s.Copy source.inner target.inner «pos» }
    {
        StmtTree {
            inner: TypedStmt::Copy {
                source: source.into_inner(),
                target: target.into_inner(),
                pos,
            },
        }
    }

    pub fn new(target: DesignatorTree, made: Made, pos: Pos) -> StmtTree
        ensures { result.inner ≡ s.New target.inner made «pos» }
    {
        StmtTree {
            inner: TypedStmt::New {
                target: target.into_inner(),
                made,
                pos,
            },
        }
    }

    pub fn new_open_array(
        target: DesignatorTree,
        element: TypeRef,
        length: ExprTree,
        pos: Pos,
    ) -> StmtTree
        ensures { result.inner ≡ s.NewOpenArray target.inner element length.inner «pos» }
    {
        StmtTree {
            inner: TypedStmt::NewOpenArray {
                target: target.into_inner(),
                element,
                length: length.into_inner(),
                pos,
            },
        }
    }

    pub fn assert(condition: ExprTree, number: i32, pos: Pos) -> StmtTree
        ensures { result.inner ≡ s.Assert condition.inner number «pos» }
    {
        StmtTree {
            inner: TypedStmt::Assert {
                condition: condition.into_inner(),
                number,
                pos,
            },
        }
    }

    pub fn halt(number: i32, pos: Pos) -> StmtTree
        ensures { result.inner ≡ s.Halt number «pos» }
    {
        StmtTree {
            inner: TypedStmt::Halt { number, pos },
        }
    }

    /// IF.
    pub fn choice(branches: BranchTrees, otherwise: StmtTrees) -> StmtTree
        ensures { result.inner ≡ s.If branches.inner otherwise.inner }
    {
        StmtTree {
            inner: TypedStmt::If {
                branches: branches.into_inner(),
                otherwise: otherwise.into_inner(),
            },
        }
    }

    pub fn case(
        value: ExprTree,
        cases: CaseTrees,
        otherwise: Option<StmtTrees>,
        pos: Pos,
    ) -> StmtTree
        ensures { result.inner ≡ s.Case value.inner cases.inner (option_map (λ t. t.inner) otherwise) «pos» }
    {
        StmtTree {
            inner: TypedStmt::Case {
                value: value.into_inner(),
                cases: cases.into_inner(),
                otherwise: statements(otherwise),
                pos,
            },
        }
    }

    /// WHILE.
    pub fn while_loop(test: ExprTree, body: StmtTrees, pos: Pos) -> StmtTree
        ensures { result.inner ≡ s.While test.inner body.inner «pos» }
    {
        StmtTree {
            inner: TypedStmt::While {
                test: test.into_inner(),
                body: body.into_inner(),
                pos,
            },
        }
    }

    pub fn repeat(body: StmtTrees, test: ExprTree, pos: Pos) -> StmtTree
        ensures { result.inner ≡ s.Repeat body.inner test.inner «pos» }
    {
        StmtTree {
            inner: TypedStmt::Repeat {
                body: body.into_inner(),
                test: test.into_inner(),
                pos,
            },
        }
    }

    /// FOR.
    pub fn for_loop(
        variable: Variable,
        width: Width,
        start: ExprTree,
        end: ExprTree,
        step: i32,
        body: StmtTrees,
        pos: Pos,
    ) -> StmtTree
        ensures { result.inner ≡ s.For variable width start.inner end.inner step body.inner «pos» }
    {
        StmtTree {
            inner: TypedStmt::For {
                variable,
                width,
                start: start.into_inner(),
                end: end.into_inner(),
                step,
                body: body.into_inner(),
                pos,
            },
        }
    }

    /// LOOP.
    pub fn endless(body: StmtTrees, pos: Pos) -> StmtTree
        ensures { result.inner ≡ s.Loop body.inner «pos» }
    {
        StmtTree {
            inner: TypedStmt::Loop {
                body: body.into_inner(),
                pos,
            },
        }
    }

    pub fn exit() -> StmtTree
        ensures { result.inner ≡ s.Exit }
    {
        StmtTree {
            inner: TypedStmt::Exit,
        }
    }

    /// RETURN.
    pub fn leave(value: Option<ExprTree>) -> StmtTree
        ensures { result.inner ≡ s.Return (option_map (λ t. t.inner) value) }
    {
        StmtTree {
            inner: TypedStmt::Return(expression(value)),
        }
    }

    pub fn with(branches: BranchTrees, otherwise: Option<StmtTrees>, pos: Pos) -> StmtTree
        ensures { result.inner ≡ s.With branches.inner (option_map (λ t. t.inner) otherwise) «pos» }
    {
        StmtTree {
            inner: TypedStmt::With {
                branches: branches.into_inner(),
                otherwise: statements(otherwise),
                pos,
            },
        }
    }
}
