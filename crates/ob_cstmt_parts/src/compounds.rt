//! Compound statements of their parts.

ghost use Rattle.std.specs.Prelude.{◌≡◌, IfOk};
ghost use Rattle.std.specs.Option.{option_map};
ghost use Rattle.ob_types.specs.declared.typed.TypedStmt.TheVariants as stmt;
ghost use Rattle.ob_rules.specs.Judged.{if_sound, paired};
ghost use Rattle.ob_rules.specs.Statements as spec;
ghost use Rattle.ob_rules.specs.Values as values;
ghost use Rattle.ob_cstmt_parts.specs.Seen.{branches_in, cases_in, else_in, expr_in, stmt_in, stmts_in};

use ob_cexpr_name::tree_of;
use ob_rules::Valued;
use ob_tree::Pos;
use ob_types_trees::{BranchTrees, CaseTrees, ExprTree, StmtTree, StmtTrees};
use std::alloc::Global;

fn or_empty(alloc: Global, otherwise: Option<StmtTrees>) -> StmtTrees
    ensures { result.inner ≡ spec.empty_if_none (option_map (λ t. t.inner) otherwise) }
{
    match otherwise {
        None => StmtTrees::new(alloc),
        Some(otherwise) => otherwise,
    }
}

/// IF of its parts, where they are sound. Takes no memory.
pub fn if_made(
    alloc: Global,
    branches: Option<BranchTrees>,
    otherwise: Option<Option<StmtTrees>>,
) -> Option<StmtTree>
    ensures { stmt_in result ≡ (if_sound (paired (branches_in branches) (else_in otherwise)) (λ p. spec.one (stmt.If p.0 (spec.empty_if_none p.1)))).node }
{
    match branches {
        None => None,
        Some(branches) => match otherwise {
            None => None,
            Some(otherwise) => Some(StmtTree::choice(branches, or_empty(alloc, otherwise))),
        },
    }
}

/// CASE of its parts, where they are sound. Takes no memory.
pub fn case_made(
    at: Pos,
    value: Option<Valued>,
    cases: Option<CaseTrees>,
    otherwise: Option<Option<StmtTrees>>,
) -> Option<StmtTree>
    ensures { stmt_in result ≡ (if_sound (paired value (paired (cases_in cases) (else_in otherwise))) (λ p. spec.one (stmt.Case (values.tree p.0) p.1.0 p.1.1 at))).node }
{
    match value {
        None => None,
        Some(value) => match cases {
            None => None,
            Some(cases) => match otherwise {
                None => None,
                Some(otherwise) => Some(StmtTree::case(tree_of(value), cases, otherwise, at)),
            },
        },
    }
}

/// WHILE of its parts, where they are sound. Takes no memory.
pub fn while_made(at: Pos, test: Option<ExprTree>, body: Option<StmtTrees>) -> Option<StmtTree>
    ensures { stmt_in result ≡ (if_sound (paired (expr_in test) (stmts_in body)) (λ p. spec.one (stmt.While p.0 p.1 at))).node }
{
    match test {
        None => None,
        Some(test) => match body {
            None => None,
            Some(body) => Some(StmtTree::while_loop(test, body, at)),
        },
    }
}

/// REPEAT of its parts, where they are sound. Takes no memory.
pub fn repeat_made(at: Pos, body: Option<StmtTrees>, test: Option<ExprTree>) -> Option<StmtTree>
    ensures { stmt_in result ≡ (if_sound (paired (stmts_in body) (expr_in test)) (λ p. spec.one (stmt.Repeat p.0 p.1 at))).node }
{
    match body {
        None => None,
        Some(body) => match test {
            None => None,
            Some(test) => Some(StmtTree::repeat(body, test, at)),
        },
    }
}

/// LOOP of its body, where that is sound. Takes no memory.
pub fn loop_made(at: Pos, body: Option<StmtTrees>) -> Option<StmtTree>
    ensures { stmt_in result ≡ (if_sound (stmts_in body) (λ b. spec.one (stmt.Loop b at))).node }
{
    match body {
        None => None,
        Some(body) => Some(StmtTree::endless(body, at)),
    }
}

/// WITH of its parts, where they are sound. Takes no memory.
pub fn with_made(
    at: Pos,
    branches: Option<BranchTrees>,
    otherwise: Option<Option<StmtTrees>>,
) -> Option<StmtTree>
    ensures { stmt_in result ≡ (if_sound (paired (branches_in branches) (else_in otherwise)) (λ p. spec.one (stmt.With p.0 p.1 at))).node }
{
    match branches {
        None => None,
        Some(branches) => match otherwise {
            None => None,
            Some(otherwise) => Some(StmtTree::with(branches, otherwise, at)),
        },
    }
}
