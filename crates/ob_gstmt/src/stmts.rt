//! Code of statements.

ghost use Rattle.std.specs.Prelude.{◌≡◌, ◌<◌, ◌^◌, suc, OnOk, IfOk};
ghost use Rattle.ob_types.specs.TypedSyntax.{NoBranch, Branch, NoCase, OneCase};
ghost use Rattle.ob_types.specs.TypedView.{expr_view, stmt_view, stmts_view, branches_view, cases_view};
ghost use Rattle.ob_scheme.specs.Context.{Context};
ghost use Rattle.ob_scheme.specs.Coded.{Coded, appended, place_in};
ghost use Rattle.ob_scheme.specs.Statements.{stmt_code, stmts_code, branches_code, cases_code, next_stmt, next_stmts, next_branches, next_cases};

use crate::choices::{body_behind, put_labels, put_none_taken};
use crate::loops::{put_for_step, put_for_test, put_start, put_stored};
use crate::straight::{
    put_assert, put_assignment, put_copy, put_halt, put_new, put_new_open, put_return, put_update,
};
use ob_gexpr::put_expr;
use ob_gexpr_code::{Code, CodeFault, Scope, put_jump, put_jump_back};
use ob_gstmt_labels::end_stmt;
use ob_instr::Opcode;
use ob_scheme::Want;
use ob_trap::Trap;
use ob_types::{TypedBranch, TypedCase, TypedStmt};

// The word of a FOR or CASE, and behind it the next one's.
fn word_behind(hidden: u32) -> Result<u32, CodeFault>
    ensures is { IfOk result (λ n. n ≡ suc hidden) }
    ensures within { IfOk result (λ n. hidden < 2 ^ 30) }
{
    if hidden >= 1 << 30 {
        return Err(CodeFault::Beyond);
    }
    Ok(hidden + 1)
}

/// The code of a statement, behind the code so far. `exit` is the index behind the innermost
/// LOOP, and `hidden` the next word for FOR and CASE; the answer is the one behind the statement.
/// After a fault the code is given up.
#[cycle(put_stmt)]
pub fn put_stmt<S: Scope>(
    code: &mut Code,
    scope: &S,
    exit: usize,
    hidden: u32,
    s: &TypedStmt,
) -> Result<u32, CodeFault>
    ensures code { OnOk result (code.new ≡ appended code.old (stmt_code (S.context scope.now) (stmt_view s.now) (place_in code.old) hidden exit)) }
    ensures hidden { IfOk result (λ t. t ≡ next_stmt (S.context scope.now) (stmt_view s.now) hidden) }
{
    match s {
        TypedStmt::Assign {
            target,
            assigned,
            value,
            pos,
        } => {
            put_assignment(code, scope, target, assigned, value, *pos)?;
            Ok(hidden)
        }
        TypedStmt::Call(call) => {
            put_expr(code, scope, Want::Value, call)?;
            Ok(hidden)
        }
        TypedStmt::Update {
            op,
            target,
            operand,
            pos,
        } => {
            put_update(code, scope, *op, target, operand, *pos)?;
            Ok(hidden)
        }
        TypedStmt::Copy {
            source,
            target,
            pos,
        } => {
            put_copy(code, scope, source, target, *pos)?;
            Ok(hidden)
        }
        TypedStmt::New { target, made, pos } => {
            put_new(code, scope, target, made, *pos)?;
            Ok(hidden)
        }
        TypedStmt::NewOpenArray {
            target,
            element,
            length,
            pos,
        } => {
            put_new_open(code, scope, target, element, length, *pos)?;
            Ok(hidden)
        }
        TypedStmt::Assert {
            condition,
            number,
            pos,
        } => {
            put_assert(code, scope, condition, number, *pos)?;
            Ok(hidden)
        }
        TypedStmt::Halt { number, pos } => {
            put_halt(code, scope, number, *pos)?;
            Ok(hidden)
        }
        TypedStmt::If {
            branches,
            otherwise,
        } => {
            let end = end_stmt(scope, s, code.place())?;
            let next = put_branches(code, scope, exit, hidden, end, branches.as_slice())?;
            put_stmts(code, scope, exit, next, otherwise.as_slice())
        }
        TypedStmt::Case {
            value,
            cases,
            otherwise,
            pos,
        } => {
            let end = end_stmt(scope, s, code.place())?;
            let first = word_behind(hidden)?;
            put_stored(code, scope, hidden, value)?;
            let next = put_cases(code, scope, hidden, exit, first, end, cases.as_slice())?;
            match otherwise {
                None => {
                    put_none_taken(code, Trap::NoCase, *pos)?;
                    Ok(next)
                }
                Some(body) => put_stmts(code, scope, exit, next, body.as_slice()),
            }
        }
        TypedStmt::While { test, body, pos } => {
            let start = code.place();
            put_expr(code, scope, Want::Value, test)?;
            let over = code.place();
            put_jump(code, Opcode::JumpF, 0)?;
            let next = put_stmts(code, scope, exit, hidden, body.as_slice())?;
            put_jump_back(code, Opcode::Jump, start, *pos)?;
            code.aim(over, Opcode::JumpF)?;
            Ok(next)
        }
        TypedStmt::Repeat { body, test, pos } => {
            let start = code.place();
            let next = put_stmts(code, scope, exit, hidden, body.as_slice())?;
            put_expr(code, scope, Want::Value, test)?;
            put_jump_back(code, Opcode::JumpF, start, *pos)?;
            Ok(next)
        }
        TypedStmt::For {
            variable,
            width,
            start,
            end,
            step,
            body,
            pos,
        } => {
            let first = word_behind(hidden)?;
            put_stored(code, scope, hidden, end)?;
            put_start(code, scope, variable, start)?;
            let again = code.place();
            put_for_test(code, scope, variable, hidden, step)?;
            let over = code.place();
            put_jump(code, Opcode::JumpF, 0)?;
            let next = put_stmts(code, scope, exit, first, body.as_slice())?;
            put_for_step(code, scope, variable, *width, step, again, *pos)?;
            code.aim(over, Opcode::JumpF)?;
            Ok(next)
        }
        TypedStmt::Loop { body, pos } => {
            let start = code.place();
            let end = end_stmt(scope, s, start)?;
            let next = put_stmts(code, scope, end, hidden, body.as_slice())?;
            put_jump_back(code, Opcode::Jump, start, *pos)?;
            Ok(next)
        }
        TypedStmt::Exit => {
            put_jump(code, Opcode::Jump, exit)?;
            Ok(hidden)
        }
        TypedStmt::Return(value) => {
            put_return(code, scope, value)?;
            Ok(hidden)
        }
        TypedStmt::With {
            branches,
            otherwise,
            pos,
        } => {
            let end = end_stmt(scope, s, code.place())?;
            let next = put_branches(code, scope, exit, hidden, end, branches.as_slice())?;
            match otherwise {
                None => {
                    put_none_taken(code, Trap::NoMatch, *pos)?;
                    Ok(next)
                }
                Some(body) => put_stmts(code, scope, exit, next, body.as_slice()),
            }
        }
    }
}

/// The code of statements, behind the code so far, as `put_stmt` has it.
#[cycle(put_stmt)]
pub fn put_stmts<S: Scope>(
    code: &mut Code,
    scope: &S,
    exit: usize,
    hidden: u32,
    body: &[TypedStmt],
) -> Result<u32, CodeFault>
    ensures code { OnOk result (code.new ≡ appended code.old (stmts_code (S.context scope.now) (stmts_view body.now) (place_in code.old) hidden exit)) }
    ensures hidden { IfOk result (λ t. t ≡ next_stmts (S.context scope.now) (stmts_view body.now) hidden) }
{
    let mut next = hidden;
    'statements: for s in body {
        next = put_stmt(code, scope, exit, next, s)?;
    }
    Ok(next)
}

// A branch of IF or WITH, whose end is an index.
#[cycle(put_stmt)]
fn put_branch<S: Scope>(
    code: &mut Code,
    scope: &S,
    exit: usize,
    hidden: u32,
    end: usize,
    branch: &TypedBranch,
) -> Result<u32, CodeFault>
    ensures code { OnOk result (code.new ≡ appended code.old (branches_code (S.context scope.now) (Branch (expr_view branch.now.test) (stmts_view branch.now.body) NoBranch) (place_in code.old) hidden exit end)) }
    ensures hidden { IfOk result (λ t. t ≡ next_stmts (S.context scope.now) (stmts_view branch.now.body) hidden) }
{
    put_expr(code, scope, Want::Value, &branch.test)?;
    let over = code.place();
    put_jump(code, Opcode::JumpF, 0)?;
    let next = put_stmts(code, scope, exit, hidden, branch.body.as_slice())?;
    put_jump(code, Opcode::Jump, end)?;
    code.aim(over, Opcode::JumpF)?;
    Ok(next)
}

#[cycle(put_stmt)]
fn put_branches<S: Scope>(
    code: &mut Code,
    scope: &S,
    exit: usize,
    hidden: u32,
    end: usize,
    branches: &[TypedBranch],
) -> Result<u32, CodeFault>
    ensures code { OnOk result (code.new ≡ appended code.old (branches_code (S.context scope.now) (branches_view branches.now) (place_in code.old) hidden exit end)) }
    ensures hidden { IfOk result (λ t. t ≡ next_branches (S.context scope.now) (branches_view branches.now) hidden) }
{
    let mut next = hidden;
    'branches: for branch in branches {
        next = put_branch(code, scope, exit, next, end, branch)?;
    }
    Ok(next)
}

// A case of CASE, whose value is in a word, and whose end is an index.
#[cycle(put_stmt)]
fn put_case<S: Scope>(
    code: &mut Code,
    scope: &S,
    word: u32,
    exit: usize,
    hidden: u32,
    end: usize,
    labelled: &TypedCase,
) -> Result<u32, CodeFault>
    requires { word < 2 ^ 30 }
    ensures code { OnOk result (code.new ≡ appended code.old (cases_code (S.context scope.now) word (OneCase labelled.now.labels (stmts_view labelled.now.body) NoCase) (place_in code.old) hidden exit end)) }
    ensures hidden { IfOk result (λ t. t ≡ next_stmts (S.context scope.now) (stmts_view labelled.now.body) hidden) }
{
    let body = body_behind(code.place(), labelled.labels.len())?;
    put_labels(code, scope, word, labelled.labels.as_slice(), body)?;
    let over = code.place();
    put_jump(code, Opcode::Jump, 0)?;
    let next = put_stmts(code, scope, exit, hidden, labelled.body.as_slice())?;
    put_jump(code, Opcode::Jump, end)?;
    code.aim(over, Opcode::Jump)?;
    Ok(next)
}

#[cycle(put_stmt)]
fn put_cases<S: Scope>(
    code: &mut Code,
    scope: &S,
    word: u32,
    exit: usize,
    hidden: u32,
    end: usize,
    cases: &[TypedCase],
) -> Result<u32, CodeFault>
    requires { word < 2 ^ 30 }
    ensures code { OnOk result (code.new ≡ appended code.old (cases_code (S.context scope.now) word (cases_view cases.now) (place_in code.old) hidden exit end)) }
    ensures hidden { IfOk result (λ t. t ≡ next_cases (S.context scope.now) (cases_view cases.now) hidden) }
{
    let mut next = hidden;
    'cases: for labelled in cases {
        next = put_case(code, scope, word, exit, next, end, labelled)?;
    }
    Ok(next)
}
