//! The walk over statements: each part is judged once, and what it says is noted before what stands
//! behind it is looked at.

ghost use Rattle.std.specs.Prelude.{◌≡◌, [], IfOk, OnOk, map};
ghost use Rattle.std.specs.Option.{option_map};
ghost use Rattle.ob_rules.specs.Books.{book_after};
ghost use Rattle.ob_rules.specs.Expressions as exprs;
ghost use Rattle.ob_rules.specs.Statements as spec;
ghost use Rattle.ob_cstmt_parts.specs.Seen.{branches_in, cases_in, else_in, stmts_in};

use crate::conditions::condition;
use crate::guards::check_guard;
use crate::labels::{boxed_case_value, case_selects, check_labels};
use crate::loops::{check_bound, check_step_if};
use crate::single::{
    assignment_alone, call_alone, case_alone, exit_alone, if_alone, return_alone, with_alone,
};
use ob_cexpr_name::types;
use ob_cexpr_trait::CheckExpr;
use ob_cstmt_parts::{
    alone, for_if, for_variable, loop_made, repeat_made, some_stmts, test_tree, tested_type,
    variable_meant, while_made, with_branch, with_case, with_stmts,
};
use ob_rules::{Notebook, Selects, Surroundings};
use ob_tree::{Boxed, Branch, Case, Expr, GuardedBranch, Ident, List, Pos, Stmt};
use ob_types::{TypeRef, Variable};
use ob_types_trees::{BranchTrees, CaseTrees, StmtTrees};
use std::alloc::{AllocError, Global};

/// Statements in turn: none where one breaks a rule, or a declaration that it names does. What is
/// broken, and what they name, is noted in the book. What stands around is in the end as it was.
#[cycle(walk)]
pub fn check_stmts<S: Surroundings, C: CheckExpr>(
    alloc: Global,
    checker: &C,
    here: &mut S,
    book: &mut Notebook,
    stmts: &[Stmt],
) -> Result<Option<StmtTrees>, AllocError>
    ensures made { IfOk result (λ r. stmts_in r ≡ (spec.in_turn (map spec.judging stmts.now) (S.around here.old)).node) }
    ensures noted { OnOk result (book.new ≡ book_after book.old (spec.in_turn (map spec.judging stmts.now) (S.around here.old)).notes) }
    ensures around { OnOk result (S.around here.new ≡ S.around here.old) }
{
    let mut all = Some(StmtTrees::new(alloc));
    'stmts: for stmt in stmts {
        let made = check_stmt(alloc, checker, here, book, stmt)?;
        all = with_stmts(all, made)?;
    }
    Ok(all)
}

#[cycle(walk)]
fn check_stmt<S: Surroundings, C: CheckExpr>(
    alloc: Global,
    checker: &C,
    here: &mut S,
    book: &mut Notebook,
    stmt: &Stmt,
) -> Result<Option<StmtTrees>, AllocError>
    ensures made { IfOk result (λ r. stmts_in r ≡ (spec.judging stmt.now (S.around here.old)).node) }
    ensures noted { OnOk result (book.new ≡ book_after book.old (spec.judging stmt.now (S.around here.old)).notes) }
    ensures around { OnOk result (S.around here.new ≡ S.around here.old) }
{
    match stmt {
        Stmt::Empty => Ok(Some(StmtTrees::new(alloc))),
        Stmt::Call(designator) => call_alone(alloc, checker, here, book, designator),
        Stmt::Assign { target, pos, value } => {
            assignment_alone(alloc, checker, here, book, target, *pos, value)
        }
        Stmt::If {
            branches,
            otherwise,
            ..
        } => {
            let branches = check_branches(alloc, checker, here, book, branches.as_slice())?;
            let otherwise = check_otherwise(alloc, checker, here, book, otherwise)?;
            if_alone(alloc, branches, otherwise)
        }
        Stmt::Case {
            pos,
            value,
            cases,
            otherwise,
        } => {
            let value = boxed_case_value(alloc, checker, here, book, value.get())?;
            let selects = case_selects(types(here), &value);
            let cases = check_cases(alloc, checker, here, book, cases.as_slice(), selects)?;
            let otherwise = check_otherwise(alloc, checker, here, book, otherwise)?;
            case_alone(alloc, *pos, value, cases, otherwise)
        }
        Stmt::While { pos, test, body } => {
            check_while(alloc, checker, here, book, body.as_slice(), *pos, test)
        }
        Stmt::Repeat { pos, body, test } => {
            check_repeat(alloc, checker, here, book, body.as_slice(), *pos, test)
        }
        Stmt::For {
            pos,
            variable,
            start,
            end,
            step,
            body,
        } => check_for(
            alloc,
            checker,
            here,
            book,
            body.as_slice(),
            *pos,
            &variable.ident(),
            start,
            end,
            step,
        ),
        Stmt::Loop { pos, body } => check_loop(alloc, checker, here, book, body.as_slice(), *pos),
        Stmt::Exit(pos) => exit_alone(alloc, here, book, *pos),
        Stmt::Return { pos, value } => return_alone(alloc, checker, here, book, *pos, value),
        Stmt::With {
            pos,
            branches,
            otherwise,
        } => {
            let branches = check_guarded(alloc, checker, here, book, branches.as_slice())?;
            let otherwise = check_otherwise(alloc, checker, here, book, otherwise)?;
            with_alone(alloc, *pos, branches, otherwise)
        }
    }
}

// WHILE.
#[cycle(walk)]
fn check_while<S: Surroundings, C: CheckExpr>(
    alloc: Global,
    checker: &C,
    here: &mut S,
    book: &mut Notebook,
    body: &[Stmt],
    at: Pos,
    test: &Expr,
) -> Result<Option<StmtTrees>, AllocError>
    ensures made { IfOk result (λ r. stmts_in r ≡ (spec.while_statement at (exprs.phrase_of test.now) (map spec.judging body.now) (S.around here.old)).node) }
    ensures noted { OnOk result (book.new ≡ book_after book.old (spec.while_statement at (exprs.phrase_of test.now) (map spec.judging body.now) (S.around here.old)).notes) }
    ensures around { OnOk result (S.around here.new ≡ S.around here.old) }
{
    let tested = condition(alloc, checker, here, book, test)?;
    let repeated = check_stmts(alloc, checker, here, book, body)?;
    alone(alloc, while_made(at, tested, repeated))
}

// REPEAT.
#[cycle(walk)]
fn check_repeat<S: Surroundings, C: CheckExpr>(
    alloc: Global,
    checker: &C,
    here: &mut S,
    book: &mut Notebook,
    body: &[Stmt],
    at: Pos,
    test: &Expr,
) -> Result<Option<StmtTrees>, AllocError>
    ensures made { IfOk result (λ r. stmts_in r ≡ (spec.repeat_statement at (map spec.judging body.now) (exprs.phrase_of test.now) (S.around here.old)).node) }
    ensures noted { OnOk result (book.new ≡ book_after book.old (spec.repeat_statement at (map spec.judging body.now) (exprs.phrase_of test.now) (S.around here.old)).notes) }
    ensures around { OnOk result (S.around here.new ≡ S.around here.old) }
{
    let repeated = check_stmts(alloc, checker, here, book, body)?;
    let tested = condition(alloc, checker, here, book, test)?;
    alone(alloc, repeat_made(at, repeated, tested))
}

// FOR.
#[cycle(walk)]
fn check_for<S: Surroundings, C: CheckExpr>(
    alloc: Global,
    checker: &C,
    here: &mut S,
    book: &mut Notebook,
    body: &[Stmt],
    at: Pos,
    variable: &Ident,
    start: &Boxed<Expr>,
    end: &Boxed<Expr>,
    step: &Option<Boxed<Expr>>,
) -> Result<Option<StmtTrees>, AllocError>
    ensures made { IfOk result (λ r. stmts_in r ≡ (spec.for (S.around here.old) at variable.now (exprs.phrase_of start.now) (exprs.phrase_of end.now) (spec.phrase_if step.now) (map spec.judging body.now)).node) }
    ensures noted { OnOk result (book.new ≡ book_after book.old (spec.for (S.around here.old) at variable.now (exprs.phrase_of start.now) (exprs.phrase_of end.now) (spec.phrase_if step.now) (map spec.judging body.now)).notes) }
    ensures around { OnOk result (S.around here.new ≡ S.around here.old) }
{
    let place = for_variable(alloc, here, book, at, variable)?;
    let first = check_bound(alloc, checker, here, book, at, place.as_ref(), start)?;
    let last = check_bound(alloc, checker, here, book, at, place.as_ref(), end)?;
    let by = check_step_if(alloc, checker, here, book, at, step)?;
    let repeated = check_stmts(alloc, checker, here, book, body)?;
    alone(
        alloc,
        for_if(types(here), at, place, first, last, by, repeated),
    )
}

// The statements behind ELSE, if it is there.
#[cycle(walk)]
fn check_otherwise<S: Surroundings, C: CheckExpr>(
    alloc: Global,
    checker: &C,
    here: &mut S,
    book: &mut Notebook,
    otherwise: &Option<List<Stmt>>,
) -> Result<Option<Option<StmtTrees>>, AllocError>
    ensures made { IfOk result (λ r. else_in r ≡ (spec.in_turn_if (option_map (λ b. map spec.judging b) otherwise.now) (S.around here.old)).node) }
    ensures noted { OnOk result (book.new ≡ book_after book.old (spec.in_turn_if (option_map (λ b. map spec.judging b) otherwise.now) (S.around here.old)).notes) }
    ensures around { OnOk result (S.around here.new ≡ S.around here.old) }
{
    match otherwise {
        None => Ok(Some(None)),
        Some(body) => {
            let made = check_stmts(alloc, checker, here, book, body.as_slice())?;
            Ok(some_stmts(made))
        }
    }
}

// The branches of IF.
#[cycle(walk)]
fn check_branches<S: Surroundings, C: CheckExpr>(
    alloc: Global,
    checker: &C,
    here: &mut S,
    book: &mut Notebook,
    branches: &[Branch],
) -> Result<Option<BranchTrees>, AllocError>
    ensures made { IfOk result (λ r. branches_in r ≡ (spec.conditionals (S.around here.old) (map spec.conditional_of branches.now)).node) }
    ensures noted { OnOk result (book.new ≡ book_after book.old (spec.conditionals (S.around here.old) (map spec.conditional_of branches.now)).notes) }
    ensures around { OnOk result (S.around here.new ≡ S.around here.old) }
{
    let mut all = Some(BranchTrees::new(alloc));
    'branches: for branch in branches {
        let test = condition(alloc, checker, here, book, &branch.test)?;
        let body = check_stmts(alloc, checker, here, book, branch.body.as_slice())?;
        all = with_branch(all, test, body)?;
    }
    Ok(all)
}

// The alternatives of CASE.
#[cycle(walk)]
fn check_cases<S: Surroundings, C: CheckExpr>(
    alloc: Global,
    checker: &C,
    here: &mut S,
    book: &mut Notebook,
    cases: &[Case],
    selects: Option<Selects>,
) -> Result<Option<CaseTrees>, AllocError>
    ensures made { IfOk result (λ r. cases_in r ≡ (spec.cases (S.around here.old) selects [] (map spec.labelled_of cases.now)).node) }
    ensures noted { OnOk result (book.new ≡ book_after book.old (spec.cases (S.around here.old) selects [] (map spec.labelled_of cases.now)).notes) }
    ensures around { OnOk result (S.around here.new ≡ S.around here.old) }
{
    let mut all = Some(CaseTrees::new(alloc));
    let mut before = List::new(alloc);
    'cases: for case in cases {
        let labels = check_labels(
            alloc,
            checker,
            here,
            book,
            selects,
            &mut before,
            case.labels.as_slice(),
        )?;
        let body = check_stmts(alloc, checker, here, book, case.body.as_slice())?;
        all = with_case(all, labels, body)?;
    }
    Ok(all)
}

// The branches of WITH.
#[cycle(walk)]
fn check_guarded<S: Surroundings, C: CheckExpr>(
    alloc: Global,
    checker: &C,
    here: &mut S,
    book: &mut Notebook,
    branches: &[GuardedBranch],
) -> Result<Option<BranchTrees>, AllocError>
    ensures made { IfOk result (λ r. branches_in r ≡ (spec.with_branches (S.around here.old) (map spec.guarded_of branches.now)).node) }
    ensures noted { OnOk result (book.new ≡ book_after book.old (spec.with_branches (S.around here.old) (map spec.guarded_of branches.now)).notes) }
    ensures around { OnOk result (S.around here.new ≡ S.around here.old) }
{
    let mut all = Some(BranchTrees::new(alloc));
    'branches: for branch in branches {
        let test = check_guard(alloc, checker, here, book, &branch.guard)?;
        let variable = variable_meant(alloc, here, &branch.guard.variable)?;
        let of = tested_type(test.as_ref())?;
        let body = check_guarded_body(
            alloc,
            checker,
            here,
            book,
            branch.body.as_slice(),
            variable,
            of,
        )?;
        all = with_branch(all, test_tree(test), body)?;
    }
    Ok(all)
}

// Statements in which the variable has one more guard.
#[cycle(walk)]
fn check_guarded_body<S: Surroundings, C: CheckExpr>(
    alloc: Global,
    checker: &C,
    here: &mut S,
    book: &mut Notebook,
    body: &[Stmt],
    variable: Option<Variable>,
    of: Option<TypeRef>,
) -> Result<Option<StmtTrees>, AllocError>
    ensures made { IfOk result (λ r. stmts_in r ≡ (spec.in_turn (map spec.judging body.now) (spec.guarded_around (S.around here.old) variable of)).node) }
    ensures noted { OnOk result (book.new ≡ book_after book.old (spec.in_turn (map spec.judging body.now) (spec.guarded_around (S.around here.old) variable of)).notes) }
    ensures around { OnOk result (S.around here.new ≡ S.around here.old) }
{
    match variable {
        None => check_stmts(alloc, checker, here, book, body),
        Some(variable) => {
            here.guard(variable, of)?;
            let made = check_stmts(alloc, checker, here, book, body)?;
            here.unguard();
            Ok(made)
        }
    }
}

// LOOP.
#[cycle(walk)]
fn check_loop<S: Surroundings, C: CheckExpr>(
    alloc: Global,
    checker: &C,
    here: &mut S,
    book: &mut Notebook,
    body: &[Stmt],
    at: Pos,
) -> Result<Option<StmtTrees>, AllocError>
    ensures made { IfOk result (λ r. stmts_in r ≡ (spec.loop_statement at (map spec.judging body.now) (S.around here.old)).node) }
    ensures noted { OnOk result (book.new ≡ book_after book.old (spec.loop_statement at (map spec.judging body.now) (S.around here.old)).notes) }
    ensures around { OnOk result (S.around here.new ≡ S.around here.old) }
{
    let outer = here.in_loop();
    here.set_in_loop(true);
    let repeated = check_stmts(alloc, checker, here, book, body)?;
    here.set_in_loop(outer);
    alone(alloc, loop_made(at, repeated))
}
