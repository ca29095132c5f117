//! Trees that are let go. A chain of operators or of selectors may have as many links as a source has characters:
//! here it is left link by link, in a loop, and the stack grows only with what hangs off it.

use ob_tree::List;
use ob_types::{
    Actual, Designator, Mentioned, TypedBranch, TypedCase, TypedExpr, TypedModule, TypedProcedure,
    TypedStmt,
};

/// Lets a designator go.
#[cycle(destroy)]
pub fn destroy_designator(designator: Designator) {
    let mut rest = designator;
    loop {
        match rest {
            Designator::Variable { .. } => return,
            Designator::Field { inner, .. } => rest = inner.into_inner(),
            Designator::Index { inner, index, .. } => {
                destroy_expr(index.into_inner());
                rest = inner.into_inner();
            }
            Designator::Deref { inner, .. } => rest = inner.into_inner(),
            Designator::Guard { inner, .. } => rest = inner.into_inner(),
        }
    }
}

/// Lets designators go.
pub fn destroy_designators(designators: List<Designator>) {
    for designator in designators.into_items() {
        destroy_designator(designator);
    }
}

/// Lets an expression go.
#[cycle(destroy)]
pub fn destroy_expr(expr: TypedExpr) {
    let mut rest = expr;
    loop {
        match rest {
            TypedExpr::Constant(_) => return,
            TypedExpr::Designator(designator) => return destroy_designator(designator),
            TypedExpr::Procedure { .. } => return,
            TypedExpr::Unary { operand, .. } => rest = operand.into_inner(),
            TypedExpr::Binary { left, right, .. } => {
                destroy_expr(right.into_inner());
                rest = left.into_inner();
            }
            TypedExpr::Logical { left, right, .. } => {
                destroy_expr(right.into_inner());
                rest = left.into_inner();
            }
            TypedExpr::CompareTexts { left, right, .. } => {
                destroy_expr(right.into_inner());
                rest = left.into_inner();
            }
            TypedExpr::IsPointer { operand, .. } => rest = operand.into_inner(),
            TypedExpr::IsRecord { inner, .. } => return destroy_designator(inner),
            TypedExpr::Length(designator) => return destroy_designator(designator),
            TypedExpr::Call { actuals, .. } => return destroy_actuals(actuals),
            TypedExpr::CallVariable { inner, actuals, .. } => {
                destroy_designator(inner);
                return destroy_actuals(actuals);
            }
        }
    }
}

/// Lets actual parameters go.
#[cycle(destroy)]
pub fn destroy_actuals(actuals: List<Actual>) {
    for actual in actuals.into_items() {
        destroy_actual(actual);
    }
}

#[cycle(destroy)]
fn destroy_actual(actual: Actual) {
    let Actual { value, .. } = actual;
    destroy_expr(value)
}

/// Lets a statement go.
#[cycle(destroy_stmt)]
pub fn destroy_stmt(stmt: TypedStmt) {
    match stmt {
        TypedStmt::Assign { target, value, .. } => {
            destroy_designator(target);
            destroy_expr(value)
        }
        TypedStmt::Call(call) => destroy_expr(call),
        TypedStmt::Update {
            target,
            operand,
            ..
        } => {
            destroy_designator(target);
            destroy_expr(operand)
        }
        TypedStmt::Copy { source, target, .. } => {
            destroy_expr(source);
            destroy_designator(target)
        }
        TypedStmt::New { target, .. } => destroy_designator(target),
        TypedStmt::NewOpenArray { target, length, .. } => {
            destroy_designator(target);
            destroy_expr(length)
        }
        TypedStmt::Assert { condition, .. } => destroy_expr(condition),
        TypedStmt::Halt { .. } | TypedStmt::Exit => {}
        TypedStmt::If {
            branches,
            otherwise,
        } => {
            destroy_branches(branches);
            destroy_stmts(otherwise)
        }
        TypedStmt::Case {
            value,
            cases,
            otherwise,
            ..
        } => {
            destroy_expr(value);
            destroy_cases(cases);
            match otherwise {
                None => {}
                Some(stmts) => destroy_stmts(stmts),
            }
        }
        TypedStmt::While { test, body, .. } | TypedStmt::Repeat { body, test, .. } => {
            destroy_expr(test);
            destroy_stmts(body)
        }
        TypedStmt::For {
            start,
            end,
            body,
            ..
        } => {
            destroy_expr(start);
            destroy_expr(end);
            destroy_stmts(body)
        }
        TypedStmt::Loop { body, .. } => destroy_stmts(body),
        TypedStmt::Return(value) => match value {
            None => {}
            Some(value) => destroy_expr(value),
        },
        TypedStmt::With {
            branches,
            otherwise,
            ..
        } => {
            destroy_branches(branches);
            match otherwise {
                None => {}
                Some(stmts) => destroy_stmts(stmts),
            }
        }
    }
}

/// Lets statements go.
#[cycle(destroy_stmt)]
pub fn destroy_stmts(stmts: List<TypedStmt>) {
    for stmt in stmts.into_items() {
        destroy_stmt(stmt);
    }
}

#[cycle(destroy_stmt)]
fn destroy_branch(branch: TypedBranch) {
    let TypedBranch { test, body } = branch;
    destroy_expr(test);
    destroy_stmts(body)
}

/// Lets branches go.
#[cycle(destroy_stmt)]
pub fn destroy_branches(branches: List<TypedBranch>) {
    for branch in branches.into_items() {
        destroy_branch(branch);
    }
}

#[cycle(destroy_stmt)]
fn destroy_case(case: TypedCase) {
    let TypedCase { labels: _, body } = case;
    destroy_stmts(body)
}

/// Lets the alternatives of a CASE go.
#[cycle(destroy_stmt)]
pub fn destroy_cases(cases: List<TypedCase>) {
    for case in cases.into_items() {
        destroy_case(case);
    }
}

/// Lets procedures go.
pub fn destroy_procedures(procedures: List<TypedProcedure>) {
    for procedure in procedures.into_items() {
        let TypedProcedure { body, .. } = procedure;
        destroy_stmts(body);
    }
}

/// Lets a module go.
pub fn destroy_module(module: TypedModule) {
    let TypedModule {
        procedures,
        body,
        mentioned,
        ..
    } = module;
    destroy_procedures(procedures);
    destroy_stmts(body);
    let Mentioned { lengths, .. } = mentioned;
    destroy_designators(lengths)
}
