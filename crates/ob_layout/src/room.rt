//! Room for variables: slots, frames and globals.

ghost use Rattle.std.specs.Prelude.{◌≡◌, ◌+◌, ◌<◌, min, Option, Some, None};
ghost use Rattle.ob_types.specs.TypedView.{stmt_view, stmts_view, branches_view, cases_view, otherwise_view, procedure_view, module_view};
ghost use Rattle.ob_layout.specs.Lists.{sum_of};
ghost use Rattle.ob_layout.specs.Words.{words_of as words_in_map};
ghost use Rattle.ob_layout.specs.Room.{slots as slots_of, hidden_words, hidden_of_all, hidden_of_branches, hidden_of_cases, hidden_of_else, frame_words as frame_words_of, variable_words as variable_words_of};

use crate::words::counted_words;
use ob_types::{
    Passing, TypedBranch, TypedCase, TypedModule, TypedParameter, TypedProcedure, TypedStmt,
    TypedVariable, Types,
};

/// More words than any number of 32 bits.
const MANY: u64 = 4_294_967_296;

// Both, those above so many as that number.
fn plus(a: u64, b: u64) -> u64
    ensures { result ≡ min (a + b) 4294967296 }
{
    a.saturating_add(b).min(MANY)
}

/// The words of a parameter in an activation: 1 for a scalar value, a structured value and a VAR
/// parameter; 2 for an open array, and for a record by VAR. Takes no memory.
pub fn slots(passing: Passing) -> u32
    ensures { result ≡ slots_of passing }
{
    match passing {
        Passing::Scalar => 1,
        Passing::Structure => 1,
        Passing::OpenArray => 2,
        Passing::Variable => 1,
        Passing::VariableRecord => 2,
        Passing::VariableOpenArray => 2,
    }
}

#[cycle(hidden)]
#[tactic(auto, using(crate::proofs::Counted::hidden_steps))]
fn hidden_of_stmt(s: &TypedStmt) -> u64
    ensures { result ≡ min (hidden_words (stmt_view s.now)) 4294967296 }
{
    match s {
        TypedStmt::If {
            branches,
            otherwise,
        } => plus(
            hidden_in_branches(branches.as_slice()),
            hidden_in(otherwise.as_slice()),
        ),
        TypedStmt::Case {
            cases,
            otherwise,
            ..
        } => plus(
            1,
            plus(
                hidden_in_cases(cases.as_slice()),
                match otherwise {
                    None => 0,
                    Some(body) => hidden_in(body.as_slice()),
                },
            ),
        ),
        TypedStmt::While { body, .. } => hidden_in(body.as_slice()),
        TypedStmt::Repeat { body, .. } => hidden_in(body.as_slice()),
        TypedStmt::For { body, .. } => plus(1, hidden_in(body.as_slice())),
        TypedStmt::Loop { body, .. } => hidden_in(body.as_slice()),
        TypedStmt::With {
            branches,
            otherwise,
            ..
        } => plus(
            hidden_in_branches(branches.as_slice()),
            match otherwise {
                None => 0,
                Some(body) => hidden_in(body.as_slice()),
            },
        ),
        TypedStmt::Assign { .. } => 0,
        TypedStmt::Call(_) => 0,
        TypedStmt::Update { .. } => 0,
        TypedStmt::Copy { .. } => 0,
        TypedStmt::New { .. } => 0,
        TypedStmt::NewOpenArray { .. } => 0,
        TypedStmt::Assert { .. } => 0,
        TypedStmt::Halt { .. } => 0,
        TypedStmt::Exit => 0,
        TypedStmt::Return(_) => 0,
    }
}

#[cycle(hidden)]
#[tactic(auto, using(crate::proofs::Counted::capped_more))]
fn hidden_in(body: &[TypedStmt]) -> u64
    ensures { result ≡ min (hidden_of_all (stmts_view body.now)) 4294967296 }
{
    let mut total = 0;
    'statements: for s in body {
        total = plus(total, hidden_of_stmt(s));
    }
    total
}

#[cycle(hidden)]
#[tactic(auto, using(crate::proofs::Counted::capped_more))]
fn hidden_in_branches(branches: &[TypedBranch]) -> u64
    ensures { result ≡ min (hidden_of_branches (branches_view branches.now)) 4294967296 }
{
    let mut total = 0;
    'branches: for branch in branches {
        total = plus(total, hidden_in(branch.body.as_slice()));
    }
    total
}

#[cycle(hidden)]
#[tactic(auto, using(crate::proofs::Counted::capped_more))]
fn hidden_in_cases(cases: &[TypedCase]) -> u64
    ensures { result ≡ min (hidden_of_cases (cases_view cases.now)) 4294967296 }
{
    let mut total = 0;
    'cases: for case in cases {
        total = plus(total, hidden_in(case.body.as_slice()));
    }
    total
}

/// The words of the locals that FOR and CASE have, one for each, those above 4,294,967,296 as that
/// number. Takes no memory.
pub fn hidden_locals(body: &[TypedStmt]) -> u64
    ensures { result ≡ min (hidden_of_all (stmts_view body.now)) 4294967296 }
{
    hidden_in(body)
}

#[tactic(auto, using(crate::proofs::Counted::capped_more))]
fn slots_in(parameters: &[TypedParameter]) -> u64
    ensures { result ≡ min (sum_of (λ x. slots_of x.passing) parameters.now) 4294967296 }
{
    let mut total = 0;
    'parameters: for parameter in parameters {
        total = plus(total, slots(parameter.passing) as u64);
    }
    total
}

/// The words of variables, those above 4,294,967,296 as that number. Takes no memory.
#[tactic(auto, using(crate::proofs::Counted::capped_more))]
pub fn words_of_variables<T: Types>(types: &T, variables: &[TypedVariable]) -> u64
    ensures { result ≡ min (sum_of (λ v. words_in_map (T.types types.now) v.of) variables.now) 4294967296 }
{
    let mut total = 0;
    'variables: for variable in variables {
        total = plus(total, counted_words(types, &variable.of));
    }
    total
}

/// The words of an activation without the copies of its structured values, by the descriptions of
/// types: its parameters, its locals, and one for each FOR and CASE; those above 4,294,967,296 as
/// that number. Takes no memory.
#[tactic(auto, using(crate::proofs::Counted::capped_plus, crate::proofs::Counted::capped_frame))]
pub fn frame_words<T: Types>(types: &T, procedure: &TypedProcedure) -> u64
    ensures { result ≡ min (frame_words_of (λ t. words_in_map (T.types types.now) t) (procedure_view procedure.now)) 4294967296 }
{
    plus(
        slots_in(procedure.parameters.as_slice()),
        plus(
            words_of_variables(types, procedure.locals.as_slice()),
            hidden_locals(procedure.body.as_slice()),
        ),
    )
}

/// The words of a module's variables, by the descriptions of types, those above 4,294,967,296 as
/// that number. Takes no memory.
pub fn variable_words<T: Types>(types: &T, module: &TypedModule) -> u64
    ensures { result ≡ min (variable_words_of (λ t. words_in_map (T.types types.now) t) (module_view «module».now)) 4294967296 }
{
    words_of_variables(types, module.variables.as_slice())
}
