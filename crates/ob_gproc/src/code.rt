//! The code of all procedures and of the body.

ghost use Rattle.std.specs.Prelude.{◌≡◌, ◌∷◌, ◌++◌, [], length, map, OnOk, IfOk};
ghost use Rattle.ob_types.specs.TypedView.{stmts_view, procedure_view, module_view};
ghost use Rattle.ob_scheme.specs.Coded.{Coded, appended, place_in};
ghost use Rattle.ob_scheme.specs.Statements.{stmts_code, next_stmts};
ghost use Rattle.ob_scheme.specs.Procedures.{closing, body_of, procedure_code, procedures_code, row_of, rows_of, module_code, module_rows};
ghost use Rattle.ob_gproc.specs.Parts.{parts_code, parts_row};
ghost use Rattle.ob_gproc.specs.Scoped.{context_of};

use crate::module_scope::ModuleScope;
use crate::rows::{has_result, params_of};
use crate::scope::ProcedureScope;
use crate::tables::{places_of_parameters, places_of_variables};
use ob_gexpr_code::{Code, CodeFault, Scope};
use ob_gstmt::put_stmts;
use ob_instr::{Opcode, Procedure};
use ob_trap::Trap;
use ob_tree::{List, Pos};
use ob_types::{TypeRef, TypedParameter, TypedProcedure, TypedStmt, TypedVariable, Types};
use std::alloc::Global;

fn put_closing(code: &mut Code, outcome: &Option<TypeRef>, pos: Pos) -> Result<(), CodeFault>
    ensures { OnOk result (code.new ≡ appended code.old (closing outcome.now pos ∷ [])) }
{
    match outcome {
        None => code.put(Opcode::Ret, 0, 0, None),
        Some(_) => code.put(
            Opcode::Trap,
            i32::from(Trap::NoReturn.number()),
            0,
            Some(pos),
        ),
    }
}

// Statements, and what stands at the end of the procedure; the word behind those of FOR and CASE.
#[tactic(auto, using(ob_scheme::proofs::Appends::put_two))]
fn put_parts<S: Scope>(
    code: &mut Code,
    scope: &S,
    hidden: u32,
    body: &[TypedStmt],
    outcome: &Option<TypeRef>,
    pos: Pos,
) -> Result<u32, CodeFault>
    ensures code { OnOk result (code.new ≡ appended code.old (stmts_code (S.context scope.now) (stmts_view body.now) (place_in code.old) hidden 0 ++ closing outcome.now pos ∷ [])) }
    ensures next { IfOk result (λ t. t ≡ next_stmts (S.context scope.now) (stmts_view body.now) hidden) }
{
    let next = put_stmts(code, scope, 0, hidden, body)?;
    put_closing(code, outcome, pos)?;
    Ok(next)
}

/// The code of a procedure or of the module's body, and its row in the table of procedures.
pub fn put_procedure<T: Types>(
    alloc: Global,
    code: &mut Code,
    scope: &ModuleScope<'_, T>,
    parameters: &[TypedParameter],
    locals: &[TypedVariable],
    outcome: &Option<TypeRef>,
    pos: Pos,
    body: &[TypedStmt],
) -> Result<Procedure, CodeFault>
    ensures code { OnOk result (code.new ≡ appended code.old (parts_code (context_of (T.types scope.now.types.now) scope.now.unit.now parameters.now locals.now) (stmts_view body.now) outcome.now pos (place_in code.old))) }
    ensures row { IfOk result (λ r. r ≡ parts_row (context_of (T.types scope.now.types.now) scope.now.unit.now parameters.now locals.now) (stmts_view body.now) outcome.now (place_in code.old)) }
{
    let slots = places_of_parameters(alloc, parameters)?;
    let words = places_of_variables(alloc, scope.types, locals)?;
    let params = params_of(alloc, scope.types, parameters)?;
    let entry = code.place();
    if entry >= 1 << 31 {
        return Err(CodeFault::Beyond);
    }
    let hidden = slots.total + words.total;
    let inner = ProcedureScope {
        types: scope.types,
        unit: scope.unit,
        parameters,
        locals,
        variables: scope.variables,
        procedures: scope.procedures,
        records: scope.records,
        slots: &slots,
        words: &words,
    };
    let next = put_parts(code, &inner, hidden as u32, body, outcome, pos)?;
    Ok(Procedure {
        entry: entry as u32,
        params,
        locals: next - slots.total as u32,
        has_result: has_result(outcome),
    })
}

// The code of a declared procedure, and its row.
#[tactic(auto, using(crate::proofs::Counting::params_same))]
fn put_declared<T: Types>(
    alloc: Global,
    code: &mut Code,
    scope: &ModuleScope<'_, T>,
    procedure: &TypedProcedure,
) -> Result<Procedure, CodeFault>
    ensures code { OnOk result (code.new ≡ appended code.old (procedure_code (T.types scope.now.types.now) (module_view scope.now.unit.now) (procedure_view procedure.now) (place_in code.old))) }
    ensures row { IfOk result (λ r. r ≡ row_of (T.types scope.now.types.now) (module_view scope.now.unit.now) (procedure_view procedure.now) (place_in code.old)) }
{
    put_procedure(
        alloc,
        code,
        scope,
        procedure.parameters.as_slice(),
        procedure.locals.as_slice(),
        &procedure.result,
        procedure.pos,
        procedure.body.as_slice(),
    )
}

// The code of the module's body, and its row.
fn put_body<T: Types>(
    alloc: Global,
    code: &mut Code,
    scope: &ModuleScope<'_, T>,
) -> Result<Procedure, CodeFault>
    ensures code { OnOk result (code.new ≡ appended code.old (procedure_code (T.types scope.now.types.now) (module_view scope.now.unit.now) (body_of (module_view scope.now.unit.now)) (place_in code.old))) }
    ensures row { IfOk result (λ r. r ≡ row_of (T.types scope.now.types.now) (module_view scope.now.unit.now) (body_of (module_view scope.now.unit.now)) (place_in code.old)) }
{
    let pos = Pos { line: 0, col: 0 };
    put_procedure(
        alloc,
        code,
        scope,
        &[],
        &[],
        &None,
        pos,
        scope.unit.body.as_slice(),
    )
}

// The code of procedures, and their rows behind the others.
fn put_procedures<T: Types>(
    alloc: Global,
    code: &mut Code,
    scope: &ModuleScope<'_, T>,
    rows: &mut List<Procedure>,
    procedures: &[TypedProcedure],
) -> Result<(), CodeFault>
    ensures code { OnOk result (code.new ≡ appended code.old (procedures_code (T.types scope.now.types.now) (module_view scope.now.unit.now) (map procedure_view procedures.now) (place_in code.old))) }
    ensures rows { OnOk result (rows.new ≡ rows.old ++ rows_of (T.types scope.now.types.now) (module_view scope.now.unit.now) (map procedure_view procedures.now) (place_in code.old)) }
{
    'procedures: for procedure in procedures {
        let row = put_declared(alloc, code, scope, procedure)?;
        rows.push(row)?;
    }
    Ok(())
}

/// The code of a module: its body, and behind it its procedures in their order; and their rows.
pub fn put_module<T: Types>(
    alloc: Global,
    code: &mut Code,
    scope: &ModuleScope<'_, T>,
) -> Result<List<Procedure>, CodeFault>
    requires { length code.old.instrs ≡ 0 }
    ensures code { OnOk result (code.new ≡ appended code.old (module_code (T.types scope.now.types.now) (module_view scope.now.unit.now))) }
    ensures rows { IfOk result (λ l. l ≡ module_rows (T.types scope.now.types.now) (module_view scope.now.unit.now)) }
{
    let mut rows = List::new(alloc);
    let row = put_body(alloc, code, scope)?;
    rows.push(row)?;
    put_procedures(
        alloc,
        code,
        scope,
        &mut rows,
        scope.unit.procedures.as_slice(),
    )?;
    Ok(rows)
}
