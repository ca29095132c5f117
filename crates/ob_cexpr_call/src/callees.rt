//! Calls of declared procedures, of those of Out, and of procedure variables.

ghost use Rattle.std.specs.Prelude.{◌≡◌, [], ◌∷◌, ◌++◌, IfOk, OnOk, None};
ghost use Rattle.ob_types.specs.declared.typed.OutProcedure.TheVariants as out;
ghost use Rattle.ob_types.specs.declared.typed.TypedExpr.TheVariants as e;
ghost use Rattle.ob_types.specs.declared.typed.Callee.TheVariants as callee;
ghost use Rattle.ob_types.specs.TypedKinds.{result_type};
ghost use Rattle.ob_rules.specs.Books.{book_after};
ghost use Rattle.ob_rules.specs.Judged as judged;
ghost use Rattle.ob_rules.specs.Names as names;
ghost use Rattle.ob_rules.specs.Calls as spec;
ghost use Rattle.ob_cexpr_call.specs.Rows.{row_seen};

use ob_rules::{Computed, Notebook, Place, Rule, Valued, Where};
use ob_tree::{CompactName, List, ObjName, Pos, QName};
use ob_types::{Basic, Callee, ExprType, Mode, OutProcedure, Signature, TypeRef};
use ob_types_trees::{ActualTrees, ExprTree, copy_type};
use std::alloc::{AllocError, Global};

/// Whether a call breaks rule 27 there: a proper procedure in an expression, or a function as a
/// statement.
pub fn misplaced(place: Where, is_function: bool) -> bool
    ensures { result ≡ spec.misplaced place is_function }
{
    match place {
        Where::InExpression => !is_function,
        Where::AsStatement => is_function,
        Where::Elsewhere => false,
    }
}

/// The same result.
pub fn copy_result(of: &Option<TypeRef>) -> Result<Option<TypeRef>, AllocError>
    ensures { IfOk result (λ r. r ≡ of.now) }
{
    match of {
        None => Ok(None),
        Some(t) => {
            let t = copy_type(t)?;
            Ok(Some(t))
        }
    }
}

/// What the type of a call with that result is.
pub fn result_kind(of: &Option<TypeRef>) -> Result<ExprType, AllocError>
    ensures { IfOk result (λ r. r ≡ result_type of.now) }
{
    match of {
        None => Ok(ExprType::Nothing),
        Some(t) => {
            let t = copy_type(t)?;
            Ok(ExprType::Of(t))
        }
    }
}

fn call_by(
    book: &mut Notebook,
    place: Where,
    at: Pos,
    callee: Callee,
    signature: &Signature,
    count: usize,
    actuals: ActualTrees,
) -> Result<Option<Valued>, AllocError>
    ensures made { IfOk result (λ r. r ≡ (spec.called_with place at signature.now count (λ xs. e.Call callee xs at signature.now.result) actuals.inner).node) }
    ensures noted { OnOk result (book.new ≡ book_after book.old (spec.called_with place at signature.now count (λ xs. e.Call callee xs at signature.now.result) actuals.inner).notes) }
{
    if count != signature.params.len() {
        book.breaks(Rule::WrongParameterCount, at);
        return Ok(None);
    }
    if misplaced(place, signature.result.is_some()) {
        book.breaks(Rule::MisplacedCall, at);
        return Ok(None);
    }
    let of = copy_result(&signature.result)?;
    let kind = result_kind(&signature.result)?;
    Ok(Some(Valued::Node(Computed {
        tree: ExprTree::call(callee, actuals, at, of),
        of: kind,
    })))
}

fn call_held(
    book: &mut Notebook,
    place: Where,
    at: Pos,
    variable: Place,
    signature: &Signature,
    count: usize,
    actuals: ActualTrees,
) -> Result<Option<Valued>, AllocError>
    ensures made { IfOk result (λ r. r ≡ (spec.called_with place at signature.now count (λ xs. e.CallVariable variable.designator.inner xs at signature.now.result) actuals.inner).node) }
    ensures noted { OnOk result (book.new ≡ book_after book.old (spec.called_with place at signature.now count (λ xs. e.CallVariable variable.designator.inner xs at signature.now.result) actuals.inner).notes) }
{
    if count != signature.params.len() {
        book.breaks(Rule::WrongParameterCount, at);
        return Ok(None);
    }
    if misplaced(place, signature.result.is_some()) {
        book.breaks(Rule::MisplacedCall, at);
        return Ok(None);
    }
    let of = copy_result(&signature.result)?;
    let kind = result_kind(&signature.result)?;
    let designator = variable.into_designator();
    Ok(Some(Valued::Node(Computed {
        tree: ExprTree::call_variable(designator, actuals, at, of),
        of: kind,
    })))
}

/// The call of a declared procedure with these actual parameters, which are judged already; `count`
/// are written. None where they are none, or the call breaks rule 24 or 27.
pub fn call_procedure(
    book: &mut Notebook,
    place: Where,
    at: Pos,
    name: QName,
    signature: &Signature,
    count: usize,
    actuals: Option<ActualTrees>,
) -> Result<Option<Valued>, AllocError>
    ensures made { IfOk result (λ r. r ≡ (judged.if_sound (row_seen actuals) (spec.called_with place at signature.now count (λ xs. e.Call (callee.Declared name) xs at signature.now.result))).node) }
    ensures noted { OnOk result (book.new ≡ book_after book.old (judged.if_sound (row_seen actuals) (spec.called_with place at signature.now count (λ xs. e.Call (callee.Declared name) xs at signature.now.result))).notes) }
{
    match actuals {
        None => Ok(None),
        Some(actuals) => call_by(
            book,
            place,
            at,
            Callee::Declared(name),
            signature,
            count,
            actuals,
        ),
    }
}

/// The call of the procedure that a variable holds, with these actual parameters, which are judged
/// already; `count` are written. None where they are none, or the call breaks rule 24 or 27.
pub fn call_variable(
    book: &mut Notebook,
    place: Where,
    at: Pos,
    variable: Place,
    signature: &Signature,
    count: usize,
    actuals: Option<ActualTrees>,
) -> Result<Option<Valued>, AllocError>
    ensures made { IfOk result (λ r. r ≡ (judged.if_sound (row_seen actuals) (spec.called_with place at signature.now count (λ xs. e.CallVariable variable.designator.inner xs at signature.now.result))).node) }
    ensures noted { OnOk result (book.new ≡ book_after book.old (judged.if_sound (row_seen actuals) (spec.called_with place at signature.now count (λ xs. e.CallVariable variable.designator.inner xs at signature.now.result))).notes) }
{
    match actuals {
        None => Ok(None),
        Some(actuals) => call_held(book, place, at, variable, signature, count, actuals),
    }
}

fn by_value(params: &mut List<(Mode, TypeRef)>, t: TypeRef) -> Result<(), AllocError>
    ensures { OnOk result (params.new ≡ params.old ++ spec.by_value t ∷ []) }
{
    params.push((Mode::Value, t))
}

fn proper(params: List<(Mode, TypeRef)>) -> Signature
    ensures { result ≡ record { params = params; result = None } }
{
    Signature {
        params,
        result: None,
    }
}

fn out_char(alloc: Global) -> Result<Signature, AllocError>
    ensures { IfOk result (λ r. r ≡ spec.out_signature out.Char) }
{
    let mut params = List::new(alloc);
    by_value(&mut params, TypeRef::Basic(Basic::Char))?;
    Ok(proper(params))
}

// The type of the parameter of Out.String.
fn out_string(alloc: Global) -> Result<QName, AllocError>
    ensures { IfOk result (λ r. r ≡ names.out_string) }
{
    let module = CompactName::new(alloc, b"Out")?;
    let object = ObjName::new(alloc, b"String(1")?;
    Ok(QName { module, object })
}

fn out_str(alloc: Global) -> Result<Signature, AllocError>
    ensures { IfOk result (λ r. r ≡ spec.out_signature out.Str) }
{
    let mut params = List::new(alloc);
    let name = out_string(alloc)?;
    by_value(&mut params, TypeRef::Named(name))?;
    Ok(proper(params))
}

fn out_int(alloc: Global) -> Result<Signature, AllocError>
    ensures { IfOk result (λ r. r ≡ spec.out_signature out.Int) }
{
    let mut params = List::new(alloc);
    by_value(&mut params, TypeRef::Basic(Basic::LongInt))?;
    by_value(&mut params, TypeRef::Basic(Basic::LongInt))?;
    Ok(proper(params))
}

/// The parameters of a procedure of Out.
pub fn out_signature(alloc: Global, procedure: OutProcedure) -> Result<Signature, AllocError>
    ensures { IfOk result (λ r. r ≡ spec.out_signature procedure) }
{
    match procedure {
        OutProcedure::Char => out_char(alloc),
        OutProcedure::Str => out_str(alloc),
        OutProcedure::Int => out_int(alloc),
        OutProcedure::Ln => Ok(proper(List::new(alloc))),
    }
}

#[tactic(auto, using(crate::proofs::OutLaws::by_out))]
fn call_of_out(
    book: &mut Notebook,
    place: Where,
    at: Pos,
    procedure: OutProcedure,
    signature: &Signature,
    count: usize,
    actuals: ActualTrees,
) -> Result<Option<Valued>, AllocError>
    ensures made { signature.now ≡ spec.out_signature procedure → IfOk result (λ r. r ≡ (spec.called_with place at (spec.out_signature procedure) count (λ xs. e.Call (callee.Out procedure) xs at None) actuals.inner).node) }
    ensures noted { signature.now ≡ spec.out_signature procedure → OnOk result (book.new ≡ book_after book.old (spec.called_with place at (spec.out_signature procedure) count (λ xs. e.Call (callee.Out procedure) xs at None) actuals.inner).notes) }
{
    call_by(
        book,
        place,
        at,
        Callee::Out(procedure),
        signature,
        count,
        actuals,
    )
}

/// The call of a procedure of Out with these actual parameters, which are judged already; `count`
/// are written. None where they are none, or the call breaks rule 24 or 27.
pub fn call_out(
    alloc: Global,
    book: &mut Notebook,
    place: Where,
    at: Pos,
    procedure: OutProcedure,
    count: usize,
    actuals: Option<ActualTrees>,
) -> Result<Option<Valued>, AllocError>
    ensures made { IfOk result (λ r. r ≡ (judged.if_sound (row_seen actuals) (spec.called_with place at (spec.out_signature procedure) count (λ xs. e.Call (callee.Out procedure) xs at None))).node) }
    ensures noted { OnOk result (book.new ≡ book_after book.old (judged.if_sound (row_seen actuals) (spec.called_with place at (spec.out_signature procedure) count (λ xs. e.Call (callee.Out procedure) xs at None))).notes) }
{
    match actuals {
        None => Ok(None),
        Some(actuals) => {
            let signature = out_signature(alloc, procedure)?;
            call_of_out(book, place, at, procedure, &signature, count, actuals)
        }
    }
}
