//! Statements that are designators.

ghost use Rattle.std.specs.Prelude.{◌≡◌, [], Some, true, IfOk, OnOk};
ghost use Rattle.std.specs.Option.{option_copied};
ghost use Rattle.ob_cexpr_call.specs.Rows.{row_seen};
ghost use Rattle.ob_rules.specs.Books.{book_after};
ghost use Rattle.ob_rules.specs.Calls as calls;
ghost use Rattle.ob_rules.specs.Designators as designators;
ghost use Rattle.ob_rules.specs.Expressions as exprs;
ghost use Rattle.ob_rules.specs.Judged.{if_sound, ◌▷◌};
ghost use Rattle.ob_rules.specs.Names.{map_of};
ghost use Rattle.ob_rules.specs.Shapes as shapes;
ghost use Rattle.ob_rules.specs.Statements as spec;
ghost use Rattle.ob_rules.specs.declared.meant.Meant.TheVariants as means;
ghost use Rattle.ob_rules.specs.declared.meant.Where.TheVariants.{AsStatement};
ghost use Rattle.ob_cstmt_parts.specs.Seen.{stmt_in};

use ob_cexpr_call::{
    call_bound, call_out, call_procedure, call_variable, is_nearest_sound, is_receiver_read_only,
    unless_broken,
};
use ob_cexpr_name::{tree_of, types};
use ob_cexpr_predeclared::is_function;
use ob_cexpr_trait::CheckExpr;
use ob_rules::{Chosen, Meant, Notebook, Place, Predeclared, Rule, Surroundings, Valued, Where};
use ob_tree::{Designator, Pos, QName, Selector};
use ob_types::{OutProcedure, Signature, signature_within};
use ob_types_trees::{ActualTrees, StmtTree, copy_type};
use std::alloc::{AllocError, Global};

// The name of a constant, of its module behind a dot.
fn constant_at(d: &Designator) -> Pos
    ensures { result ≡ spec.constant_at (exprs.named_of d.now).ident (exprs.named_of d.now).behind }
{
    match d.selectors.as_slice() {
        [Selector::Field { pos: _, ident }, ..] => ident.pos(),
        _ => d.ident.pos(),
    }
}

// A call as a statement.
fn call_if(call: Option<Valued>) -> Option<StmtTree>
    ensures { stmt_in result ≡ (if_sound call (λ x. spec.call_value x)).node }
{
    match call {
        None => None,
        Some(x) => Some(StmtTree::call(tree_of(x))),
    }
}

fn no_actuals(alloc: Global) -> Option<ActualTrees>
    ensures { row_seen result ≡ Some [] }
{
    Some(ActualTrees::new(alloc))
}

fn procedure_called<S: Surroundings>(
    alloc: Global,
    here: &S,
    book: &mut Notebook,
    start: Pos,
    name: QName,
    signature: &Signature,
) -> Result<Option<StmtTree>, AllocError>
    ensures made { IfOk result (λ r. stmt_in r ≡ (designators.call_meant (S.around here.now) AsStatement start (means.Procedure name signature.now) [] ▷ spec.done).node) }
    ensures noted { OnOk result (book.new ≡ book_after book.old (designators.call_meant (S.around here.now) AsStatement start (means.Procedure name signature.now) [] ▷ spec.done).notes) }
{
    let none = no_actuals(alloc);
    let call = call_procedure(book, Where::AsStatement, start, name, signature, 0, none)?;
    Ok(call_if(call))
}

fn out_called<S: Surroundings>(
    alloc: Global,
    here: &S,
    book: &mut Notebook,
    start: Pos,
    procedure: OutProcedure,
) -> Result<Option<StmtTree>, AllocError>
    ensures made { IfOk result (λ r. stmt_in r ≡ (designators.call_meant (S.around here.now) AsStatement start (means.Out procedure) [] ▷ spec.done).node) }
    ensures noted { OnOk result (book.new ≡ book_after book.old (designators.call_meant (S.around here.now) AsStatement start (means.Out procedure) [] ▷ spec.done).notes) }
{
    let none = no_actuals(alloc);
    let call = call_out(alloc, book, Where::AsStatement, start, procedure, 0, none)?;
    Ok(call_if(call))
}

// Rule 26: a read-only record is the receiver of a VAR record.
fn nearest_called<S: Surroundings>(
    alloc: Global,
    here: &S,
    book: &mut Notebook,
    start: Pos,
    chosen: Chosen,
) -> Result<Option<StmtTree>, AllocError>
    ensures made { IfOk result (λ r. stmt_in r ≡ (designators.as_call (calls.call_bound_sound true (S.around here.now) AsStatement start chosen []) ▷ spec.done).node) }
    ensures noted { OnOk result (book.new ≡ book_after book.old (designators.as_call (calls.call_bound_sound true (S.around here.now) AsStatement start chosen []) ▷ spec.done).notes) }
{
    let broken = is_receiver_read_only(&chosen);
    book.breaks_if(broken, Rule::NotChangeable, start);
    let none = no_actuals(alloc);
    let call = call_bound(alloc, book, Where::AsStatement, start, chosen, 0, none)?;
    let sound = unless_broken(broken, call);
    Ok(call_if(sound))
}

fn bound_called<S: Surroundings>(
    alloc: Global,
    here: &S,
    book: &mut Notebook,
    start: Pos,
    chosen: Chosen,
) -> Result<Option<StmtTree>, AllocError>
    ensures made { IfOk result (λ r. stmt_in r ≡ (designators.call_meant (S.around here.now) AsStatement start (means.Bound chosen) [] ▷ spec.done).node) }
    ensures noted { OnOk result (book.new ≡ book_after book.old (designators.call_meant (S.around here.now) AsStatement start (means.Bound chosen) [] ▷ spec.done).notes) }
{
    let sound = is_nearest_sound(here, &chosen);
    if sound {
        nearest_called(alloc, here, book, start, chosen)
    } else {
        Ok(None)
    }
}

// Rule 28: each predeclared procedure has a parameter. Rule 27: it is a function.
fn predeclared_called<S: Surroundings>(
    here: &S,
    book: &mut Notebook,
    start: Pos,
    procedure: Predeclared,
) -> Option<StmtTree>
    ensures made { stmt_in result ≡ (designators.call_meant (S.around here.now) AsStatement start (means.Predeclared procedure) [] ▷ spec.done).node }
    ensures noted { book.new ≡ book_after book.old (designators.call_meant (S.around here.now) AsStatement start (means.Predeclared procedure) [] ▷ spec.done).notes }
{
    book.breaks_if(is_function(procedure), Rule::MisplacedCall, start);
    book.breaks(Rule::UnfitPredeclaredParameters, start);
    None
}

fn variable_called<S: Surroundings>(
    alloc: Global,
    here: &S,
    book: &mut Notebook,
    start: Pos,
    place: Place,
    signature: &Signature,
) -> Result<Option<StmtTree>, AllocError>
    ensures made { IfOk result (λ r. stmt_in r ≡ (spec.place_called (S.around here.now) start place (Some signature.now)).node) }
    ensures noted { OnOk result (book.new ≡ book_after book.old (spec.place_called (S.around here.now) start place (Some signature.now)).notes) }
{
    let none = no_actuals(alloc);
    let call = call_variable(book, Where::AsStatement, start, place, signature, 0, none)?;
    Ok(call_if(call))
}

// Rule 27: a variable is no call, where its type is no procedure type.
fn place_called<S: Surroundings>(
    alloc: Global,
    here: &S,
    book: &mut Notebook,
    start: Pos,
    place: Place,
    signature: Option<&Signature>,
) -> Result<Option<StmtTree>, AllocError>
    ensures made { IfOk result (λ r. stmt_in r ≡ (spec.place_called (S.around here.now) start place (option_copied signature.entry)).node) }
    ensures noted { OnOk result (book.new ≡ book_after book.old (spec.place_called (S.around here.now) start place (option_copied signature.entry)).notes) }
{
    match signature {
        None => {
            book.breaks(Rule::MisplacedCall, start);
            Ok(None)
        }
        Some(signature) => variable_called(alloc, here, book, start, place, signature),
    }
}

fn place_meant<S: Surroundings>(
    alloc: Global,
    here: &S,
    book: &mut Notebook,
    start: Pos,
    place: Place,
) -> Result<Option<StmtTree>, AllocError>
    ensures made { IfOk result (λ r. stmt_in r ≡ (spec.place_called (S.around here.now) start place (shapes.signature_at (map_of (S.around here.now)) place.of)).node) }
    ensures noted { OnOk result (book.new ≡ book_after book.old (spec.place_called (S.around here.now) start place (shapes.signature_at (map_of (S.around here.now)) place.of)).notes) }
{
    let of = copy_type(&place.of)?;
    let signature = signature_within(types(here), &of);
    place_called(alloc, here, book, start, place, signature)
}

// What a designator comes to is called without round brackets. Rule 3: the name of a constant.
fn called<S: Surroundings>(
    alloc: Global,
    here: &S,
    book: &mut Notebook,
    d: &Designator,
    meant: Meant,
) -> Result<Option<StmtTree>, AllocError>
    ensures made { IfOk result (λ r. stmt_in r ≡ (spec.called (S.around here.now) (exprs.named_of d.now) meant).node) }
    ensures noted { OnOk result (book.new ≡ book_after book.old (spec.called (S.around here.now) (exprs.named_of d.now) meant).notes) }
{
    let start = d.ident.pos();
    match meant {
        Meant::Place(place) => place_meant(alloc, here, book, start, place),
        Meant::Constant(_) => {
            book.breaks(Rule::WrongKind, constant_at(d));
            Ok(None)
        }
        Meant::Call(x) => Ok(Some(StmtTree::call(tree_of(x)))),
        Meant::Statement(stmt) => Ok(Some(stmt)),
        Meant::Procedure(name, signature) => {
            procedure_called(alloc, here, book, start, name, &signature)
        }
        Meant::Bound(chosen) => bound_called(alloc, here, book, start, chosen),
        Meant::Out(procedure) => out_called(alloc, here, book, start, procedure),
        Meant::Predeclared(procedure) => Ok(predeclared_called(here, book, start, procedure)),
    }
}

/// A call, with or without round brackets. Rules 3 and 27, and those of the designator.
pub fn call_statement<S: Surroundings, C: CheckExpr>(
    alloc: Global,
    checker: &C,
    here: &S,
    book: &mut Notebook,
    designator: &Designator,
) -> Result<Option<StmtTree>, AllocError>
    ensures made { IfOk result (λ r. stmt_in r ≡ (spec.call_statement (exprs.named_of designator.now) (S.around here.now)).node) }
    ensures noted { OnOk result (book.new ≡ book_after book.old (spec.call_statement (exprs.named_of designator.now) (S.around here.now)).notes) }
{
    match checker.check_designator(alloc, here, book, Where::AsStatement, designator)? {
        None => Ok(None),
        Some(meant) => called(alloc, here, book, designator, meant),
    }
}
