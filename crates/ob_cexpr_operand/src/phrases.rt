//! What an expression is before it is judged.

ghost use Rattle.std.specs.Prelude.{◌≡◌, map, drop};
ghost use Rattle.std.specs.Option.{option_copied};
ghost use Rattle.ob_cexpr_operand.specs.Plain.{first_of};
ghost use Rattle.ob_rules.specs.Designators as designators;
ghost use Rattle.ob_rules.specs.Expressions as spec;

use ob_cexpr_name::is_type_name;
use ob_rules::{Surroundings, Where};
use ob_tree::{Designator, Expr, Ident, Qualident, Selector};
use ob_types::{Mode, TypeRef};

// The name, where nothing but a name behind a dot stands behind it.
fn name_alone(d: &Designator) -> Option<Qualident>
    ensures { result ≡ spec.name_alone (spec.named_of d.now).ident (spec.named_of d.now).behind }
{
    match d.selectors.as_slice() {
        [] => Some(Qualident {
            qualifier: None,
            ident: d.ident.ident(),
        }),
        [Selector::Field { pos: _, ident }] => Some(Qualident {
            qualifier: Some(d.ident.ident()),
            ident: ident.ident(),
        }),
        _ => None,
    }
}

/// The qualified name that an expression is, if it is one. Takes no memory.
pub fn name_in(e: &Expr) -> Option<Qualident>
    ensures { result ≡ (spec.phrase_of e.now).name }
{
    match e {
        Expr::Designator(d) => name_alone(d),
        Expr::Int { .. }
        | Expr::Char { .. }
        | Expr::Str { .. }
        | Expr::Nil(_)
        | Expr::Set { .. }
        | Expr::Paren { .. }
        | Expr::Not { .. }
        | Expr::Signed { .. }
        | Expr::Chain { .. }
        | Expr::Relate { .. } => None,
    }
}

/// Whether an expression is the name of a type. Takes no memory.
pub fn is_one_type<S: Surroundings>(here: &S, e: &Expr) -> bool
    ensures { result ≡ designators.is_one_type (S.around here.now) (spec.phrase_of e.now).name }
{
    match name_in(e) {
        None => false,
        Some(name) => is_type_name(here, &name),
    }
}

fn if_type(is_type: bool, name: Option<Qualident>) -> Option<Qualident>
    ensures { result ≡ designators.if_type is_type name }
{
    if is_type { name } else { None }
}

/// The type that is named alone in round brackets. Takes no memory.
pub fn type_in_round<S: Surroundings>(here: &S, arguments: &[Expr]) -> Option<Qualident>
    ensures { result ≡ designators.type_in_round (S.around here.now) (map spec.phrase_of arguments.now) }
{
    match arguments {
        [only] => if_type(is_one_type(here, only), name_in(only)),
        _ => None,
    }
}

/// The name behind a dot, where that comes first. Takes no memory.
pub fn name_behind(selectors: &[Selector]) -> Option<Ident>
    ensures { result ≡ designators.dot_of (map spec.behind_of selectors.now) }
{
    match selectors {
        [Selector::Field { pos: _, ident }, ..] => Some(ident.ident()),
        _ => None,
    }
}

/// Where a selector stands: a call that something follows is not asked for its result as a statement.
pub fn where_behind(place: Where, last: bool) -> Where
    ensures { result ≡ designators.where_of place last }
{
    match place {
        Where::AsStatement => {
            if last {
                Where::AsStatement
            } else {
                Where::Elsewhere
            }
        }
        Where::InExpression => Where::InExpression,
        Where::Elsewhere => Where::Elsewhere,
    }
}

/// The formal parameter of that number, from 0. Takes no memory.
#[tactic(auto, using(crate::proofs::RowLaws::first_at, crate::proofs::RowLaws::none_at))]
pub fn formal_at(params: &[(Mode, TypeRef)], number: usize) -> Option<&(Mode, TypeRef)>
    ensures { option_copied result ≡ first_of (drop number params.now) }
{
    if number < params.len() {
        Some(&params[number])
    } else {
        None
    }
}
