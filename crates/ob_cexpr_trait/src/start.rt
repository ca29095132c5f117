//! Where an expression begins.

ghost use Rattle.std.specs.Prelude.{◌≡◌};
ghost use Rattle.ob_rules.specs.Expressions as spec;

use ob_tree::{Expr, Pos};

/// Where the first symbol of an expression stands. Takes no memory.
pub fn start_of(e: &Expr) -> Pos
    ensures { result ≡ (spec.phrase_of e.now).start }
{
    match e {
        Expr::Designator(d) => d.ident.pos(),
        Expr::Int { pos, .. } => *pos,
        Expr::Char { pos, .. } => *pos,
        Expr::Str { pos, .. } => *pos,
        Expr::Nil(pos) => *pos,
        Expr::Set { pos, .. } => *pos,
        Expr::Paren { pos, .. } => *pos,
        Expr::Not { pos, .. } => *pos,
        Expr::Signed { pos, .. } => *pos,
        Expr::Chain { operand, .. } => start_of(operand.get()),
        Expr::Relate { left, .. } => start_of(left.get()),
    }
}
