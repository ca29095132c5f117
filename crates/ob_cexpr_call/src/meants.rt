//! What round brackets behind a designator are asked first.

ghost use Rattle.std.specs.Prelude.{◌≡◌};
ghost use Rattle.ob_rules.specs.Judged as judged;
ghost use Rattle.ob_rules.specs.declared.meant.Meant.TheVariants as means;
ghost use Rattle.ob_rules.specs.Designators as spec;

use ob_rules::{Meant, Predeclared, Valued};

/// A call that is judged already, as what a designator comes to. It says nothing more.
pub fn as_call(call: Option<Valued>) -> Option<Meant>
    ensures { result ≡ (judged.if_sound call (λ v. judged.sound (means.Call v))).node }
{
    match call {
        None => None,
        Some(value) => Some(Meant::Call(value)),
    }
}

/// Whether it takes a type in round brackets: MAX and MIN alone do.
pub fn takes_type(meant: &Meant) -> bool
    ensures { result ≡ spec.takes_type meant.now }
{
    matches!(
        meant,
        Meant::Predeclared(Predeclared::Max | Predeclared::Min)
    )
}

/// Whether it is a procedure, but no variable of a procedure type.
pub fn is_callable(meant: &Meant) -> bool
    ensures { result ≡ spec.is_callable meant.now }
{
    match meant {
        Meant::Procedure(_, _) | Meant::Bound(_) | Meant::Out(_) | Meant::Predeclared(_) => true,
        Meant::Place(_) | Meant::Constant(_) | Meant::Call(_) | Meant::Statement(_) => false,
    }
}

/// Whether a type in round brackets behind it is taken for a guard, though it is no variable: behind
/// a procedure or a constant.
pub fn is_guardable(meant: &Meant) -> bool
    ensures { result ≡ spec.is_guardable meant.now }
{
    match meant {
        Meant::Constant(_)
        | Meant::Procedure(_, _)
        | Meant::Bound(_)
        | Meant::Out(_)
        | Meant::Predeclared(_) => true,
        Meant::Place(_) | Meant::Call(_) | Meant::Statement(_) => false,
    }
}
