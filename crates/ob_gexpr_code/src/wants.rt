//! How actual parameters are wanted on the operand stack.

ghost use Rattle.std.specs.Prelude.{◌≡◌, IfOk};
ghost use Rattle.ob_scheme.specs.Context.{Context, words};
ghost use Rattle.ob_scheme.specs.Expressions.{wanted};

use crate::fault::CodeFault;
use crate::scope::Scope;
use ob_scheme::Want;
use ob_types::{Passing, TypeRef};

/// How an actual parameter is wanted.
pub fn want_for<S: Scope>(scope: &S, how: Passing, formal: &TypeRef) -> Result<Want, CodeFault>
    ensures { IfOk result (λ w. w ≡ wanted (words (S.context scope.now)) how formal.now) }
{
    match how {
        Passing::Scalar => Ok(Want::Value),
        Passing::Structure => {
            let words = scope.words(formal)?;
            Ok(Want::Room(words))
        }
        Passing::OpenArray | Passing::VariableOpenArray => Ok(Want::PlaceAndLength),
        Passing::Variable => Ok(Want::Place),
        Passing::VariableRecord => Ok(Want::PlaceAndTag),
    }
}
