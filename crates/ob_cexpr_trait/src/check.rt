//! The trait of what judges expressions.

ghost use Rattle.std.specs.Prelude.{◌≡◌, IfOk, OnOk};
ghost use Rattle.ob_rules.specs.Books.{book_after};
ghost use Rattle.ob_rules.specs.Expressions as spec;

use ob_rules::{Meant, Notebook, Surroundings, Valued, Where};
use ob_tree::{Designator, Expr};
use ob_types::Value;
use std::alloc::{AllocError, Global};

/// What judges expressions and designators. What is broken, and what they name, it notes in the
/// book. An `Err` is a want of memory.
pub trait CheckExpr {
    /// What an expression comes to: none where it breaks a rule, or a declaration that it names
    /// does.
    fn check_expr<S: Surroundings>(
        &self,
        alloc: Global,
        here: &S,
        book: &mut Notebook,
        e: &Expr,
    ) -> Result<Option<Valued>, AllocError>
        ensures made { IfOk result (λ r. r ≡ ((spec.phrase_of e.now).value (S.around here.now)).node) }
        ensures noted { OnOk result (book.new ≡ book_after book.old ((spec.phrase_of e.now).value (S.around here.now)).notes) };

    /// The constant that an expression is: none where it breaks a rule, rule 10 where it is no
    /// constant too.
    fn check_constant<S: Surroundings>(
        &self,
        alloc: Global,
        here: &S,
        book: &mut Notebook,
        e: &Expr,
    ) -> Result<Option<Value>, AllocError>
        ensures made { IfOk result (λ r. r ≡ (spec.constant_value (S.around here.now) (spec.phrase_of e.now)).node) }
        ensures noted { OnOk result (book.new ≡ book_after book.old (spec.constant_value (S.around here.now) (spec.phrase_of e.now)).notes) };

    /// What a designator comes to that stands in an expression, as a statement, or elsewhere: none
    /// where it breaks a rule, or a declaration that it names does.
    fn check_designator<S: Surroundings>(
        &self,
        alloc: Global,
        here: &S,
        book: &mut Notebook,
        place: Where,
        d: &Designator,
    ) -> Result<Option<Meant>, AllocError>
        ensures made { IfOk result (λ r. r ≡ (spec.meant_by place (spec.named_of d.now) (S.around here.now)).node) }
        ensures noted { OnOk result (book.new ≡ book_after book.old (spec.meant_by place (spec.named_of d.now) (S.around here.now)).notes) };
}
