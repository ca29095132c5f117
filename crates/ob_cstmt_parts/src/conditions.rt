//! Conditions.

ghost use Rattle.std.specs.Prelude.{◌≡◌};
ghost use Rattle.ob_types.specs.declared.types.Basic.TheVariants as basic;
ghost use Rattle.ob_rules.specs.declared.broken.Rule.TheVariants as rule;
ghost use Rattle.ob_rules.specs.Books.{book_after};
ghost use Rattle.ob_rules.specs.Judged.{wants};
ghost use Rattle.ob_rules.specs.Values as values;
ghost use Rattle.ob_cstmt_parts.specs.Seen.{expr_in};

use ob_cexpr_name::{is, tree_of};
use ob_rules::{Notebook, Rule, Valued};
use ob_tree::Pos;
use ob_types::{Basic, Types};
use ob_types_trees::ExprTree;

/// A condition of its value. Rule 32 where that is not BOOLEAN. Takes no memory.
pub fn truth<T: Types>(types: &T, book: &mut Notebook, start: Pos, x: Valued) -> Option<ExprTree>
    ensures made { expr_in result ≡ (wants (values.is (T.types types.now) basic.Boolean x) rule.NotBoolean start (values.tree x)).node }
    ensures noted { book.new ≡ book_after book.old (wants (values.is (T.types types.now) basic.Boolean x) rule.NotBoolean start (values.tree x)).notes }
{
    if is(types, Basic::Boolean, &x) {
        Some(tree_of(x))
    } else {
        book.breaks(Rule::NotBoolean, start);
        None
    }
}
