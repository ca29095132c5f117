//! What statements come to of their parts, which are judged already.
#![tactic(auto, using(ob_rules::proofs::BookLaws::after_none, ob_rules::proofs::BookLaws::after_joined))]

mod assign;
mod cases;
mod compounds;
mod conditions;
mod guards;
mod loops;
mod returns;
mod rows;

pub use assign::{assigns_if, name_target, target_if};
pub use cases::{case_value_if, label_if, selects_if};
pub use compounds::{case_made, if_made, loop_made, repeat_made, while_made, with_made};
pub use conditions::truth;
pub use guards::{Test, first_of, guarded_if, test_tree, tested_if, tested_type, variable_meant};
pub use loops::{for_bound, for_if, for_variable, step_value};
pub use returns::{exit, return_alone, returned};
pub use rows::{add_label, alone, some_stmts, with_branch, with_case, with_label, with_stmts};
