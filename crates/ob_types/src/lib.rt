//! Types and descriptions: what an object of a module is, what it is described by, and how the
//! types of a map of descriptions stand to each other.
#![tactic(auto)]

mod desc;
mod face;
mod relations;
mod spelled;
mod typed;
mod types;
mod value;

pub use desc::{Desc, Field, Method, Receiver, RecordDesc};
pub use face::{Aspect, Interface, Object, Use};
pub use ob_tree::Mark;
pub use relations::{
    element_within, equal, equal_within, extends, extends_within, is_same_at, matches, same,
    shape_of, signature_within, signatures_match, target_within,
};
pub use spelled::{read_print, write_print};
pub use typed::{
    Actual, Assigned, Binary, Binding, Callee, Compared, Comparison, Connective, Designator,
    ExprType, Family, Guarded, Label, Made, Mentioned, OutProcedure, Passing, TypedBranch,
    TypedCase, TypedConstant, TypedExpr, TypedModule, TypedParameter, TypedProcedure, TypedStmt,
    TypedType, TypedVariable, Unary, Update, Variable, Width,
};
pub use types::{Basic, Mode, Signature, TypeRef, Types};
pub use value::Value;
