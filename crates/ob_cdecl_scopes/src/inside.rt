//! What a scope puts aside, and has back later.

ghost use Rattle.std.specs.Prelude.{◌≡◌, IsTrue, true};
ghost use Rattle.ob_cdecl_scopes.specs.Descending.{are_of};

use crate::stack::Stack;
use ob_rules::{Known, Received};
use ob_tree::ObjName;
use ob_types::{TypeRef, Variable};

/// The names of a heading's own scope, of that number, put aside until its body is judged.
///
/// Contracts see the names, the latest first.
#[derive(Drop)]
pub struct Inside {
    pub(crate) names: Vec<Known>,
    pub(crate) scope: u32,
    ghost one_scope: { IsTrue (are_of scope names.items) },
}

/// What stands around a procedure, beside what its body leaves alone, while its body is judged.
#[derive(Drop)]
pub struct Outside {
    pub(crate) known: usize,
    pub(crate) own: usize,
    pub(crate) level: u32,
    pub(crate) path: ObjName,
    pub(crate) later_types: Stack,
    pub(crate) guards: Vec<(Variable, Option<TypeRef>)>,
    pub(crate) receiver: Option<Received>,
    pub(crate) result_type: Option<TypeRef>,
    pub(crate) in_loop: bool,
}
