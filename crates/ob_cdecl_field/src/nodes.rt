//! What is seen of a type before it is judged.

ghost use Rattle.std.specs.Prelude.{◌≡◌};
ghost use Rattle.ob_rules.specs.Types as spec;

use ob_tree::{Pos, Qualident, TypeNode};

/// The first symbol of a qualified name. Takes no memory.
pub fn first_of(name: &Qualident) -> Pos
    ensures { result ≡ spec.first_of name.now }
{
    match &name.qualifier {
        None => name.ident.pos,
        Some(unit) => unit.pos,
    }
}

/// The first symbol of a type. Takes no memory.
pub fn start_of(node: &TypeNode) -> Pos
    ensures { result ≡ (spec.written node.now).start }
{
    match node {
        TypeNode::Named(name) => first_of(name),
        TypeNode::Array { pos, .. } => *pos,
        TypeNode::Record { pos, .. } => *pos,
        TypeNode::Pointer { pos, .. } => *pos,
        TypeNode::Procedure { pos, .. } => *pos,
    }
}

/// The name that a type is, if it is one. Takes no memory.
pub fn name_of(node: &TypeNode) -> Option<Qualident>
    ensures { result ≡ (spec.written node.now).name }
{
    match node {
        TypeNode::Named(name) => Some(*name),
        TypeNode::Array { .. }
        | TypeNode::Record { .. }
        | TypeNode::Pointer { .. }
        | TypeNode::Procedure { .. } => None,
    }
}

/// Whether a type is written as an open array. Takes no memory.
pub fn is_open_array(node: &TypeNode) -> bool
    ensures { result ≡ (spec.written node.now).open_array }
{
    match node {
        TypeNode::Array { lengths, .. } => match lengths.as_slice() {
            [] => true,
            [_, ..] => false,
        },
        TypeNode::Named(_)
        | TypeNode::Record { .. }
        | TypeNode::Pointer { .. }
        | TypeNode::Procedure { .. } => false,
    }
}
