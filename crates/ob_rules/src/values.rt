//! What an expression comes to: a place, a constant or a value.

ghost use Rattle.std.specs.Prelude.{◌≡◌};

use ob_types::{ExprType, TypeRef, Value, Variable};
use ob_types_trees::{DesignatorTree, ExprTree};

/// A variable where it is named, with what later rules ask of it.
pub struct Place {
    pub designator: DesignatorTree,
    pub of: TypeRef,
    /// The variable at its front.
    pub root: Variable,
    /// Whether there is a selector that is written.
    pub selected: bool,
    /// Whether it goes through what another module may only read, with no pointer dereferenced
    /// behind it.
    pub read_only: bool,
    /// Whether it is a VAR parameter of a record type, perhaps guarded.
    pub var_record: bool,
    /// Whether it ends in a guard on a pointer.
    pub guarded: bool,
}

// By hand, here and below: so a crate above has one call where such a value goes, and proves no
// destructor of its parts.
impl Drop for Place {
    fn drop(self) {
        let Place {
            designator,
            of,
            root,
            selected,
            read_only,
            var_record,
            guarded,
        } = self;
    }
}

impl Place {
    /// Its designator.
    pub fn into_designator(self) -> DesignatorTree
        ensures { result ≡ self.designator }
    {
        let Place {
            designator,
            of,
            root,
            selected,
            read_only,
            var_record,
            guarded,
        } = self;
        designator
    }

    /// Its designator, and the variable at its front.
    pub fn into_rooted(self) -> (DesignatorTree, Variable)
        ensures { result ≡ (self.designator, self.root) }
    {
        let Place {
            designator,
            of,
            root,
            selected,
            read_only,
            var_record,
            guarded,
        } = self;
        (designator, root)
    }

    /// Its designator and its type.
    pub fn into_typed(self) -> (DesignatorTree, TypeRef)
        ensures { result ≡ (self.designator, self.of) }
    {
        let Place {
            designator,
            of,
            root,
            selected,
            read_only,
            var_record,
            guarded,
        } = self;
        (designator, of)
    }
}

/// A node with its type.
pub struct Computed {
    pub tree: ExprTree,
    pub of: ExprType,
}

impl Drop for Computed {
    fn drop(self) {
        let Computed { tree, of } = self;
    }
}

impl Computed {
    /// Its node.
    pub fn into_tree(self) -> ExprTree
        ensures { result ≡ self.tree }
    {
        let Computed { tree, of } = self;
        tree
    }
}

/// A checked expression: a constant, a variable, or a node with its type.
#[derive(Drop)]
pub enum Valued {
    Constant(Value),
    Place(Place),
    Node(Computed),
}
