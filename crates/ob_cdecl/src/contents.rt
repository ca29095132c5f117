//! What a part of a module adds to it.

ghost use Rattle.std.specs.Prelude.{◌≡◌, OnOk};
ghost use Rattle.ob_rules.specs.Declarations as spec;
ghost use Rattle.ob_cdecl.specs.Seen.{contents_of, holds_body, holds_constant, holds_variable, holds_types};

use ob_tree::{List, Mark, Name};
use ob_types::{TypeRef, TypedConstant, TypedType, TypedVariable, Value};
use ob_types_trees::{ProcedureTrees, StmtTrees};
use std::alloc::{AllocError, Global};

/// What a part of a module adds to it.
#[derive(Drop)]
pub struct Contents {
    pub constants: List<TypedConstant>,
    pub types: List<TypedType>,
    pub variables: List<TypedVariable>,
    pub procedures: ProcedureTrees,
    pub body: StmtTrees,
}

impl Contents {
    /// Nothing. Takes no memory.
    pub fn new(alloc: Global) -> Contents
        ensures { contents_of result ≡ spec.no_contents }
    {
        Contents {
            constants: List::new(alloc),
            types: List::new(alloc),
            variables: List::new(alloc),
            procedures: ProcedureTrees::new(alloc),
            body: StmtTrees::new(alloc),
        }
    }

    /// One more constant.
    #[tactic(auto, using(crate::proofs::ContentsLaws::adds_constant))]
    pub fn add_constant(&mut self, name: Name, mark: Mark, value: Value) -> Result<(), AllocError>
        ensures { OnOk result (contents_of self.new ≡ spec.together (contents_of self.old) (holds_constant (record { name = name; mark = mark; value = value }))) }
    {
        self.constants.push(TypedConstant { name, mark, value })
    }

    /// One more variable.
    #[tactic(auto, using(crate::proofs::ContentsLaws::adds_variable))]
    pub fn add_variable(&mut self, name: Name, mark: Mark, of: TypeRef) -> Result<(), AllocError>
        ensures { OnOk result (contents_of self.new ≡ spec.together (contents_of self.old) (holds_variable (record { name = name; mark = mark; of = of }))) }
    {
        self.variables.push(TypedVariable { name, mark, of })
    }

    /// More types.
    #[tactic(auto, using(crate::proofs::ContentsLaws::adds_types))]
    pub fn add_types(&mut self, types: List<TypedType>) -> Result<(), AllocError>
        ensures { OnOk result (contents_of self.new ≡ spec.together (contents_of self.old) (holds_types types)) }
    {
        self.types.append(types)
    }

    /// What another part adds, behind what this one does.
    #[tactic(auto, using(crate::proofs::ContentsLaws::adds_all))]
    pub fn append(&mut self, more: Contents) -> Result<(), AllocError>
        ensures { OnOk result (contents_of self.new ≡ spec.together (contents_of self.old) (contents_of more)) }
    {
        let Contents {
            constants,
            types,
            variables,
            procedures,
            body,
        } = more;
        self.constants.append(constants)?;
        self.types.append(types)?;
        self.variables.append(variables)?;
        self.procedures.append(procedures)?;
        self.body.append(body)
    }

    /// More statements.
    #[tactic(auto, using(crate::proofs::ContentsLaws::adds_body))]
    pub fn add_body(&mut self, body: StmtTrees) -> Result<(), AllocError>
        ensures { OnOk result (contents_of self.new ≡ spec.together (contents_of self.old) (holds_body body.inner)) }
    {
        self.body.append(body)
    }
}
