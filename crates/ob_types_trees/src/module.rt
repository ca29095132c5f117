//! Procedures and modules of checked trees.

ghost use Rattle.std.specs.Prelude.{◌≡◌, [], ◌∷◌, ◌++◌, OnOk, OnErr};

use crate::designator::DesignatorTrees;
use crate::destructors::{destroy_module, destroy_procedures};
use crate::stmt::StmtTrees;
use ob_tree::{List, Mark, Name, ObjName, Pos, QName};
use ob_types::{
    Binding, Mentioned, TypeRef, TypedConstant, TypedModule, TypedParameter, TypedProcedure,
    TypedType, TypedVariable,
};
use std::alloc::{AllocError, Global};

/// Procedures in a row.
pub struct ProcedureTrees {
    pub inner: List<TypedProcedure>,
}

impl Drop for ProcedureTrees {
    fn drop(self) {
        let ProcedureTrees { inner } = self;
        destroy_procedures(inner);
    }
}

impl ProcedureTrees {
    pub fn into_inner(self) -> List<TypedProcedure>
        ensures { result ≡ self.inner }
    {
        let ProcedureTrees { inner } = self;
        inner
    }

    pub fn new(alloc: Global) -> ProcedureTrees
        ensures { result.inner ≡ [] }
    {
        ProcedureTrees {
            inner: List::new(alloc),
        }
    }

    /// One more, at the end.
    pub fn push(
        &mut self,
        name: ObjName,
        mark: Mark,
        pos: Pos,
        binding: Option<Binding>,
        parameters: List<TypedParameter>,
        of: Option<TypeRef>,
        locals: List<TypedVariable>,
        body: StmtTrees,
    ) -> Result<(), AllocError>
        ensures ok { OnOk result (self.new.inner ≡ self.old.inner ++ record { name = name; mark = mark; «pos» = «pos»; binding = binding; parameters = parameters; result = of; locals = locals; body = body.inner } ∷ []) }
        ensures err { OnErr result (self.new.inner ≡ self.old.inner) }
    {
        self.inner.push(TypedProcedure {
            name,
            mark,
            pos,
            binding,
            parameters,
            result: of,
            locals,
            body: body.into_inner(),
        })
    }

    /// More of them, at the end.
    pub fn append(&mut self, more: ProcedureTrees) -> Result<(), AllocError>
        ensures ok { OnOk result (self.new.inner ≡ self.old.inner ++ more.inner) }
        ensures err { OnErr result (self.new.inner ≡ self.old.inner) }
    {
        self.inner.append(more.into_inner())
    }
}

/// A module.
pub struct ModuleTree {
    pub inner: TypedModule,
}

impl Drop for ModuleTree {
    fn drop(self) {
        let ModuleTree { inner } = self;
        destroy_module(inner);
    }
}

impl ModuleTree {
    pub fn into_inner(self) -> TypedModule
        ensures { result ≡ self.inner }
    {
        let ModuleTree { inner } = self;
        inner
    }

    /// A module of these parts. `objects`, `named_types` and `lengths` are what is mentioned.
    pub fn new(
        name: Name,
        imports: List<Name>,
        constants: List<TypedConstant>,
        types: List<TypedType>,
        variables: List<TypedVariable>,
        procedures: ProcedureTrees,
        body: StmtTrees,
        objects: List<QName>,
        named_types: List<TypeRef>,
        lengths: DesignatorTrees,
    ) -> ModuleTree
        ensures { result.inner ≡ record { name = name; imports = imports; constants = constants; types = types; variables = variables; procedures = procedures.inner; body = body.inner; mentioned = record { objects = objects; types = named_types; lengths = lengths.inner } } }
    {
        ModuleTree {
            inner: TypedModule {
                name,
                imports,
                constants,
                types,
                variables,
                procedures: procedures.into_inner(),
                body: body.into_inner(),
                mentioned: Mentioned {
                    objects,
                    types: named_types,
                    lengths: lengths.into_inner(),
                },
            },
        }
    }
}
