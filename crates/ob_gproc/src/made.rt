//! What the generation of code hands on.

ghost use Rattle.std.specs.Prelude.{◌≡◌, IfOk};
ghost use Rattle.ob_types.specs.TypedView.{module_view};
ghost use Rattle.ob_scheme.specs.Procedures.{module_rows};
ghost use Rattle.ob_scheme.specs.Object.{variables, commands, records_in, type_links};
ghost use Rattle.ob_gexpr_code.specs.Parts.{parts_of};
ghost use Rattle.ob_gproc.specs.Whole.{module_coded};
ghost use Rattle.ob_gproc.specs.Filed.{file_with};

use crate::bases::name_bases;
use crate::code::put_module;
use crate::exported::{exported_procedures, exported_variables};
use crate::module_scope::ModuleScope;
use crate::records::records_in;
use ob_gexpr_code::{Code, CodeFault, CodeParts};
use ob_instr::Procedure;
use ob_obj::{Body, Command, Globals, Head, Links, ObjFile, RecordType, Variable};
use ob_tree::List;
use ob_types::Types;
use std::alloc::Global;

/// The code of a module, and the rows of its procedures.
pub struct ModuleCode {
    pub code: Code,
    pub rows: List<Procedure>,
}

impl Drop for ModuleCode {
    fn drop(self) {
        let ModuleCode { code: _, rows: _ } = self;
    }
}

/// The parts of the code of a module, the rows of its procedures, and its record types.
pub struct Made {
    pub parts: CodeParts,
    pub rows: List<Procedure>,
    pub types: List<RecordType>,
}

impl Drop for Made {
    fn drop(self) {
        let Made {
            parts: _,
            rows: _,
            types: _,
        } = self;
    }
}

/// What a module exports.
pub struct Shown {
    pub variables: List<Variable>,
    pub commands: List<Command>,
}

impl Drop for Shown {
    fn drop(self) {
        let Shown {
            variables: _,
            commands: _,
        } = self;
    }
}

impl ModuleCode {
    fn finish(self, alloc: Global, types: List<RecordType>) -> Result<Made, CodeFault>
        ensures { IfOk result (λ x. x ≡ record { parts = parts_of self.code; rows = self.rows; types = types }) }
    {
        let ModuleCode { code, rows } = self;
        let parts = code.finish(alloc)?;
        Ok(Made { parts, rows, types })
    }
}

// The code of a module with all its links.
fn module_code<T: Types>(alloc: Global, scope: &ModuleScope<'_, T>) -> Result<ModuleCode, CodeFault>
    ensures code { IfOk result (λ x. x.code ≡ module_coded (T.types scope.now.types.now) (module_view scope.now.unit.now)) }
    ensures rows { IfOk result (λ x. x.rows ≡ module_rows (T.types scope.now.types.now) (module_view scope.now.unit.now)) }
{
    let mut code = Code::new(alloc, scope.variables.total as u32);
    let rows = put_module(alloc, &mut code, scope)?;
    name_bases(
        &mut code,
        scope.types,
        scope.unit,
        scope.unit.types.as_slice(),
    )?;
    Ok(ModuleCode { code, rows })
}

/// The parts of the code of a module, its rows and its record types.
pub fn make_parts<T: Types>(alloc: Global, scope: &ModuleScope<'_, T>) -> Result<Made, CodeFault>
    ensures parts { IfOk result (λ x. x.parts ≡ parts_of (module_coded (T.types scope.now.types.now) (module_view scope.now.unit.now))) }
    ensures rows { IfOk result (λ x. x.rows ≡ module_rows (T.types scope.now.types.now) (module_view scope.now.unit.now)) }
    ensures types { IfOk result (λ x. x.types ≡ records_in (T.types scope.now.types.now) (module_view scope.now.unit.now) (type_links (T.types scope.now.types.now) (module_view scope.now.unit.now)) scope.now.unit.now.types) }
{
    let coded = module_code(alloc, scope)?;
    let types = records_in(alloc, &coded.code, scope, scope.unit.types.as_slice())?;
    let done = coded.finish(alloc, types)?;
    Ok(done)
}

/// What a module exports.
pub fn find_shown<T: Types>(alloc: Global, scope: &ModuleScope<'_, T>) -> Result<Shown, CodeFault>
    ensures variables { IfOk result (λ x. x.variables ≡ variables (T.types scope.now.types.now) (module_view scope.now.unit.now)) }
    ensures commands { IfOk result (λ x. x.commands ≡ commands (T.types scope.now.types.now) (module_view scope.now.unit.now)) }
{
    let variables = exported_variables(alloc, scope)?;
    let commands = exported_procedures(alloc, scope)?;
    Ok(Shown {
        variables,
        commands,
    })
}

impl Made {
    fn into_file(
        self,
        head: Head,
        variable_words: u32,
        variables: List<Variable>,
        commands: List<Command>,
    ) -> ObjFile
        ensures { result ≡ file_with head self.parts variable_words variables self.types self.rows commands }
    {
        let Made { parts, rows, types } = self;
        let CodeParts {
            instrs,
            positions,
            strings,
            variables: variable_links,
            procedures: procedure_links,
            types: type_links,
        } = parts;
        ObjFile {
            head,
            globals: Globals {
                variable_words,
                strings,
                variables,
            },
            links: Links {
                variables: variable_links,
                procedures: procedure_links,
                types: type_links,
            },
            body: Body {
                types,
                procedures: rows,
                commands,
                code: instrs,
                positions,
            },
        }
    }
}

impl Shown {
    /// The object file of a head and the other parts.
    pub fn into_file(self, made: Made, head: Head, words: u32) -> ObjFile
        ensures { result ≡ file_with head made.parts words self.variables made.types made.rows self.commands }
    {
        let Shown {
            variables,
            commands,
        } = self;
        made.into_file(head, words, variables, commands)
    }
}
