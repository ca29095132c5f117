//! All parts of an object file, joined.

ghost use Rattle.std.specs.Prelude.{◌≡◌, IfOk};
ghost use Rattle.ob_types.specs.TypedView.{module_view};
ghost use Rattle.ob_scheme.specs.Procedures.{module_rows};
ghost use Rattle.ob_scheme.specs.Object.{own_words, variables, commands, records_in, type_links};
ghost use Rattle.ob_gexpr_code.specs.Parts.{parts_of};
ghost use Rattle.ob_gproc.specs.Whole.{module_coded};
ghost use Rattle.ob_gproc.specs.Filed.{file_with};

use crate::made::{Made, Shown, find_shown, make_parts};
use crate::module_scope::ModuleScope;
use crate::tables::{places_of_procedures, places_of_types, places_of_variables};
use ob_gexpr_code::CodeFault;
use ob_obj::{Export, Head, ObjFile};
use ob_tree::{List, Name};
use ob_types::{TypedModule, Types, Use};
use std::alloc::Global;

/// All parts of an object file but its exports and uses.
pub struct Parts {
    pub made: Made,
    pub shown: Shown,
    pub words: u32,
    pub imports: List<Name>,
}

impl Drop for Parts {
    fn drop(self) {
        let Parts {
            made: _,
            shown: _,
            words: _,
            imports: _,
        } = self;
    }
}

impl Parts {
    /// The object file.
    pub fn into_file(self, unit: Name, exports: List<Export>, uses: List<Use>) -> ObjFile
        ensures { result ≡ file_with (record { «module» = unit; imports = self.imports; exports = exports; uses = uses }) self.made.parts self.words self.shown.variables self.made.types self.made.rows self.shown.commands }
    {
        let Parts {
            made,
            shown,
            words,
            imports,
        } = self;
        let head = Head {
            module: unit,
            imports,
            exports,
            uses,
        };
        shown.into_file(made, head, words)
    }
}

fn scoped_parts<T: Types>(alloc: Global, scope: &ModuleScope<'_, T>) -> Result<Parts, CodeFault>
    ensures words { IfOk result (λ x. x.words ≡ own_words (T.types scope.now.types.now) (module_view scope.now.unit.now)) }
    ensures imports { IfOk result (λ x. x.imports ≡ scope.now.unit.now.imports) }
    ensures parts { IfOk result (λ x. x.made.parts ≡ parts_of (module_coded (T.types scope.now.types.now) (module_view scope.now.unit.now))) }
    ensures rows { IfOk result (λ x. x.made.rows ≡ module_rows (T.types scope.now.types.now) (module_view scope.now.unit.now)) }
    ensures types { IfOk result (λ x. x.made.types ≡ records_in (T.types scope.now.types.now) (module_view scope.now.unit.now) (type_links (T.types scope.now.types.now) (module_view scope.now.unit.now)) scope.now.unit.now.types) }
    ensures variables { IfOk result (λ x. x.shown.variables ≡ variables (T.types scope.now.types.now) (module_view scope.now.unit.now)) }
    ensures commands { IfOk result (λ x. x.shown.commands ≡ commands (T.types scope.now.types.now) (module_view scope.now.unit.now)) }
{
    let words = scope.variables.total as u32;
    let made = make_parts(alloc, scope)?;
    let shown = find_shown(alloc, scope)?;
    let imports = List::from_slice(alloc, scope.unit.imports.as_slice())?;
    Ok(Parts {
        made,
        shown,
        words,
        imports,
    })
}

/// All parts of the object file of a module but its exports and uses.
pub fn parts_of_file<T: Types>(
    alloc: Global,
    types: &T,
    unit: &TypedModule,
) -> Result<Parts, CodeFault>
    ensures words { IfOk result (λ x. x.words ≡ own_words (T.types types.now) (module_view unit.now)) }
    ensures imports { IfOk result (λ x. x.imports ≡ unit.now.imports) }
    ensures parts { IfOk result (λ x. x.made.parts ≡ parts_of (module_coded (T.types types.now) (module_view unit.now))) }
    ensures rows { IfOk result (λ x. x.made.rows ≡ module_rows (T.types types.now) (module_view unit.now)) }
    ensures types { IfOk result (λ x. x.made.types ≡ records_in (T.types types.now) (module_view unit.now) (type_links (T.types types.now) (module_view unit.now)) unit.now.types) }
    ensures variables { IfOk result (λ x. x.shown.variables ≡ variables (T.types types.now) (module_view unit.now)) }
    ensures commands { IfOk result (λ x. x.shown.commands ≡ commands (T.types types.now) (module_view unit.now)) }
{
    let variables = places_of_variables(alloc, types, unit.variables.as_slice())?;
    let procedures = places_of_procedures(alloc, unit.procedures.as_slice())?;
    let records = places_of_types(alloc, unit.types.as_slice())?;
    let scope = ModuleScope {
        types,
        unit,
        variables: &variables,
        procedures: &procedures,
        records: &records,
    };
    let parts = scoped_parts(alloc, &scope)?;
    Ok(parts)
}
