//! The rows of the record types of an object file.

ghost use Rattle.std.specs.Prelude.{◌≡◌, ◌++◌, ◌∷◌, [], map, Some, OnOk, IfOk};
ghost use Rattle.ob_types.specs.declared.desc.Desc.TheVariants as desc;
ghost use Rattle.ob_types.specs.TypedView.{module_view, procedure_view};
ghost use Rattle.ob_scheme.specs.Object.{bound_number, definitions_among, definitions, record_in, records_in};

use crate::bases::base_in;
use crate::exported::next_index;
use crate::module_scope::ModuleScope;
use ob_gexpr_code::{Code, CodeFault};
use ob_gproc_tables::definitions_in_order;
use ob_layout::method_number;
use ob_obj::{Definition, RecordType};
use ob_tree::{List, ObjName};
use ob_types::{Binding, Desc, RecordDesc, TypedProcedure, TypedType, Types};
use std::alloc::Global;

// The number of the family that a procedure is bound to.
#[tactic(auto, using(ob_scheme::proofs::Descriptions::method_number_is))]
fn number_of<T: Types>(scope: &ModuleScope<'_, T>, binding: &Binding) -> u32
    ensures { result ≡ bound_number (T.types scope.now.types.now) (module_view scope.now.unit.now) (Some binding.now) }
{
    method_number(
        scope.types,
        &binding.family.owner,
        &binding.family.name.name(),
    )
    .unwrap_or(0)
}

// A procedure that is bound to the record type of a name stands behind the others.
fn add_definition<T: Types>(
    found: &mut List<Definition>,
    scope: &ModuleScope<'_, T>,
    owner: &ObjName,
    procedure: &TypedProcedure,
    index: u32,
) -> Result<(), CodeFault>
    ensures { OnOk result (found.new ≡ found.old ++ definitions_among (T.types scope.now.types.now) (module_view scope.now.unit.now) owner.now (procedure_view procedure.now ∷ []) index) }
{
    match &procedure.binding {
        None => Ok(()),
        Some(binding) => {
            if owner.as_bytes() != binding.owner.object.as_bytes() {
                return Ok(());
            }
            let number = number_of(scope, binding);
            found.push(Definition {
                number,
                procedure: index,
            })?;
            Ok(())
        }
    }
}

// The procedures that are bound to the record type of a name, in the order of the text.
fn definitions_in<T: Types>(
    alloc: Global,
    scope: &ModuleScope<'_, T>,
    owner: &ObjName,
    procedures: &[TypedProcedure],
) -> Result<List<Definition>, CodeFault>
    ensures { IfOk result (λ l. l ≡ definitions_among (T.types scope.now.types.now) (module_view scope.now.unit.now) owner.now (map procedure_view procedures.now) 1) }
{
    let mut found = List::new(alloc);
    let mut index: u32 = 1;
    'procedures: for procedure in procedures {
        add_definition(&mut found, scope, owner, procedure, index)?;
        index = next_index(index)?;
    }
    Ok(found)
}

// The definitions of a record type, in the order of their numbers.
fn definitions_of<T: Types>(
    alloc: Global,
    scope: &ModuleScope<'_, T>,
    owner: &ObjName,
) -> Result<List<Definition>, CodeFault>
    ensures { IfOk result (λ l. l ≡ definitions (T.types scope.now.types.now) (module_view scope.now.unit.now) owner.now) }
{
    let found = definitions_in(alloc, scope, owner, scope.unit.procedures.as_slice())?;
    definitions_in_order(alloc, found.as_slice())
}

// A record type stands behind the others.
fn put_record<T: Types>(
    alloc: Global,
    records: &mut List<RecordType>,
    code: &Code,
    scope: &ModuleScope<'_, T>,
    name: &ObjName,
    record: &RecordDesc,
) -> Result<(), CodeFault>
    ensures { OnOk result (records.new ≡ records.old ++ record_in (T.types scope.now.types.now) (module_view scope.now.unit.now) code.now.named.types name.now (desc.Record record.now)) }
{
    let base = base_in(code, scope, &record.base)?;
    let definitions = definitions_of(alloc, scope, name)?;
    let name = name.clone()?;
    records.push(RecordType {
        name,
        base,
        words: record.words,
        count: record.procedures,
        definitions,
    })?;
    Ok(())
}

// A type stands behind the others where it is a record type.
fn add_record<T: Types>(
    alloc: Global,
    records: &mut List<RecordType>,
    code: &Code,
    scope: &ModuleScope<'_, T>,
    named: &TypedType,
) -> Result<(), CodeFault>
    ensures { OnOk result (records.new ≡ records.old ++ record_in (T.types scope.now.types.now) (module_view scope.now.unit.now) code.now.named.types named.now.name named.now.desc) }
{
    match &named.desc {
        Desc::Record(record) => put_record(alloc, records, code, scope, &named.name, record),
        _ => Ok(()),
    }
}

/// The record types of a module, in the order of the text.
pub fn records_in<T: Types>(
    alloc: Global,
    code: &Code,
    scope: &ModuleScope<'_, T>,
    list: &[TypedType],
) -> Result<List<RecordType>, CodeFault>
    ensures { IfOk result (λ l. l ≡ records_in (T.types scope.now.types.now) (module_view scope.now.unit.now) code.now.named.types list.now) }
{
    let mut records = List::new(alloc);
    'types: for named in list {
        add_record(alloc, &mut records, code, scope, named)?;
    }
    Ok(records)
}
