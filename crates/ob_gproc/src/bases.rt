//! The numbers of the bases of a module's record types.

ghost use Rattle.std.specs.Prelude.{◌≡◌, Some, bytes_eq, OnOk, IfOk};
ghost use Rattle.std.specs.Option.{option_copied};
ghost use Rattle.ob_scheme.specs.Descriptions.{own_name};
ghost use Rattle.ob_types.specs.TypedView.{module_view};
ghost use Rattle.ob_scheme.specs.Object.{base_type, base_in, with_base, with_record, with_bases};
ghost use Rattle.ob_scheme.specs.Coded.{Coded};
ghost use Rattle.ob_gproc.specs.Named.{with_types};

use crate::module_scope::ModuleScope;
use ob_gexpr_code::{Code, CodeFault};
use ob_obj::Base;
use ob_tree::QName;
use ob_types::{Desc, TypeRef, TypedModule, TypedType, Types, target_within};

// The record type that a type is.
fn record_of<'a, T: Types>(types: &'a T, of: &'a TypeRef) -> Option<&'a QName>
    ensures { option_copied result ≡ own_name (T.types types.now) of.now }
{
    match target_within(types, of) {
        TypeRef::Basic(_) => None,
        TypeRef::Named(name) => Some(name),
    }
}

// The record type that a record type extends.
fn base_of<'a, T: Types>(
    types: &'a T,
    _unit: &TypedModule,
    base: &'a Option<TypeRef>,
) -> Option<&'a QName>
    ensures { option_copied result ≡ base_type (T.types types.now) (module_view _unit.now) base.now }
{
    match base {
        None => None,
        Some(of) => record_of(types, of),
    }
}

fn is_own(unit: &TypedModule, name: &QName) -> bool
    ensures { result ≡ bytes_eq name.now.«module» unit.now.name }
{
    name.module.as_bytes() == unit.name.as_bytes()
}

// A base of another module stands among the links.
fn name_base<T: Types>(
    code: &mut Code,
    types: &T,
    unit: &TypedModule,
    base: &Option<TypeRef>,
) -> Result<(), CodeFault>
    ensures { OnOk result (code.new ≡ with_types code.old (with_base (T.types types.now) (module_view unit.now) code.old.named.types (base_type (T.types types.now) (module_view unit.now) base.now))) }
{
    match base_of(types, unit, base) {
        None => Ok(()),
        Some(name) => {
            if is_own(unit, name) {
                return Ok(());
            }
            code.name_type(name)?;
            Ok(())
        }
    }
}

// The base of a record type of another module stands among the links.
fn name_record<T: Types>(
    code: &mut Code,
    types: &T,
    unit: &TypedModule,
    desc: &Desc,
) -> Result<(), CodeFault>
    ensures { OnOk result (code.new ≡ with_types code.old (with_record (T.types types.now) (module_view unit.now) code.old.named.types desc.now)) }
{
    match desc {
        Desc::Record(record) => name_base(code, types, unit, &record.base),
        _ => Ok(()),
    }
}

/// The bases of other modules stand among the links, behind those that the code names.
pub fn name_bases<T: Types>(
    code: &mut Code,
    types: &T,
    unit: &TypedModule,
    list: &[TypedType],
) -> Result<(), CodeFault>
    ensures { OnOk result (code.new ≡ with_types code.old (with_bases (T.types types.now) (module_view unit.now) code.old.named.types list.now)) }
{
    'types: for named in list {
        name_record(code, types, unit, &named.desc)?;
    }
    Ok(())
}

// A base as the table of types has it.
fn numbered_base<T: Types>(
    code: &Code,
    scope: &ModuleScope<'_, T>,
    name: &QName,
) -> Result<Base, CodeFault>
    ensures { IfOk result (λ b. b ≡ base_in (T.types scope.now.types.now) (module_view scope.now.unit.now) code.now.named.types (Some name.now)) }
{
    if is_own(scope.unit, name) {
        return Ok(Base::Own(scope.records.get(name.object.as_bytes()) as u32));
    }
    let number = code.type_number(name);
    if number >= 1 << 31 {
        return Err(CodeFault::Beyond);
    }
    Ok(Base::Link(number as u32))
}

/// The base of a record type as the table of types has it.
pub fn base_in<T: Types>(
    code: &Code,
    scope: &ModuleScope<'_, T>,
    base: &Option<TypeRef>,
) -> Result<Base, CodeFault>
    ensures { IfOk result (λ b. b ≡ base_in (T.types scope.now.types.now) (module_view scope.now.unit.now) code.now.named.types (base_type (T.types scope.now.types.now) (module_view scope.now.unit.now) base.now)) }
{
    match base_of(scope.types, scope.unit, base) {
        None => Ok(Base::None),
        Some(name) => numbered_base(code, scope, name),
    }
}
