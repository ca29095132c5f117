//! What the code of one procedure looks up.

ghost use Rattle.std.specs.Prelude.{◌≡◌};
ghost use Rattle.ob_types.specs.TypedView.{module_view};
ghost use Rattle.ob_gproc.specs.Placed.{ArePlaces};
ghost use Rattle.ob_gproc.specs.Scoped.{variables_before, variables_words, parameters_before, parameters_slots, procedures_before, types_before, types_count};

use crate::places::Places;
use ob_gexpr_code::{CodeFault, Scope};
use ob_layout::{field_place, method_number, words_of};
use ob_tree::{Name, ObjName, QName};
use ob_types::{
    Desc, TypeRef, TypedModule, TypedParameter, TypedVariable, Types, shape_of, target_within,
};

/// What the code of a procedure looks up: the descriptions, the module and the procedure at hand,
/// and where their things stand.
#[derive(Drop)]
pub struct ProcedureScope<'a, T: Types> {
    pub types: &'a T,
    pub unit: &'a TypedModule,
    pub parameters: &'a [TypedParameter],
    pub locals: &'a [TypedVariable],
    pub variables: &'a Places,
    pub procedures: &'a Places,
    pub records: &'a Places,
    pub slots: &'a Places,
    pub words: &'a Places,
    ghost variables_placed: { ArePlaces variables.now.index.positions variables.now.total (variables_before (T.types types.now) unit.now.variables) },
    ghost procedures_placed: { ArePlaces procedures.now.index.positions procedures.now.total (procedures_before unit.now.procedures) },
    ghost records_placed: { ArePlaces records.now.index.positions records.now.total (types_before unit.now.types) },
    ghost records_counted: { records.now.total ≡ types_count unit.now.types },
    ghost slots_placed: { ArePlaces slots.now.index.positions slots.now.total (parameters_before parameters.now) },
    ghost slots_counted: { slots.now.total ≡ parameters_slots parameters.now },
    ghost words_placed: { ArePlaces words.now.index.positions words.now.total (variables_before (T.types types.now) locals.now) },
    ghost words_counted: { words.now.total ≡ variables_words (T.types types.now) locals.now },
}

impl<T: Types> Scope for ProcedureScope<'_, T> {
    ghost context = { λ s. record { types = T.types s.types.now; unit = module_view s.unit.now; parameters = s.parameters.now; locals = s.locals.now } };

    fn words(&self, t: &TypeRef) -> Result<u32, CodeFault> {
        match words_of(self.types, t) {
            Some(words) => Ok(words),
            None => Err(CodeFault::Beyond),
        }
    }

    fn elements(&self, t: &TypeRef) -> Result<Option<i32>, CodeFault> {
        match shape_of(self.types, target_within(self.types, t)) {
            Some(Desc::Array(_, length, _)) => {
                if *length >= 1 << 31 {
                    return Err(CodeFault::Beyond);
                }
                Ok(Some(*length as i32))
            }
            _ => Ok(None),
        }
    }

    fn is_own(&self, unit: &[u8]) -> bool {
        unit == self.unit.name.as_bytes()
    }

    fn variable_place(&self, name: &[u8]) -> i32 {
        self.variables.get(name) as i32
    }

    fn parameter_slot(&self, name: &[u8]) -> u32 {
        self.slots.get(name) as u32
    }

    fn local_slot(&self, name: &[u8]) -> i32 {
        (self.slots.total + self.words.get(name)) as i32
    }

    fn field_place(&self, owner: &QName, name: &Name) -> Result<i32, CodeFault> {
        let place = field_place(self.types, owner, name).unwrap_or(0);
        if place >= 1 << 31 {
            return Err(CodeFault::Beyond);
        }
        Ok(place as i32)
    }

    fn method_number(&self, owner: &QName, name: &Name) -> Result<i32, CodeFault> {
        let number = method_number(self.types, owner, name).unwrap_or(0);
        if number >= 1 << 31 {
            return Err(CodeFault::Beyond);
        }
        Ok(number as i32)
    }

    fn procedure_index(&self, name: &ObjName) -> i32 {
        (self.procedures.get(name.as_bytes()) + 1) as i32
    }

    fn type_index(&self, name: &ObjName) -> i32 {
        self.records.get(name.as_bytes()) as i32
    }

    fn own_types(&self) -> u32 {
        self.records.total as u32
    }

    fn record_of<'a>(&'a self, t: &'a TypeRef) -> Option<&'a QName> {
        match target_within(self.types, t) {
            TypeRef::Basic(_) => None,
            TypeRef::Named(name) => Some(name),
        }
    }
}
