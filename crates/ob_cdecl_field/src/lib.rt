//! Fields and formal parameters where their types are judged; marks; the names of types that have
//! none of their own; and the parts of types that hold no other type.
#![tactic(auto)]

mod fields;
mod made;
mod marks;
mod naming;
mod nodes;
mod params;
mod parts;
mod sections;

pub use fields::{
    Fields, fields_of, fields_together, first_name, joined_fields, no_fields, record_of,
};
pub use made::{Parameters, Typed, add_types, copy_typed, typed_as};
pub use marks::{check_mark, is_module_level};
pub use naming::{base_name, element_name, field_name, section_name};
pub use nodes::{first_of, is_open_array, name_of, start_of};
pub use params::mode_of;
pub use parts::{base_if, later_type, named_type, result_of};
pub use sections::{
    joined_parameters, no_parameters, number_behind, procedure_of, section_known, with_result,
};
