//! What types are, and what names mean where they stand.
#![tactic(auto)]

mod here;
mod names;
mod shapes;
mod values;

pub use here::types;
pub use names::{exported, is_out, is_type_name, named, out_procedure, type_named};
pub use shapes::{
    Member, array_of, base_record, basic_of, extends_record, find_member, has_elements, is_array,
    is_char_array, is_held, is_open, is_pointer, is_record, open_element, passing_of, pointed,
    pointed_record, record_of, shape,
};
pub use values::{array_type, basic, fits, has_text, is, is_integer, text_tree, tree_of, width};
