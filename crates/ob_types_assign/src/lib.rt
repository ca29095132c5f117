//! Which values a variable of a type takes: assignability, as it is computed.
#![tactic(auto)]

mod assigning;

pub use assigning::{
    assignable, basic_of, basic_of_binary, basic_of_unary, constant_fits, is_plain, takes_nil,
    type_fits,
};
