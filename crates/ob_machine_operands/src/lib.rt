//! What the machine's instructions change, and the instructions on operands alone, by the table.
#![tactic(auto)]

mod numbers;
mod operands;
mod sets;
mod state;
mod values;

pub use numbers::{
    Comparison, Fit, difference, element_at, fitted, is_within, power, sum, word_of,
};
pub use operands::{put, take, take_four, take_three, take_two};
pub use sets::{
    bit, bits, complement, contains, differ, element, meet, minus, union, with_element,
    without_element,
};
pub use state::{State, Step};
pub use values::{
    abs, add, address, cap, character, compare, div, drop_one, index, index_open, modulo, mul, neg,
    not, odd, offset, push, push_word, range, sub,
};
