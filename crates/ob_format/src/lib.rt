//! Formats: how values are spelled as bytes, each in exactly one way, and how they are read back.
//!
//! A format says which value stands at the front of bytes (`take`), the one spelling of a value
//! (`spell`), and which values have one (`fits`). Its law says that what is taken was spelled so,
//! and that what is spelled is taken again. `Wire` is the trait of the types that have a format.
//! The formats of whole files are composed of the ones here. The words of texts have laws of
//! their own, since a word ends at the next separator or at the end of the text.
#![tactic(auto)]

mod fault;
mod names;
mod wire;
mod words;

pub use fault::Fault;
pub use names::{is_name, is_object_name};
pub use wire::{
    Ranked, Wire, bytes_of, few_list, i32_at, is_distinct, is_rising, put_bytes, read_text,
    read_whole, rising_list, skip, text_at, u16_at, u32_at, write_text, write_whole,
};
pub use words::{number_of, put_number, put_signed, put_word, signed_of, split_at_byte, word};
