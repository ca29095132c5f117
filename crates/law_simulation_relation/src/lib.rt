//! How words of the machine stand for a state of the meaning, what stands in the code, and the first
//! of what follows its meaning: places, scalars, plain statements, and calls with parameters of every
//! kind. The crates above have the other forms.
#![tactic(auto)]
