//! What a map of descriptions says of a program: the form of each type that the map describes, and
//! that what the rules of types find in the map is so of the program's own types.
#![tactic(auto)]
