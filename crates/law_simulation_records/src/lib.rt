//! Records and their types: the code of type tests and guards, of `WITH`, of record parameters by VAR
//! with their tags, and of the assignment of records follows their meaning.
#![tactic(auto)]
