//! That the code of calls of procedure variables, of bound procedures and of super calls follows
//! their meaning.
#![tactic(auto)]
