//! Lemmas on lists, options, truth values and names that many laws use.
#![tactic(auto)]
