//! That the code of the operators, literals and statements that `law_simulation_relation` leaves to it follows
//! their meaning: sets, MOD, ODD, ASH, CAP and CHR, equalities, INCL and EXCL, FOR and CASE.
#![tactic(auto)]
