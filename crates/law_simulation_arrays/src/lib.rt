//! The code of arrays and texts follows their meaning: open arrays, LEN, NEW of arrays, assignment of
//! arrays and strings, COPY, relations of texts, and Out.String.
#![tactic(auto)]
