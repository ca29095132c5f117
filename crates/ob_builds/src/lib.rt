//! Builds of many ages: a source with the interfaces that it was compiled against, builds that go
//! together, their sources taken afresh, and the laws that are said of them. Nothing here speaks of a
//! session.
#![tactic(auto)]
