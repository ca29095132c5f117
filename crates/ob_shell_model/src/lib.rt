//! What a session means over builds of many ages, and the byte session that is to keep it.
#![tactic(auto)]
