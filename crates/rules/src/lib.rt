// The rules of document 01 as definitions (specs/) and what is proved of them (proofs/). This crate has no code: the engine is proved against it.
#![tactic(auto)]
