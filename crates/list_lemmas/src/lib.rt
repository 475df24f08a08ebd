//! The order of bytes, and lemmas on lists, numbers and that order, which no other crate owns. All of it is in `specs/` and `proofs/`.
#![tactic(auto)]
