//! Definitions that theorems tie to the book of `rv_spec`, and lemmas about them: they stand in `specs/` and `proofs/`.
#![tactic(auto)]
