// Worked examples. This crate has no code: proofs/Examples.antt has them as one list of cases with one claim.
#![tactic(auto)]
