// The laws that tie decoder and builders to each other. This crate has no code: proofs/Laws.antt has a list of them.
#![tactic(auto)]
