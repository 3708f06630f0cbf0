// Which receive width is right for a need. This crate has no code: specs/Rule.antt has the rule, proofs/Rules.antt what it means and that a need has at
// most one right code.
#![tactic(auto)]
