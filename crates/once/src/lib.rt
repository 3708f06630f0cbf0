// The law that a contract permits one outcome. It has no code: proofs/Once.antt states it, and the proofs of every other crate cite it.
#![tactic(auto)]
