// Laws of whole numbers for proofs: this crate is its specs/ and proofs/, and has no code.
#![tactic(auto)]
