// No code: what a reader of the promises checks, in specs/; its proofs in proofs/.
#![tactic(auto)]
