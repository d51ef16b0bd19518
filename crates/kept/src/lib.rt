// No code: soundness is kept by every move, in specs/; its proofs in proofs/.
#![tactic(auto)]
