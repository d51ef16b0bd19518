// No code: what an instruction does to the marks, the stores and the registers, and where it faults, in specs/; its proofs in proofs/.
#![tactic(auto)]
