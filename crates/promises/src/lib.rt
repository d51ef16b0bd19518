// No code: the theorems that a reader wants, a file each, in specs/; their proofs in proofs/.
#![tactic(auto)]
