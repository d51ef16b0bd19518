// No code: the third of the user's demands (docs/PROMISES.md), over the machine's own steps, in specs/; its proofs in proofs/.
#![tactic(auto)]
