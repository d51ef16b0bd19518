// No code: the words that all definitions share, in specs/.
#![tactic(auto)]
