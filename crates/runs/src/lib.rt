// No code: what the register of a reel is, as definitions, and the paper's sentence about runs proved of them.
#![tactic(auto)]
