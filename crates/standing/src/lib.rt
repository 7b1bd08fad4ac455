// No code: log, slots and replay over any decoder, as definitions, and demand 3 proved about them.
#![tactic(auto)]
