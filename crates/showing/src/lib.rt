// No code: what a desk gives and shows while it takes the pairs of a tape, proved about the calls take and view.
#![tactic(auto)]
