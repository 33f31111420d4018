// Where a text holds its bodies: what a player reads at each use (specs/, proofs/); no code.
#![tactic(auto)]
