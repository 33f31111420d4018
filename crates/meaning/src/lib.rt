// Document 01 as definitions (specs/) and theorems about them (proofs/); no code.
#![tactic(auto)]
