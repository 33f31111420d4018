// A text folded flat (docs/FOLDED.md): what is written, and that it reads back as the same signals, waveforms and rows (specs/, proofs/); no code.
#![tactic(auto)]
