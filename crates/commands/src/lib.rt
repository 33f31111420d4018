// The commands that need no rows, the words of the command line and the answers' lines: what most of the program `reels` is.
#![tactic(auto)]

pub mod answers;
pub mod asked;
pub mod checked;
pub mod files;
pub mod holding;
pub mod named;
pub mod rebuilt;
pub mod saved;
pub mod shaped;
pub mod split;
pub mod stored;
