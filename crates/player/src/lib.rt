// The player: lines of text are played on its own store by the public calls, and each gives an output line.
#![tactic(auto)]

mod feed;
mod store;

pub use feed::Player;
