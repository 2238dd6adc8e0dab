// What the turns of a writer and of the collector share: the tests of sizes and of range, what the stage tells, and graying.
#![tactic(auto)]

pub mod gray;
pub mod limits;
pub mod range;
pub mod stage;

pub use machine::NONE;
