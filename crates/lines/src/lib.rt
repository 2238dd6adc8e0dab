// The player's text, without the machine's memory: a line of the input is read, an output line is written.
#![tactic(auto)]

use machine::{Answer, Call, Counts};

mod numbers;
mod out_line;
mod parse;

pub use out_line::{LONGEST, put_reply};
pub use parse::parse_line;

// A line of the input: Start(N, g, M), Write(w, the writer's call), with the numbers as read.
#[derive(Clone, Copy)]
pub enum Line {
    Start(u32, u32, u32),
    Write(u32, Call),
    Collect,
    Census,
}

// What a line is answered with that is not refused.
#[derive(Clone, Copy)]
pub enum Reply {
    Answered(Answer),
    Counted(Counts),
}
