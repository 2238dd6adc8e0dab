// Plays the text of standard input.
#![tactic(auto)]

use playing::Broken;
use std::process::ExitCode;

fn main(rt: HostRuntime) -> Result<ExitCode, Broken> {
    playing::play_input(&rt)
}
