// The same program as `play`, which the gate runs on long turn files and odd lines: a program has one input.
#![tactic(auto)]

use playing::Broken;
use std::process::ExitCode;

fn main(rt: HostRuntime) -> Result<ExitCode, Broken> {
    playing::play_input(&rt)
}
