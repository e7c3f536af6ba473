//! The program `zarrs_run`: it runs the script on standard input, and ends with the status of `run_script`.
#![tactic(auto)]

use std::io;
use std::process::ExitCode;
use zarrs_script::run_script;

fn main(rt: HostRuntime) -> ExitCode {
    let alloc = rt.alloc();
    let mut reader = rt.reader();
    let mut writer = io::writer(&rt);
    ExitCode::from(run_script(alloc, &mut reader, &mut writer))
}
