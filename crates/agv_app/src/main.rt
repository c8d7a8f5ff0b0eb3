//! The program of the desk (`run_program` of `agv_app_run`).
#![tactic(auto)]

use agv_app_run::run_program;
use std::process::ExitCode;

fn main(rt: HostRuntime) -> ExitCode {
    run_program(&rt)
}
