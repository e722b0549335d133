// The program of `lesson` with its exit status: 0, 1 or 2, as kos_lesson answers.
#![tactic(auto)]

use std::process::ExitCode;

fn main(rt: HostRuntime) -> ExitCode {
    ExitCode::from(lesson::kos_lesson(&rt) as u8)
}
