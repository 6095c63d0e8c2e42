//! `refheap`, a managed object heap with reference objects: the program. All that can be tested stands in
//! `jlr_commands`.
#![tactic(auto)]

mod places;

use jlr_command_line::report::status_after;
use jlr_commands::program::run;
use places::StandardPlaces;
use std::process::ExitCode;

fn main(rt: HostRuntime) -> ExitCode {
    let _places = StandardPlaces::filled(&rt);
    ExitCode::from(status_after(rt, &run(&rt, &rt)))
}
