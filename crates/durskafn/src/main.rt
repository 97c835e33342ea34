// durskafn: the programs over the proved libraries, a word each. Arguments, files and limits are handled here; what is printed
// for a journal, and its progress, comes from the libraries.
#![tactic(auto)]

mod argument;
mod call;
mod help;
mod input;
mod system;
mod word;

use std::process::ExitCode;

fn main(rt: HostRuntime) -> ExitCode {
    ExitCode::from(call::run(&rt))
}
