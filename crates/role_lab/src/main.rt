//! A laboratory for the registry. It reads a script on standard input, of one instance of the broadcast or of a
//! cluster, and writes one line for each line of it.
//!
//! `lab_scripts` says what a script means, and what running it does.
#![tactic(auto)]

use fault::ScriptFault;
pub use lab_scripts::{fault, laws, run};
use link_frames::Watched;
use run::run_script;
use std::io;
use std::process::ExitCode;

fn main(rt: HostRuntime) -> ExitCode {
    let mut reader = Watched::new(rt.reader());
    let mut writer = Watched::new(io::writer(&rt));
    match run_script(rt.alloc(), &mut reader, &mut writer) {
        Ok(()) => ExitCode::SUCCESS,
        Err(fault) => {
            if matches!(&fault, ScriptFault::BadScript { .. }) {
                let _ = eprintln!(rt; "role_lab: {fault}");
            }
            ExitCode::from(fault.status())
        }
    }
}
