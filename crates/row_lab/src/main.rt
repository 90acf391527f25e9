//! A laboratory for the libraries. It reads rows on standard input, each a call of a layer, and writes a line for each:
//! what came. Where memory is wanting for a call, nothing may have changed, and the call is made once more. Files are
//! parted by an empty line.
#![tactic(auto)]

mod journal;
mod serving;

use cluster_rows::Cluster;
use journal::Journal;
use link_rows::Link;
use lower_rows::Lower;
use row_words::{Layers, Words, run};
use serving::Serving;
use std::io;
use std::process::ExitCode;

/// Runs the rows of a file, by the library whose layer its first row begins. Whether each was a row.
fn run_file(rt: &HostRuntime, rows: &str) -> io::Result<bool> {
    let layer = Words::new(rows.lines().next().unwrap_or("")).word();
    if Link::has(layer) {
        return run::<Link>(rt, rows);
    }
    if Lower::has(layer) {
        return run::<Lower>(rt, rows);
    }
    if Cluster::has(layer) {
        return run::<Cluster>(rt, rows);
    }
    if Serving::has(layer) {
        return run::<Serving>(rt, rows);
    }
    run::<Journal>(rt, rows)
}

fn main(rt: HostRuntime) -> io::Result<ExitCode> {
    let rows = io::read_to_string(rt.alloc(), rt.reader())?;
    for file in rows.split("\n\n") {
        if !run_file(&rt, file)? {
            return Ok(ExitCode::from(3));
        }
    }
    Ok(ExitCode::SUCCESS)
}
