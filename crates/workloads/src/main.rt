//! Jobs that users of the registry wait for, each on an input that is made from a seed, to be timed.
//!
//! `workloads JOB SEED [SHARE]` does a job on the seed's input, or `all` jobs, on a part of it where a share is given,
//! and writes a digest of all that was answered. The same words give the same digest.
#![tactic(auto)]

mod accesses;
mod audit;
mod change;
mod decide;
mod deck;
mod deliver;
mod digest;
mod history;
mod line;
mod list;
mod registry;
mod sample;
mod simulate;
mod words;

use anyhow::Result;
use digest::Digest;
use std::alloc::Global;
use std::env;
use words::{JOBS, Job, Words};

fn main(rt: HostRuntime) -> Result<()> {
    let words = words_given(&rt)?;
    for job in &JOBS {
        if words.asks_for(*job) {
            let digest = run(rt.alloc(), *job, &words)?;
            println!(rt; "{} {:016x}", job.name(), digest.value())?;
        }
    }
    Ok(())
}

fn words_given(rt: &HostRuntime) -> Result<Words> {
    let words: Vec<String> = env::args(rt)?.skip(1).collect(rt.alloc())?;
    Words::read(&words)
}

/// Does the job. The digest of its answers.
fn run(alloc: Global, job: Job, words: &Words) -> Result<Digest> {
    let (seed, share) = (words.seed, words.share);
    match job {
        Job::Decide => decide::run(alloc, seed, share),
        Job::Deliver => deliver::run(alloc, seed, share),
        Job::Change => change::run(alloc, seed, share),
        Job::List => list::run(alloc, seed, share),
        Job::Audit => audit::run(alloc, seed, share),
        Job::Simulate => simulate::run(alloc, seed, share),
    }
}
