//! The words after the program's name.

use anyhow::{Context, Result, bail};

/// A job that users wait for.
#[derive(Clone, Copy, Debug, PartialEq, Eq)]
pub enum Job {
    /// Checks of accesses, as lines of clients, between commands that arrive.
    Decide,
    /// Commands from their owners to all nodes, as frames.
    Deliver,
    /// Commands at a policy that is large already.
    Change,
    /// Listings of users, roles, permissions and operations, as lines of clients.
    List,
    /// Receipts of several seats against the history of their node.
    Audit,
    /// Clusters in a laboratory, most of them with liars.
    Simulate,
}

impl Job {
    /// The word that asks for the job.
    pub fn name(self) -> &'static str {
        match self {
            Job::Decide => "decide",
            Job::Deliver => "deliver",
            Job::Change => "change",
            Job::List => "list",
            Job::Audit => "audit",
            Job::Simulate => "simulate",
        }
    }

    /// The job that this word asks for.
    fn named(word: &str) -> Option<Job> {
        for job in &JOBS {
            if job.name() == word {
                return Some(*job);
            }
        }
        None
    }
}

/// All jobs.
pub static JOBS: [Job; 6] = [
    Job::Decide,
    Job::Deliver,
    Job::Change,
    Job::List,
    Job::Audit,
    Job::Simulate,
];

/// The one job that a word asks for, or none where it asks for all.
fn asked_job(word: &str) -> Result<Option<Job>> {
    if word == "all" {
        return Ok(None);
    }
    Ok(Some(Job::named(word).context("no such job")?))
}

/// What the program is to do.
#[derive(Clone, Copy)]
pub struct Words {
    /// The one job that is asked for, or all where there is none.
    job: Option<Job>,
    /// What the input is made from.
    pub seed: u32,
    /// The input is of a size that is divided by this.
    pub share: u32,
}

impl Words {
    /// A job or `all`, a seed, and a share, which is 1 where it is left out.
    ///
    /// # Errors
    ///
    /// There are other words, or the first names no job.
    pub fn read(words: &[String]) -> Result<Words> {
        let job = asked_job(words.first().context("no job")?)?;
        let seed = words.get(1).context("no seed")?.as_str().parse::<u32>()?;
        let share = match words.get(2) {
            Some(share) => share.as_str().parse::<u32>()?,
            None => 1,
        };
        if share == 0 || words.len() > 3 {
            bail!("JOB SEED [SHARE]");
        }
        Ok(Words { job, seed, share })
    }

    /// Whether the words ask for this job.
    pub fn asks_for(&self, job: Job) -> bool {
        self.job.is_none_or(|asked| asked == job)
    }
}
