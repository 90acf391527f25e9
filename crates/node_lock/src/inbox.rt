//! A bounded queue of jobs, and the passes to it.

ghost use Rattle.std.specs.Prelude.{◌≡◌, ◌≢◌, ◌+◌, ◌<◌, ◌≤◌, ◌==◌, [], ◌∷◌, ◌++◌, Bool, All};
ghost use Rattle.std.specs.Prelude.{sum_by, count_by, IfOk, IfErr, OnOk, MatchOption, vec_len};
ghost use Rattle.std.specs.Vec.{vec_capacity};
ghost use Rattle.crossbeam_queue.specs.Passes.{view, IsPassOf, ruled_capacity};
ghost use Rattle.node_lock.specs.inside.InboxRule.{put_in, taken_in, IsEven};
ghost use Rattle.node_lock.specs.Inboxes.{Passing, inbox_capacity, inbox_parts, most_passes, parts_of, after_put};
ghost use Rattle.node_lock.specs.Inboxes.{after_take, IsPassTo, IsNewPassTo, AreAllPasses, AreSettled};
ghost use Rattle.node_lock.specs.InboxFaults.{inbox_in, passes_in, IsInboxFault};
ghost use Rattle.node_lock.specs.declared.job.Job.{Job as JobValue};

use crate::job::Job;
use crossbeam_queue::protocol::{Join, Lesson, Outcome, Protocol, Split};
use crossbeam_queue::{Pass, RuledArrayQueue};
use std::alloc::{AllocError, Global};
use std::collections::LinkedList;
use std::error::Error;
use std::fmt;
use std::marker::Model;
use std::sync::Wait;

/// The most jobs in an inbox.
pub const INBOX_CAPACITY: usize = 1_024;

/// The most passes of an inbox.
pub const MOST_PASSES: u8 = 160;

/// The parts of an inbox. One pass has those that no other has.
const INBOX_PARTS: u16 = 256;

/// What a pass holds, put and took. No value of it is made.
pub struct PassCounts {
    pub parts: u64,
    pub put: LinkedList<Job>,
    pub taken: LinkedList<Job>,
}

/// The rule of the queue: jobs put are jobs taken and jobs left.
struct InboxRule;

impl Protocol<Job, PassCounts> for InboxRule {
    ghost use Rattle.std.specs.Prelude.{[]};
    ghost use Rattle.node_lock.specs.inside.InboxRule.{pass_counts, IsBalanced};
    ghost use Rattle.node_lock.specs.Inboxes.{inbox_parts};

    ghost holds = { IsBalanced };

    ghost first = { pass_counts inbox_parts [] [] };
}

/// A new pass gets one part, and passes are put together again.
struct OnePartSplit;

impl Split<PassCounts> for OnePartSplit {
    ghost use Rattle.std.specs.Prelude.{◌-◌, []};
    ghost use Rattle.node_lock.specs.inside.InboxRule.{pass_counts};

    ghost left = { λ v. pass_counts (v.parts - 1) v.put v.taken };

    ghost right = { λ v. pass_counts 1 [] [] };
}

impl Join<PassCounts> for OnePartSplit {
    ghost use Rattle.std.specs.Prelude.{[]};
    ghost use Rattle.node_lock.specs.inside.InboxRule.{pass_counts, joined_counts};

    ghost both = { joined_counts };

    ghost spent = { pass_counts 0 [] [] };
}

struct Puts;

impl Outcome<Job, PassCounts> for Puts {
    ghost use Rattle.std.specs.Prelude.{◌≡◌};
    ghost use Rattle.node_lock.specs.inside.InboxRule.{put_more};

    ghost then = { λ v x w. w ≡ put_more v x };
}

impl Lesson<Job, PassCounts> for Puts {
    ghost use Rattle.std.specs.Prelude.{⊤};

    ghost fact = { λ v items. ⊤ };
}

struct Takes;

impl Outcome<Job, PassCounts> for Takes {
    ghost use Rattle.std.specs.Prelude.{◌≡◌};
    ghost use Rattle.node_lock.specs.inside.InboxRule.{take_more};

    ghost then = { λ v x w. w ≡ take_more v x };
}

impl Lesson<Job, PassCounts> for Takes {
    ghost use Rattle.std.specs.Prelude.{⊤};

    ghost fact = { λ v items. ⊤ };
}

/// A job is taken by the pass that holds all parts.
struct Drains;

impl Outcome<Job, PassCounts> for Drains {
    ghost use Rattle.std.specs.Prelude.{◌≡◌};
    ghost use Rattle.node_lock.specs.inside.InboxRule.{take_more};

    ghost then = { λ v x w. w ≡ take_more v x };
}

impl Lesson<Job, PassCounts> for Drains {
    ghost use Rattle.node_lock.specs.inside.InboxRule.{IsEven};

    ghost fact = { IsEven };
}

type Queue = RuledArrayQueue<Job, PassCounts, InboxRule>;

/// A bounded queue of jobs that threads share. Contracts see which one it is.
#[derive(Drop)]
pub struct Inbox {
    queue: Queue,
}

impl Model for Inbox {
    ghost use Rattle.std.specs.Prelude.{◌≡◌};
    ghost use Rattle.atomic_table.specs.Seated.{TableId, table_id_coded};
    ghost use Rattle.crossbeam_queue.specs.Passes.{ruled_capacity};
    ghost use Rattle.node_lock.specs.Inboxes.{inbox_capacity};

    ghost Value = { TableId };

    ghost coded = { table_id_coded };

    ghost view = { λ i. i.queue.table.shared.table_id };

    ghost invariant = { λ i. ruled_capacity i.queue ≡ inbox_capacity };
}

/// The leave to put jobs into an inbox and to take them out. Contracts see it as its inbox, how many of the inbox's
/// parts it holds, and the jobs that it put and took.
#[derive(Drop)]
pub struct InboxPass {
    pass: Pass<Job, PassCounts>,
    parts: u16,
}

impl Model for InboxPass {
    ghost use Rattle.std.specs.Prelude.{◌≡◌, ◌<◌, []};
    ghost use Rattle.node_lock.specs.Inboxes.{Passing, passing};

    ghost Value = { Passing };

    ghost view = { λ p. passing p.pass.table_id p.pass.me.0.client.parts p.pass.me.0.client.put
        p.pass.me.0.client.taken };

    ghost invariant = { λ p. (p.pass.me.1 ≡ []) × (p.pass.me.0.client.parts ≡ p.parts) × (0 < p.parts) };
}

/// Why an inbox is not finished. Inbox and passes are handed back.
#[derive(Drop)]
pub enum InboxFault {
    /// A pass is absent.
    PassMissing {
        inbox: Inbox,
        passes: Vec<InboxPass>,
    },
    /// Memory is wanting.
    Memory {
        inbox: Inbox,
        passes: Vec<InboxPass>,
    },
}

impl fmt::Display for InboxFault {
    ghost use Rattle.std.specs.Prelude.{Some};
    ghost use Rattle.node_lock.specs.Texts.{inbox_fault_text};

    ghost output = { λ fault. Some (inbox_fault_text fault) };

    fn fmt<W: fmt::Write>(&self, f: &mut fmt::Formatter<W>) -> fmt::Result {
        f.write_str(match self {
            InboxFault::PassMissing { .. } => "Z6 PassMissing",
            InboxFault::Memory { .. } => "out of memory",
        })
    }
}

impl fmt::Debug for InboxFault {
    fn fmt<W: fmt::Write>(&self, f: &mut fmt::Formatter<W>) -> fmt::Result {
        match self {
            InboxFault::PassMissing { .. } => write!(f, "PassMissing"),
            InboxFault::Memory { .. } => write!(f, "Memory"),
        }
    }
}

impl Error for InboxFault {}

impl Inbox {
    /// An empty inbox, with so many passes, 1 to [`MOST_PASSES`].
    ///
    /// # Errors
    ///
    /// Only for want of memory.
    pub fn new(alloc: Global, passes: u8) -> Result<(Inbox, Vec<InboxPass>), AllocError>
        requires { (1 ≤ passes) × (passes ≤ most_passes) }
        ensures count { IfOk result (λ made. vec_len made.1 ≡ passes) }
        ensures fresh { IfOk result (λ made. All (IsNewPassTo made.0) made.1.items) }
        ensures all { IfOk result (λ made. AreAllPasses made.1.items) }
    {
        let (queue, mut first) = Queue::ruled(alloc, INBOX_CAPACITY)?;
        let mut made = Vec::new(alloc);
        for _number in 1..passes {
            let pass = queue.another::<OnePartSplit>(&mut first);
            made.push(InboxPass { pass, parts: 1 })?;
        }
        let parts = INBOX_PARTS - (passes as u16 - 1);
        made.push(InboxPass { pass: first, parts })?;
        Ok((Inbox { queue }, made))
    }

    /// Puts a job. The pass must be of this inbox.
    ///
    /// # Errors
    ///
    /// The inbox was full. The job is handed back.
    pub fn put<R: Wait>(&self, rt: &R, pass: &mut InboxPass, job: Job) -> Result<(), Job>
        requires { IsPassTo self.now pass.old }
        ensures ok { OnOk result (pass.new ≡ after_put pass.old job) }
        ensures err { IfErr result (λ back. (back ≡ job) × (pass.new ≡ pass.old)) }
    {
        self.queue.push_as::<Puts, R>(rt, &mut pass.pass, job)
    }

    /// Takes a job, or `None` where there was none. The pass must be of this inbox.
    pub fn take<R: Wait>(&self, rt: &R, pass: &mut InboxPass) -> Option<Job>
        requires { IsPassTo self.now pass.old }
        ensures { MatchOption result (pass.new ≡ pass.old) (λ job. pass.new ≡ after_take pass.old job) }
    {
        self.queue.pop_as::<Takes, R>(rt, &mut pass.pass)
    }

    /// The jobs that are left. Every pass must be of this inbox.
    ///
    /// # Errors
    ///
    /// A pass is absent; then want of memory. Inbox and passes are handed back.
    pub fn finish<R: Wait>(
        self,
        rt: &R,
        alloc: Global,
        mut passes: Vec<InboxPass>,
    ) -> Result<Vec<Job>, InboxFault>
        requires { All (IsPassTo self) passes.items }
        ensures all { IfOk result (λ _. AreAllPasses passes.items) }
        ensures ok { IfOk result (λ left. AreSettled passes.items left.items) }
        ensures err { IfErr result (IsInboxFault passes.items) }
        ensures inbox { IfErr result (λ fault. inbox_in fault ≡ self) }
        ensures passes { IfErr result (λ fault. passes_in fault ≡ passes.items) }
    {
        if !are_all(&passes) {
            return Err(InboxFault::PassMissing {
                inbox: self,
                passes,
            });
        }
        let Ok(left) = Vec::with_capacity(alloc, INBOX_CAPACITY) else {
            return Err(InboxFault::Memory {
                inbox: self,
                passes,
            });
        };
        let Inbox { queue } = self;
        let Some(last) = passes.pop() else {
            unreachable!()
        };
        let InboxPass { pass, parts: _ } = last;
        let all = merge_passes(&queue, passes, pass);
        Ok(drain_queue(rt, &queue, all, left))
    }
}

/// Whether no pass is absent.
fn are_all(passes: &[InboxPass]) -> bool
    ensures { result ≡ (sum_by parts_of passes.now == inbox_parts) }
{
    let mut sum = 0u32;
    for pass in passes {
        sum += pass.parts as u32;
        if sum > INBOX_PARTS as u32 {
            return false;
        }
    }
    sum == INBOX_PARTS as u32
}

/// All these passes as one.
fn merge_passes(
    queue: &Queue,
    mut passes: Vec<InboxPass>,
    mut all: Pass<Job, PassCounts>,
) -> Pass<Job, PassCounts>
    requires all { IsPassOf queue.now all }
    requires some { 0 < (view all).parts }
    requires passes { All (IsPassTo queue.now.table.shared.table_id) passes.items }
    ensures pass { IsPassOf queue.now result }
    ensures parts { (view result).parts ≡ (view all).parts + sum_by parts_of passes.items }
    ensures put { (test : JobValue → Bool) → put_in test (view result)
        ≡ put_in test (view all) + sum_by (λ (p : Passing). count_by test p.put) passes.items }
    ensures taken { (test : JobValue → Bool) → taken_in test (view result)
        ≡ taken_in test (view all) + sum_by (λ (p : Passing). count_by test p.taken) passes.items }
{
    while let Some(next) = passes.pop() {
        let InboxPass { pass, parts: _ } = next;
        queue.absorb::<OnePartSplit>(&mut all, pass);
    }
    all
}

/// The jobs left in the queue, for the pass that holds all parts.
fn drain_queue<R: Wait>(
    rt: &R,
    queue: &Queue,
    mut all: Pass<Job, PassCounts>,
    mut left: Vec<Job>,
) -> Vec<Job>
    requires pass { IsPassOf queue.now all }
    requires parts { (view all).parts ≡ inbox_parts }
    requires empty { left.items ≡ [] }
    requires room { (inbox_capacity ≤ vec_capacity left) × (ruled_capacity queue.now ≡ inbox_capacity) }
    ensures { IsEven (view all) result.items }
{
    let count = queue.len_as::<Drains, R>(rt, &mut all);
    for _i in 0..count {
        let Some(job) = queue.pop_as::<Drains, R>(rt, &mut all) else {
            return left;
        };
        left.push_reserved(job);
    }
    queue.learn_as::<Drains>(&mut all);
    left
}
