//! Giving the packets of a world until a pass over them records nothing.

ghost use Rattle.std.specs.Prelude.{◌≡◌, ◌+◌, length, IfOk, OnOk, OnErr};
ghost use Rattle.byz_world.specs.Settled.{IsProlonged, IsSettled, MayAdd, after_pass, pass_adds, longest_run, settled};
ghost use Rattle.byz_world.specs.Worlds.{IsClusterRunOf};

use crate::step::Step;
use crate::world::World;
use std::alloc::AllocError;

impl World {
    /// Gives the packets of the pool, pass after pass, until nothing is recorded any more. How many events were.
    ///
    /// Where neither the pool nor a correct node's history is full then, the cluster is at rest.
    ///
    /// # Errors
    ///
    /// Only for want of memory, where some packet of the pool would still be recorded. What was given until then stays
    /// so.
    pub fn settle(&mut self) -> Result<u64, AllocError>
        ensures prolonged { IsProlonged self.old self.new }
        ensures settled { OnOk result (IsSettled self.new) }
        ensures count { IfOk result (λ count. length self.new.run ≡ length self.old.run + count) }
        ensures after { OnOk result (self.new ≡ settled self.old) }
        ensures memory { OnErr result (MayAdd self.new) }
        ensures run { IsClusterRunOf self.new }
    {
        let before = self.run_len();
        for _pass in 0..self.longest_run() {
            let adds = self.give_each()?;
            if !adds {
                return Ok(self.run_len() - before);
            }
        }
        Ok(self.run_len() - before)
    }

    /// No run has more events.
    fn longest_run(&self) -> u64
        ensures value { result ≡ longest_run self.now.config }
        ensures run { IsClusterRunOf self.now }
    {
        u64::from(self.sizes().n()) * u64::from(self.config().limit())
    }

    /// Gives each packet that the pool has, or none where the cluster is at rest, since none counts there. Whether
    /// something was recorded.
    fn give_each(&mut self) -> Result<bool, AllocError>
        ensures prolonged { IsProlonged self.old self.new }
        ensures adds { IfOk result (λ adds. adds ≡ pass_adds self.old) }
        ensures after { OnOk result (self.new ≡ after_pass self.old) }
        ensures memory { OnErr result (MayAdd self.new) }
        ensures run { IsClusterRunOf self.new }
    {
        let before = self.run_len();
        if self.at_rest() {
            return Ok(false);
        }
        for packet in 0..self.sent_len() {
            self.pass(&Step::Give { packet })?;
        }
        Ok(before < self.run_len())
    }
}
