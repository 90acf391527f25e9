//! How many connections of peers there may be.

ghost use Rattle.std.specs.Prelude.{◌≡◌, ◌<◌, ◌≤◌};
ghost use Rattle.frame_queues.specs.Limits.{each_within, newcomers_within, most_each, most_newcomers, newcomers};
ghost use Rattle.frame_queues.specs.Limits.{others, places_for};

/// The most slots of each peer.
const MOST_EACH: u32 = 2;

/// The newcomers for which there is room beside two slots of each peer.
const NEWCOMERS: u8 = 32;

/// The most newcomers.
const MOST_NEWCOMERS: u8 = 128;

/// How many connections of peers there may be: so many slots of each peer, and so many newcomers.
#[derive(Clone, Copy, Debug, PartialEq, Eq)]
pub struct Limits {
    each: u8,
    newcomers: u8,
    ghost few: { each ≤ most_each },
    ghost some: { 0 < newcomers },
    ghost bound: { newcomers ≤ most_newcomers },
}

impl Limits {
    /// Two slots of each peer, and 32 newcomers.
    pub fn new() -> Limits
        ensures each { result.each ≡ most_each }
        ensures newcomers { result.newcomers ≡ newcomers }
    {
        Limits {
            each: MOST_EACH as u8,
            newcomers: NEWCOMERS,
        }
    }

    /// So many connections in all, in a cluster of so many nodes, where that leaves room for a slot of each peer and a
    /// newcomer: two slots of each peer, or one where two would leave fewer than 32 newcomers; and what is left for
    /// newcomers, 128 at most.
    pub fn within(nodes: u8, most: u8) -> Limits
        ensures each { result.each ≡ each_within nodes most }
        ensures newcomers { result.newcomers ≡ newcomers_within nodes most }
    {
        let peers = u32::from(nodes).saturating_sub(1);
        let most = u32::from(most);
        let has_room = MOST_EACH * peers + u32::from(NEWCOMERS) <= most;
        let each = if has_room { MOST_EACH } else { 1 };
        let left = most.saturating_sub(each * peers);
        Limits {
            each: each as u8,
            newcomers: left.clamp(1, u32::from(MOST_NEWCOMERS)) as u8,
        }
    }

    /// The slots of each peer: two at most.
    pub fn each(&self) -> u8
        ensures { result ≡ self.now.each }
    {
        self.each
    }

    /// The most newcomers: one at least, 128 at most.
    pub fn newcomers(&self) -> u8
        ensures { result ≡ self.now.newcomers }
    {
        self.newcomers
    }

    /// How many connections there are at most, at the node of this index among so many.
    pub fn places(&self, nodes: u8, me: u8) -> usize
        ensures { result ≡ places_for nodes me self.now.each self.now.newcomers }
    {
        usize::from(self.each) * others(nodes, me) + usize::from(self.newcomers)
    }
}

/// How many other nodes there are.
fn others(nodes: u8, me: u8) -> usize
    ensures { result ≡ others nodes me }
{
    if me < nodes {
        usize::from(nodes) - 1
    } else {
        usize::from(nodes)
    }
}
