//! What is true of scripts and of how they are written.

ghost use Rattle.lab_scripts.specs.Spellings.{SizesAreRead, SizesAreSpelled, TakesAreRead, TakesAreSpelled};
ghost use Rattle.lab_scripts.specs.OrderSpellings.{ClustersAreRead, ClustersAreSpelled, SetupsAreRead};
ghost use Rattle.lab_scripts.specs.OrderSpellings.{SetupsAreSpelled, OrdersAreRead, OrdersAreSpelled};
ghost use Rattle.lab_scripts.specs.Rests.{RestsIsRest};
ghost use Rattle.lab_scripts.specs.Laws.{FlushLeavesNone};

/// A line of a script of one instance has one spelling, and reading and writing it undo each other.
pub fn one_spelling()
    ensures sizes_read { SizesAreRead }
    ensures sizes_spelled { SizesAreSpelled }
    ensures takes_read { TakesAreRead }
    ensures takes_spelled { TakesAreSpelled }
{}

/// The same of the lines of a script of a cluster.
pub fn one_spelling_of_orders()
    ensures clusters_read { ClustersAreRead }
    ensures clusters_spelled { ClustersAreSpelled }
    ensures setups_read { SetupsAreRead }
    ensures setups_spelled { SetupsAreSpelled }
    ensures orders_read { OrdersAreRead }
    ensures orders_spelled { OrdersAreSpelled }
{}

/// What a line `rest` tests is that the cluster is at rest.
pub fn rests_is_rest()
    ensures { RestsIsRest }
{}

/// No packet waits once a flush is over.
pub fn flush_leaves_none()
    ensures { FlushLeavesNone }
{}
