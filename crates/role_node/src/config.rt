//! What a node is told at its start.

ghost use Rattle.std.specs.Prelude.{◌≡◌, ◌≤◌, IfOk};
ghost use Rattle.role_node.specs.Configs.{most_events, config_due};

use role_commands::RoleTable;
use std::alloc::{AllocError, Global};
use std::marker::Model;

/// The most events that a node may be told to record.
pub const MOST_EVENTS: u32 = 4_194_304;

/// What a node is told at its start: the number of its cluster, the roles with their owners, and how many
/// events it may record.
#[derive(Drop, Debug)]
pub struct Config {
    cluster: u32,
    roles: RoleTable,
    limit: u32,
}

impl Model for Config {
    ghost use Rattle.std.specs.Prelude.{◌≤◌};
    ghost use Rattle.role_node.specs.Configs.{ConfigValue, config_code, most_events};

    ghost Value = { ConfigValue };

    ghost coded = { config_code };

    ghost view = { λ a. record { cluster = a.cluster; roles = a.roles; limit = a.limit } };

    ghost invariant = { λ a. a.limit ≤ most_events };
}

impl Config {
    /// A configuration, or `None` where `limit` is 0 or above [`MOST_EVENTS`]. It takes no memory.
    pub fn new(cluster: u32, roles: RoleTable, limit: u32) -> Option<Config>
        ensures { result ≡ config_due cluster roles limit }
    {
        if limit < 1 || limit > MOST_EVENTS {
            return None;
        }
        Some(Config {
            cluster,
            roles,
            limit,
        })
    }

    /// The number of the cluster.
    pub fn cluster(&self) -> u32
        ensures { result ≡ self.now.cluster }
    {
        self.cluster
    }

    /// The roles, each with its owner.
    pub fn roles(&self) -> &RoleTable
        ensures value { result.now ≡ self.now.roles }
        ensures limit { self.now.limit ≤ most_events }
    {
        &self.roles
    }

    /// How many events a node may record.
    pub fn limit(&self) -> u32
        ensures { result ≡ self.now.limit }
    {
        self.limit
    }

    /// An equal configuration.
    ///
    /// # Errors
    ///
    /// Only for want of memory.
    pub fn copy(&self, alloc: Global) -> Result<Config, AllocError>
        ensures { IfOk result (λ config. config ≡ self.now) }
    {
        Ok(Config {
            cluster: self.cluster,
            roles: self.roles.copy(alloc)?,
            limit: self.limit,
        })
    }
}
