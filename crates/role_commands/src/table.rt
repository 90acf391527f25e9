//! Which node owns which role.

ghost use Rattle.std.specs.Prelude.{◌≡◌, ◌<◌, IfSome, IfOk, OnOk, OnErr};
ghost use Rattle.std.specs.FinMap as map;
ghost use Rattle.role_commands.specs.Tables.{IsTable, owns, roles_of_owner, no_roles, with_role};
ghost use Rattle.role_commands.specs.TableFaults.{add_due, AnswersDue};

use quorum_sizes::{NodeName, Sizes};
use std::alloc::{AllocError, Global};
use std::collections::BTreeMap;
use std::error::Error;
use std::fmt;
use std::marker::Model;

/// The most roles of a table.
const MOST_ROLES: usize = 1024;

/// Why a role is not added. Written as its code and its name.
#[derive(Clone, Copy, Debug, PartialEq, Eq)]
pub enum TableFault {
    /// The owner is no node of the cluster.
    NoSuchNode,
    /// The role is in the table already.
    Repeated,
    /// The table has 1,024 roles already.
    TooManyRoles,
    /// Memory is wanting.
    Memory,
}

impl fmt::Display for TableFault {
    ghost use Rattle.std.specs.Prelude.{Some};
    ghost use Rattle.role_commands.specs.TableFaults.{table_fault_text};

    ghost output = { λ fault. Some (table_fault_text fault) };

    fn fmt<W: fmt::Write>(&self, f: &mut fmt::Formatter<W>) -> fmt::Result {
        f.write_str(match self {
            TableFault::NoSuchNode => "C1 NoSuchNode",
            TableFault::Repeated => "C2 Repeated",
            TableFault::TooManyRoles => "C3 TooManyRoles",
            TableFault::Memory => "out of memory",
        })
    }
}

impl Error for TableFault {}

/// The sizes of a cluster, and the one owner of each role. A table has at most 1,024 roles, and each
/// owner is a node of the cluster.
#[derive(Drop, Debug)]
pub struct RoleTable {
    sizes: Sizes,
    owners: BTreeMap<u16, NodeName>,
}

impl Model for RoleTable {
    ghost use Rattle.role_commands.specs.Tables.{Table, table_code, table_of, AreEntries};

    ghost Value = { Table };

    ghost coded = { table_code };

    ghost view = { λ a. table_of a.sizes a.owners.entries };

    ghost invariant = { λ a. AreEntries a.sizes a.owners.entries };
}

impl RoleTable {
    /// The table of a cluster of these sizes, with no roles. It takes no memory.
    pub fn new(alloc: Global, sizes: Sizes) -> Self
        ensures { result ≡ no_roles sizes }
    {
        RoleTable {
            sizes,
            owners: BTreeMap::new(alloc),
        }
    }

    /// Adds the role with its owner.
    ///
    /// # Errors
    ///
    /// The first of these that holds: the owner is no node, the table has the role already, and it
    /// has 1,024 roles; then want of memory. The table stays as it was.
    pub fn add(&mut self, role: u16, owner: u8) -> Result<(), TableFault>
        ensures due { AnswersDue (add_due self.old role owner) result }
        ensures ok { OnOk result (self.new ≡ with_role self.old role owner) }
        ensures err { OnErr result (self.new ≡ self.old) }
    {
        let Some(owner) = self.sizes.name(owner) else {
            return Err(TableFault::NoSuchNode);
        };
        if self.owners.contains_key(&role) {
            return Err(TableFault::Repeated);
        }
        if self.owners.len() >= MOST_ROLES {
            return Err(TableFault::TooManyRoles);
        }
        let Ok(_) = self.owners.insert(role, owner) else {
            return Err(TableFault::Memory);
        };
        Ok(())
    }

    /// The owner of the role, if the table has it.
    pub fn owner(&self, role: u16) -> Option<NodeName>
        ensures value { result ≡ map.get self.now.owners role }
        ensures node { IfSome result (λ owner. owner < self.now.sizes.nodes) }
        ensures table { IsTable self.now }
    {
        self.owners.get(&role).copied()
    }

    /// Whether the table has the role, with this node as its owner.
    pub fn is_owned_by(&self, role: u16, node: NodeName) -> bool
        ensures value { result ≡ owns self.now node role }
        ensures table { IsTable self.now }
    {
        match self.owner(role) {
            Some(owner) => owner == node,
            None => false,
        }
    }

    /// The roles that this node owns, in ascending order.
    ///
    /// # Errors
    ///
    /// Only for want of memory.
    pub fn roles_of_owner(&self, alloc: Global, owner: NodeName) -> Result<Vec<u16>, AllocError>
        ensures { IfOk result (λ roles. roles.items ≡ roles_of_owner self.now owner) }
    {
        self.owners
            .keys()
            .copied()
            .filter(|role| self.is_owned_by(*role, owner))
            .collect(alloc)
    }

    /// The sizes of the cluster.
    pub fn sizes(&self) -> Sizes
        ensures value { result ≡ self.now.sizes }
        ensures table { IsTable self.now }
    {
        self.sizes
    }

    /// An equal table.
    ///
    /// # Errors
    ///
    /// Only for want of memory.
    pub fn copy(&self, alloc: Global) -> Result<RoleTable, AllocError>
        ensures { IfOk result (λ table. table ≡ self.now) }
    {
        let mut owners = BTreeMap::new(alloc);
        owners.extend(&self.owners)?;
        Ok(RoleTable {
            sizes: self.sizes,
            owners,
        })
    }
}
