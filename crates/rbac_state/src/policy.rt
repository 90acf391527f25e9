//! The policy: both relations, what a command changes in them, and the review functions.

ghost use Rattle.std.specs.Prelude.{◌≡◌, ℕ, Contains, ◌+◌, ◌<◌, ◌≤◌, ◌&&◌, find, IfOk, OnOk, OnErr};
ghost use Rattle.std.specs.List.{list_any};
ghost use Rattle.std.specs.Ordering.{nat_cmp};
ghost use Rattle.rbac_state.specs.Policies.{permission_cmp, assigned_in, granted_in, HasRole, RoleMay};
ghost use Rattle.rbac_state.specs.Policies.{UserMay, least_room, IsBlank, SameRelations, IsApplied};
ghost use Rattle.rbac_state.specs.Listings.{IsListing};

use crate::limits::LEAST_ROOM;
use crate::listing::ascending;
use crate::permission_number::{Permission, ascending_permissions, number_of};
use crate::relation::{Grants, Relation, Users};
use crate::select;
use quorum_sizes::NodeName;
use role_commands::{Command, RoleTable};
use std::alloc::{AllocError, Global};
use std::fmt::Debug;
use std::marker::Model;

/// Who has which role, and which role may do what. Contracts see it as the role table, the two
/// relations and the room.
#[derive(Drop, Debug)]
pub struct Policy {
    roles: RoleTable,
    assigned: Users,
    granted: Grants,
}

impl Model for Policy {
    ghost use Rattle.std.specs.Prelude.{min, map};
    ghost use Rattle.std.specs.FinSet as set;
    ghost use Rattle.rbac_state.specs.Policies.{PolicyValue, policy_code};

    ghost Value = { PolicyValue };

    ghost coded = { policy_code };

    ghost use Rattle.sorted_pairs.specs.Blocks.{items_in};
    ghost use Rattle.rbac_state.specs.inside.PermissionNumbers.{grant_of};
    ghost use Rattle.rbac_state.specs.inside.Relations.{AreKept, room_of};

    ghost view = { λ a. record {
      table = a.roles;
      assignments = set.from_list (items_in a.assigned.by_first.items);
      grants = set.from_list (map grant_of (items_in a.granted.by_first.items));
      room = min (room_of a.assigned) (room_of a.granted);
    } };

    ghost invariant = { λ a. AreKept a.assigned a.granted };
}

impl Policy {
    /// The policy of these roles, in which no user has a role and no role may do anything. It takes
    /// no memory.
    pub fn new(alloc: Global, roles: RoleTable) -> Self
        ensures { IsBlank roles result }
    {
        Policy {
            roles,
            assigned: Relation::new(alloc),
            granted: Relation::new(alloc),
        }
    }

    /// Makes room for 64 commands.
    ///
    /// # Errors
    ///
    /// Only for want of memory, where there is less room than that. The relations stay as they were.
    #[inline(always)]
    pub fn make_room(&mut self) -> Result<(), AllocError>
        ensures ok { OnOk result (least_room ≤ self.new.room) }
        ensures full { OnErr result (self.old.room < least_room) }
        ensures more { self.old.room ≤ self.new.room }
        ensures same { SameRelations self.old self.new }
    {
        self.assigned.make_room(LEAST_ROOM)?;
        self.granted.make_room(LEAST_ROOM)?;
        Ok(())
    }

    /// How many commands can be applied before room has to be made.
    pub fn room(&self) -> usize
        ensures { result ≡ self.now.room }
    {
        self.assigned.room().min(self.granted.room())
    }

    /// Applies the next command of a node's stream. It changes the one pair that it names, or takes
    /// away all pairs of the role, where the node is the owner of its role, and has no effect
    /// elsewhere. It takes no memory.
    pub fn apply(&mut self, owner: NodeName, command: Command)
        requires { 0 < self.old.room }
        ensures applied { IsApplied owner command self.old self.new }
        ensures room { self.old.room ≤ self.new.room + 1 }
    {
        if !self.roles.is_owned_by(command.role(), owner) {
            return;
        }
        match command {
            Command::Assign { user, role } => self.assigned.put(user as u64, role),
            Command::Deassign { user, role } => self.assigned.take_away(user as u64, role),
            Command::Grant {
                role,
                operation,
                object,
            } => self.granted.put(number_of((operation, object)), role),
            Command::Revoke {
                role,
                operation,
                object,
            } => self.granted.take_away(number_of((operation, object)), role),
            Command::Clear { role } => {
                self.assigned.take_away_second(role);
                self.granted.take_away_second(role);
            }
        }
    }

    /// The role table.
    pub fn roles(&self) -> &RoleTable
        ensures { result.now ≡ self.now.table }
    {
        &self.roles
    }

    /// Whether the user has the role.
    pub fn is_assigned(&self, user: u32, role: u16) -> bool
        ensures { result ≡ assigned_in self.now user role }
    {
        self.assigned.has(user as u64, role)
    }

    /// Whether the role may do the operation on the object.
    pub fn is_granted(&self, role: u16, operation: u16, object: u32) -> bool
        ensures { result ≡ granted_in self.now operation object role }
    {
        self.granted.has(number_of((operation, object)), role)
    }

    /// The first of these roles that the user has and that may do the operation on the object.
    pub fn first_granting(
        &self,
        user: u32,
        roles: &[u16],
        operation: u16,
        object: u32,
    ) -> Option<u16>
        ensures { result
            ≡ find (λ role. assigned_in self.now user role && granted_in self.now operation object role) roles.now }
    {
        select::first_granting(
            &self.assigned,
            &self.granted,
            user as u64,
            roles,
            number_of((operation, object)),
        )
    }

    /// Whether the user has one of these roles. However many they are, the user's own are looked up once.
    pub fn has_one_of(&self, user: u32, roles: &[u16]) -> bool
        ensures { result ≡ list_any (assigned_in self.now user) roles.now }
    {
        select::has_one_of(&self.assigned, user as u64, roles)
    }

    /// The users that have the role, in ascending order.
    ///
    /// # Errors
    ///
    /// Only for want of memory.
    pub fn assigned_users(&self, role: u16) -> Result<Vec<u32>, AllocError>
        ensures { IfOk result (λ users.
            IsListing nat_cmp (λ user. HasRole self.now user role) users.items) }
    {
        select::seconds(self.alloc(), self.assigned.with_second(), role as u64)
    }

    /// The roles that the user has, in ascending order.
    ///
    /// # Errors
    ///
    /// Only for want of memory.
    pub fn assigned_roles(&self, user: u32) -> Result<Vec<u16>, AllocError>
        ensures { IfOk result (λ roles.
            IsListing nat_cmp (λ role. HasRole self.now user role) roles.items) }
    {
        select::seconds(self.alloc(), self.assigned.with_first(), user as u64)
    }

    /// What the role may do, in ascending order of the operation and then of the object.
    ///
    /// # Errors
    ///
    /// Only for want of memory.
    pub fn role_permissions(&self, role: u16) -> Result<Vec<Permission>, AllocError>
        ensures { IfOk result (λ permissions.
            IsListing permission_cmp (λ p. RoleMay self.now p.0 p.1 role) permissions.items) }
    {
        select::seconds(self.alloc(), self.granted.with_second(), role as u64)
    }

    /// What some role of the user may do, in ascending order of the operation and then of the object.
    ///
    /// # Errors
    ///
    /// Only for want of memory.
    pub fn user_permissions(&self, user: u32) -> Result<Vec<Permission>, AllocError>
        ensures { IfOk result (λ permissions.
            IsListing permission_cmp (λ p. UserMay self.now user p.0 p.1) permissions.items) }
    {
        let roles = self.assigned_roles(user)?;
        self.permissions_of(&roles)
    }

    /// What some role of these may do, in ascending order of the operation and then of the object.
    ///
    /// # Errors
    ///
    /// Only for want of memory.
    pub fn permissions_of(&self, roles: &[u16]) -> Result<Vec<Permission>, AllocError>
        ensures { IfOk result (λ permissions.
            IsListing permission_cmp
            (λ p. (role : ℕ) × Contains roles.now role × RoleMay self.now p.0 p.1 role) permissions.items) }
    {
        let permissions = select::permissions(self.alloc(), &self.granted, roles)?;
        ascending_permissions(permissions)
    }

    /// The operations that the role may do on the object, in ascending order.
    ///
    /// # Errors
    ///
    /// Only for want of memory.
    pub fn role_operations(&self, role: u16, object: u32) -> Result<Vec<u16>, AllocError>
        ensures { IfOk result (λ operations.
            IsListing nat_cmp (λ operation. RoleMay self.now operation object role) operations.items) }
    {
        self.operations_of(&[role], object)
    }

    /// The operations that some role of the user may do on the object, in ascending order.
    ///
    /// # Errors
    ///
    /// Only for want of memory.
    pub fn user_operations(&self, user: u32, object: u32) -> Result<Vec<u16>, AllocError>
        ensures { IfOk result (λ operations.
            IsListing nat_cmp (λ operation. UserMay self.now user operation object) operations.items) }
    {
        let roles = self.assigned_roles(user)?;
        self.operations_of(&roles, object)
    }

    /// The operations that some role of these may do on the object, in ascending order.
    fn operations_of(&self, roles: &[u16], object: u32) -> Result<Vec<u16>, AllocError>
        ensures { IfOk result (λ operations. IsListing nat_cmp
            (λ operation. (role : ℕ) × Contains roles.now role × RoleMay self.now operation object role)
            operations.items) }
    {
        let operations = select::operations(self.alloc(), &self.granted, roles, object)?;
        Ok(ascending(operations))
    }

    /// Where the policy's lists have their memory from.
    fn alloc(&self) -> Global {
        self.assigned.alloc()
    }
}
