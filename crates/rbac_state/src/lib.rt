//! Who has which role and which role may do what, as the commands in the owners' streams say it:
//! the relations of Core RBAC (ANSI INCITS 359-2004) with its review functions.
#![tactic(auto)]

pub mod laws;
mod limits;
mod listing;
mod numbered;
mod permission_number;
mod policy;
mod relation;
mod select;
mod shown;

pub use laws::law_one_more;
pub use permission_number::Permission;
pub use policy::Policy;
