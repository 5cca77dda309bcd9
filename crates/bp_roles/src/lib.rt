//! A region with other roles for the three slots of its superblock, which is a region like any other: so the code that
//! serves images with the magic number `BPFSRS3A` also serves those with `BPFSRS3B` and the calls inside a transaction.
#![tactic(auto)]

pub mod laws;
mod places;
pub mod region;
pub mod roles;

pub use region::RegionByRoles;
pub use roles::Roles;
