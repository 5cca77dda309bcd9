//! The trait of file systems that can be mounted.

ghost use Rattle.std.specs.Prelude.{[], ◌≡◌, ◌⊎◌, ◌≤◌, IfErr, IfOk, OnOk};
ghost use Rattle.bp_layout.specs.Formatted.{IsSized};
ghost use Rattle.bp_layout.specs.Whole.{IsFileSystem};
ghost use Rattle.bp_limits.specs.Limits.{call_room};
ghost use Rattle.bp_mount.specs.Faults.{IsMountFault};
ghost use Rattle.bp_roles.specs.Mounted.{by_roles};

use bp_fs::StoredFileSystem;
use bp_scan::MountFault;
use pm_region::Region;
use std::alloc::Global;

/// A stored file system that is made of a region whose words are one.
pub trait Mount: StoredFileSystem {
    /// Mounts the file system of a formatted region of 8 to 67,108,864 blocks of 512 words. Its magic number says where
    /// the superblock has the roots of the two trees.
    ///
    /// # Errors
    ///
    /// The region is returned with the same memory.
    ///
    /// - `NotFormatted`: the region does not begin with a magic number of the format.
    /// - `BadSize`: it was formatted for another number of blocks.
    /// - `Damaged`: a check of the format fails; it holds one check that does, and the word of the region at which it
    ///   does.
    /// - `Memory`: allocation fails.
    fn mount(alloc: Global, region: Self::Region) -> Result<Self, (Self::Region, MountFault)>
        requires sized { IsSized (Self.Region.memory region).base }
        requires fresh { (Self.Region.memory region).events ≡ [] }
        requires roomy { call_room ≤ (Self.Region.memory region).capacity }
        ensures same { IfOk result (λ system. Self.memory system ≡ Self.Region.memory region) }
        ensures well_formed { OnOk result (IsFileSystem (by_roles (Self.Region.memory region).base)) }
        ensures handed_back { IfErr result (λ e. Self.Region.memory e.0 ≡ Self.Region.memory region) }
        ensures fault { IfErr result
            (λ e. (e.1 ≡ MountFault.Memory) ⊎ IsMountFault (Self.Region.memory region).base e.1) }
        ensures exact { IsFileSystem (by_roles (Self.Region.memory region).base) →
            IfErr result (λ e. e.1 ≡ MountFault.Memory) };
}
