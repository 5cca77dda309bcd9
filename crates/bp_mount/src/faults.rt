//! Where the words are stored that a fault names.

ghost use Rattle.std.specs.Prelude.{◌≡◌};
ghost use Rattle.bp_mount.specs.Faults.{stored_fault};

use bp_roles::Roles;
use bp_scan::MountFault;

/// Returns the fault of an image that is seen by these roles, with the place where the word is stored that the fault
/// names.
pub fn stored_fault(roles: Roles, fault: MountFault) -> MountFault
    ensures { result ≡ stored_fault roles fault }
{
    match fault {
        MountFault::NotFormatted => MountFault::NotFormatted,
        MountFault::BadSize { found, wanted } => MountFault::BadSize { found, wanted },
        MountFault::Damaged { check, place } => MountFault::Damaged {
            check,
            place: roles.stored_at(place),
        },
        MountFault::Memory => MountFault::Memory,
    }
}
