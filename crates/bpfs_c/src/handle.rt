//! Handles. All raw pointers of the crate are in this module and in `loose`.

ghost use Rattle.std.specs.Prelude.{◌≡◌, Option, Some, None};
ghost use Rattle.bpfs_c.specs.Held.{IsHeld, IsSealed};
ghost use Rattle.bpfs_c.specs.Ownership.{handle_owns};
ghost use Rattle.bpfs_c.specs.declared.mounted.Mounted.{Mounted};

use crate::loose::RawBox;
use crate::mounted::Mounted;
use std::alloc::Global;
use std::marker::Model;
use std::mem::replace;
use std::ptr::null_mut;

/// A volume on the heap, or none. C sees a pointer that it does not follow, and whether there is a volume.
#[repr(C)]
pub struct Handle {
    at: *mut u8,
    is_open: bool,
    ghost held: { Option Mounted },
}

impl Model for Handle {
    ghost also_owns = { λ handle. handle_owns handle.at handle.is_open handle.held };
}

impl Handle {
    /// Makes a handle that holds no volume.
    pub fn closed() -> Handle
        ensures { result.held ≡ None }
    {
        Handle {
            at: null_mut(),
            is_open: false,
        }
    }

    /// Makes a handle that holds this volume.
    fn seal(loose: RawBox<Mounted, Global>) -> Handle
        ensures { result.held ≡ Some loose.value }
    {
        let RawBox { at, alloc: _ } = loose;
        Handle {
            at: at as *mut u8,
            is_open: true,
        }
    }

    /// Takes the volume out of a handle, as its pointer.
    fn unseal(self, alloc: Global) -> Option<RawBox<Mounted, Global>>
        ensures { IsSealed self.held result }
    {
        let Handle { at, is_open } = self;
        if is_open {
            Some(RawBox {
                at: at as *mut Mounted,
                alloc,
            })
        } else {
            None
        }
    }

    /// Takes the volume out of a handle, as a box.
    pub fn into_held(self, alloc: Global) -> Option<Box<Mounted>>
        ensures { IsHeld self.held result }
    {
        match self.unseal(alloc) {
            Some(loose) => Some(loose.into_box()),
            None => None,
        }
    }

    /// Takes the volume out of a handle, which holds none then.
    pub fn take(&mut self, alloc: Global) -> Option<Box<Mounted>>
        ensures taken { IsHeld self.old.held result }
        ensures closed { self.new.held ≡ None }
    {
        replace(self, Handle::closed()).into_held(alloc)
    }

    /// Gives a volume to a handle. A volume that the handle held is freed.
    pub fn put(&mut self, alloc: Global, mounted: Box<Mounted>)
        ensures { self.new.held ≡ Some mounted.value }
    {
        let _ = replace(self, Handle::seal(RawBox::of(mounted))).into_held(alloc);
    }
}
