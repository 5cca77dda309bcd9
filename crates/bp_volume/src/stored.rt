//! The volume as a file system that is stored in the words of a region.

ghost use Rattle.pm_region.specs.Memory.{Memory};

use crate::volume::Volume;
use bp_fs::{Space, StoredFileSystem};
use bp_layout::Totals;
use bp_mount::{Mount, MountFault};
use bp_plain::{Call, Reply};
use pm_epochs::{BadChoice, Choice, Kept};
use pm_region::Region;
use std::alloc::Global;

impl<R: Region> StoredFileSystem for Volume<R> {
    type Region = R;

    ghost memory = { λ volume. volume };

    fn region(&self) -> &R {
        self.region()
    }

    fn apply(&mut self, alloc: Global, call: &Call, reply: &mut Reply) {
        self.apply(alloc, call, reply);
    }

    fn sync(&mut self) {
        self.sync();
    }

    fn crash(&mut self, choice: &Choice) -> Result<Kept, BadChoice> {
        self.crash(choice)
    }

    fn space(&self) -> Space {
        self.space()
    }

    fn totals(&mut self) -> Totals {
        self.totals()
    }
}

impl<R: Region> Mount for Volume<R> {
    fn mount(alloc: Global, region: R) -> Result<Volume<R>, (R, MountFault)> {
        Volume::mount(alloc, region)
    }
}
