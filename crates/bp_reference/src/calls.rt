//! The reference as a file system.

ghost use Rattle.bp_reference.specs.ByTree.{by_tree};
ghost use Rattle.bp_reference.specs.State.{trees_in};
ghost use Rattle.bp_reference.specs.TreeLaws.{trees_behave};
ghost use Rattle.bp_reference.specs.Trees.{Trees};

use crate::reference::{Reference, settle};
use bp_fs::{FileSystem, Space, needs_drain};
use bp_layout::Totals;
use bp_plain::{Call, FsError, Reply};
use pm_epochs::{BadChoice, Choice, Kept};
use pm_region::{ListRegion, Region};
use std::alloc::{AllocError, Global};

impl FileSystem for Reference {
    type Region = ListRegion;

    ghost State = { Trees };

    ghost behaviour = { by_tree };

    ghost state = { trees_in };

    ghost lawful = { trees_behave };

    fn region(&self) -> &ListRegion {
        &self.region
    }

    fn apply(&mut self, alloc: Global, call: &Call, reply: &mut Reply) {
        if needs_drain(&self.region) {
            self.sync();
        }
        if let Err(AllocError) = self.call(alloc, call, reply) {
            reply.set_refused(FsError::Memory);
        }
    }

    fn sync(&mut self) {
        let Reference {
            region,
            durable,
            since,
        } = self;
        settle(durable, since);
        region.drain();
    }

    fn crash(&mut self, choice: &Choice) -> Result<Kept, BadChoice> {
        let Reference {
            region,
            durable,
            since,
        } = self;
        let kept = region.crash_to(choice)?;
        since.truncate(kept.c);
        settle(durable, since);
        Ok(kept)
    }

    fn space(&self) -> Space {
        Space { free: 0, live: 0 }
    }

    fn totals(&mut self) -> Totals {
        Totals {
            files: 0,
            dirs: 0,
            bytes: 0,
            live: 0,
        }
    }
}
