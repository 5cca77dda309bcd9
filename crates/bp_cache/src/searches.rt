//! Counts of the searches of directories.

/// The number of searches of a large directory before an index is made of it. To make an index takes about as long as
/// 16 to 22 searches if the directory's blocks come from memory, and as 30 to 47 if they are in the processor's
/// caches.
const SEARCHES: u32 = 16;

/// The greatest number of directories whose searches are counted.
const COUNTED: usize = 256;

/// The number of searches of a directory.
#[derive(Clone, Copy)]
struct Searched {
    dir: u32,
    times: u32,
}

/// The number of searches of each directory, since its first search, or since its place was last taken over from
/// another directory.
#[derive(Drop)]
pub(crate) struct Searches {
    places: [Searched; COUNTED],
}

impl Searches {
    /// Makes counts without searches.
    pub fn new() -> Searches {
        Searches {
            places: [Searched { dir: 0, times: 0 }; COUNTED],
        }
    }

    /// Counts a search of a directory, and returns whether it was searched often before.
    pub fn count(&mut self, dir: u32) -> bool {
        let place = &mut self.places[dir as usize % COUNTED];
        if place.dir != dir {
            *place = Searched { dir, times: 0 };
        }
        if place.times < SEARCHES {
            place.times += 1;
            return false;
        }
        true
    }
}
