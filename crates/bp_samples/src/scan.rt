//! A small file system. Rows over the devices in memory show one damage after another (docs/rows.md).

ghost use Rattle.std.specs.Prelude.{◌*◌, ◌≡◌, length, vec_len};
ghost use Rattle.bp_limits.specs.Limits.{block_words, min_blocks};

use crate::images::{EMPTY, SECOND, Stores, TWO_ENTRIES, TWO_NAMES, laid, put};
use crate::same::same;
use bp_free::{Blocks, Counts, Inodes};
use bp_layout::{Check, Totals};
use bp_scan::{MountFault, Pending, scan_whole};
use pm_region::ListRegion;
use std::alloc::Global;
use std::process::Abort;

const BLOCKS: u32 = 8;

const INODES: usize = 512;

const TOTALS: Totals = Totals {
    files: 2,
    dirs: 1,
    bytes: 0,
    live: 2,
};

/// Stores over the base image, the check that fails then, and the word at which it does.
type Damage = (&'static [(usize, u64)], Check, u64);

const DAMAGES: [Damage; 27] = [
    (&[(529, 0x3004), (530, 1)], Check::Height, 529),
    (&[(529, 0x3008), (530, 1)], Check::PointerBits, 529),
    (
        &[(529, 0x3001), (530, 5000), (1536, 0x4001)],
        Check::PointerBits,
        1536,
    ),
    (&[(529, 0x8000), (530, 1)], Check::Range, 529),
    (
        &[(529, 0x3001), (530, 5000), (1536, 0x3000)],
        Check::BlockTwice,
        1536,
    ),
    (
        &[(529, 0x3000), (530, 1), (537, 0x3000), (538, 1)],
        Check::BlockTwice,
        537,
    ),
    (&[(521, 0)], Check::Hole, 521),
    (&[(3, 4000)], Check::InodeFileSize, 3),
    (&[(1024, 64)], Check::InodeNumber, 1024),
    (&[(1056, 1)], Check::InodeTwice, 1056),
    (&[(528, 2), (1056, 2)], Check::InodeTwice, 1056),
    (&[(528, 3)], Check::Kind, 528),
    (&[(520, 1)], Check::Kind, 520),
    (&[(522, 500)], Check::DirectorySize, 522),
    (&[(530, 4097)], Check::Capacity, 530),
    (&[(3, 8192)], Check::Capacity, 3),
    (&[(1025, 241)], Check::NameForm, 1025),
    (&[(1025, 0)], Check::NameForm, 1025),
    (&[(1026, 0x2f)], Check::NameForm, 1025),
    (&[(1026, 0x2e)], Check::NameForm, 1025),
    (&[(1058, 0x61)], Check::NameTwice, 1056),
    (&[SECOND, (529, 0x3006), (530, 1)], Check::Height, 529),
    (&[SECOND, (5, 4096)], Check::Hole, 4),
    (&[SECOND, (4, 0x8000), (5, 4096)], Check::Range, 4),
    (&[SECOND, (4, 0x3000), (5, 4000)], Check::InodeFileSize, 5),
    (&[SECOND, (4, 0x3000), (5, 8192)], Check::Capacity, 5),
    (&[SECOND, (4, 0x3000), (5, 4096)], Check::Kind, 1544),
];

/// On top of the base image: a second tree with the same names in the same directory, and its inodes in block 3.
const SNAPSHOT: [(usize, u64); 8] = [
    SECOND,
    (4, 0x3000),
    (5, 4096),
    (1544, 2),
    (1545, 0x2000),
    (1546, 512),
    (1552, 1),
    (1560, 1),
];

/// The result of a scan; the numbers of free blocks and of free inodes then, and of the blocks of the second tree;
/// and the numbers of links of the inodes 1 to 3.
type Found = (Result<Totals, MountFault>, (u32, usize, u32), [u32; 3]);

/// The result for the base image.
const BASE: Found = (Ok(TOTALS), (5, 60, 0), [0, 1, 1]);

/// Returns the result for a fault.
fn refused(fault: MountFault) -> Found {
    (Err(fault), (0, 0, 0), [0, 0, 0])
}

fn base(rt: &impl Abort, alloc: Global) -> Vec<u64>
    ensures { vec_len result ≡ min_blocks * block_words }
{
    let mut words = laid(alloc, &EMPTY).expect(rt, "there is memory");
    put(&mut words, &TWO_ENTRIES);
    put(&mut words, &TWO_NAMES);
    words
}

/// Makes the set of all blocks.
fn all_blocks(rt: &impl Abort, alloc: Global) -> Blocks
    ensures { length result ≡ BLOCKS }
{
    let mut blocks = Blocks::new(alloc, BLOCKS).expect(rt, "there is memory");
    blocks.fill(0, BLOCKS as usize);
    blocks
}

/// Makes the set of all inodes.
fn all_inodes(rt: &impl Abort, alloc: Global) -> Inodes
    ensures { length result ≡ INODES }
{
    let mut inodes = Inodes::new(alloc, INODES).expect(rt, "there is memory");
    inodes.fill(0, INODES);
    inodes
}

/// Scans an image, with sets and counts that have contents before.
fn scanned(rt: &impl Abort, alloc: Global, words: Vec<u64>) -> Found
    requires { vec_len words ≡ min_blocks * block_words }
{
    let region = ListRegion::new(alloc, words, 0).expect(rt, "there is memory");
    let mut blocks = all_blocks(rt, alloc);
    let mut snapshot_blocks = all_blocks(rt, alloc);
    let mut inodes = all_inodes(rt, alloc);
    let mut counts = Counts::new(alloc, INODES).expect(rt, "there is memory");
    counts.set(1, 7);
    let mut pending = Pending::new(alloc, INODES).expect(rt, "there is memory");
    let answer = scan_whole(
        alloc,
        &region,
        &mut blocks,
        &mut inodes,
        &mut snapshot_blocks,
        &mut pending,
        &mut counts,
    );
    let names = [counts.names(1), counts.names(2), counts.names(3)];
    (
        answer,
        (blocks.count(), inodes.count(), snapshot_blocks.count()),
        names,
    )
}

/// Checks the result of a scan of the base image with stores on top of it.
fn scans_to(rt: &impl Abort, alloc: Global, stores: Stores<'_>, wanted: Found) {
    let mut words = base(rt, alloc);
    put(&mut words, stores);
    same(rt, scanned(rt, alloc, words), wanted);
}

#[test]
fn an_image_is_scanned(rt: HostRuntime) {
    scans_to(&rt, rt.alloc(), &[], BASE);
    scans_to(&rt, rt.alloc(), &[SECOND], BASE);
    let unformatted = refused(MountFault::NotFormatted);
    scans_to(&rt, rt.alloc(), &[(0, 0)], unformatted);
}

/// Both entries name inode 2, so inode 3 is free.
#[test]
fn a_file_has_two_names(rt: HostRuntime) {
    let totals = Totals { files: 1, ..TOTALS };
    let wanted = (Ok(totals), (5, 61, 0), [0, 2, 0]);
    scans_to(&rt, rt.alloc(), &[(1056, 2)], wanted);
}

/// Block 2 is in both trees, and block 3 only in the second; without the magic number of version 2 there is one tree.
#[test]
fn both_trees_are_scanned(rt: HostRuntime) {
    let totals = Totals { live: 3, ..TOTALS };
    let wanted = (Ok(totals), (4, 60, 2), [0, 1, 1]);
    scans_to(&rt, rt.alloc(), &SNAPSHOT, wanted);
    scans_to(&rt, rt.alloc(), &SNAPSHOT[1..], BASE);
}

#[test]
fn each_check_fails_at_its_word(rt: HostRuntime) {
    for (stores, check, place) in &DAMAGES {
        let fault = MountFault::Damaged {
            check: *check,
            place: *place,
        };
        scans_to(&rt, rt.alloc(), *stores, refused(fault));
    }
}
