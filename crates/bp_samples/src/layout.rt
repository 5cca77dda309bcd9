//! Words of the format, and their meaning. The values were computed independently.

use crate::same::same;
use bp_layout::{
    BadPointer, Entry, INO_WORD, Inode, Kind, LENGTH_WORD, Listing, NAME_WORD, Name, RootWord,
    Super, name_word, pointer, pointer_word,
};
use bp_limits::Version;

#[test]
fn marks_spell_their_bytes(rt: HostRuntime) {
    for (number, version, magic_number) in [
        (1, Version::One, *b"BPFSRS01"),
        (2, Version::Two, *b"BPFSRS02"),
        (3, Version::Three, *b"BPFSRS3A"),
    ] {
        same(&rt, pm_words::write_word(version.magic()), magic_number);
        same(&rt, Version::at(version.magic()), version);
        same(&rt, Version::numbered(number), version);
    }
}

#[test]
fn limits_agree(rt: HostRuntime) {
    for (version, size, write) in [
        (Version::One, 549_755_813_888, 65_536),
        (Version::Two, 144_115_188_075_855_872, 1_048_576),
        (Version::Three, 144_115_188_075_855_872, 1_048_576),
    ] {
        same(&rt, version.greatest_size(), size);
        same(&rt, pm_words::span(version.greatest_height()), size);
        same(&rt, version.greatest_write(), write);
    }
}

#[test]
fn pointers_are_read_and_written(rt: HostRuntime) {
    let root = RootWord {
        height: 3,
        block: 5,
    };
    same(&rt, root.word(), 0x5003);
    for (word, top, want) in [
        (0x5003, 3, Ok(root)),
        (0x5003, 5, Ok(root)),
        (0x5003, 2, Err(BadPointer)),
        (0x5004, 3, Err(BadPointer)),
        (0x5006, 5, Err(BadPointer)),
        (0x5008, 5, Err(BadPointer)),
    ] {
        same(
            &rt,
            (word, top, RootWord::read(word, top)),
            (word, top, want),
        );
    }
    same(&rt, pointer_word(7), 0x7000);
    same(&rt, pointer(0x7000), Ok(7));
    same(&rt, pointer(0x7001), Err(BadPointer));
}

#[test]
fn records_are_read_and_written(rt: HostRuntime) {
    let block = Super {
        magic: Version::One.magic(),
        blocks: 8,
        root: 0x1000,
        size: 4096,
    };
    same(&rt, Super::read(&block.words()), block);
    let inode = Inode {
        kind: Kind::Dir,
        root: 0x2000,
        size: 256,
    };
    same(&rt, inode.words(), [2, 0x2000, 256]);
    same(&rt, Inode::read(&[2, 0x2000, 256]), inode);
}

#[test]
fn entries_are_read_and_written(rt: HostRuntime) {
    let mut words = [0; 32];
    words[INO_WORD as usize] = 2;
    words[LENGTH_WORD as usize] = 9;
    words[NAME_WORD as usize] = 0x6867_6665_6463_6261;
    words[NAME_WORD as usize + 1] = 0xffff_ff69;
    let entry = Entry::read(&words);
    same(&rt, entry.ino, 2);
    same(&rt, entry.name.as_slice(), b"abcdefghi".as_slice());
    let back = entry.words();
    same(&rt, back[NAME_WORD as usize], 0x6867_6665_6463_6261);
    same(&rt, back[NAME_WORD as usize + 1], 0x69);
    same(&rt, name_word(b"ab", 0), 0x6261);
}

#[test]
fn listing_keeps_its_names(rt: HostRuntime) {
    let mut entries = Vec::new(rt.alloc());
    let mut name = Name::new();
    name.push(b'a');
    entries
        .push((Kind::Dir, name))
        .expect(&rt, "there is memory");
    let listing = Listing::of(rt.alloc(), &entries).expect(&rt, "there is memory");
    same(&rt, listing.len(), 1);
    assert!(rt; !listing.is_empty());
    let (kind, name) = listing.at(0);
    same(&rt, kind, Kind::Dir);
    same(&rt, name, b"a".as_slice());
}
