//! Words. The values were computed independently.

use crate::same::same;
use pm_words::{MAX_LEVEL, block_of, digit, read_word, span, write_word};

#[test]
fn words_and_bytes(rt: HostRuntime) {
    same(&rt, read_word(b"BPFSRS01"), 0x3130_5352_5346_5042);
    same(&rt, read_word(b"BPFSRS02"), 0x3230_5352_5346_5042);
    same(
        &rt,
        write_word(0x0102_0304_0506_0708),
        [8, 7, 6, 5, 4, 3, 2, 1],
    );
}

#[test]
fn blocks_and_digits(rt: HostRuntime) {
    same(&rt, block_of(0x5003), 5);
    for (level, want) in [
        (0, 4096),
        (1, 2_097_152),
        (2, 1_073_741_824),
        (3, 549_755_813_888),
        (MAX_LEVEL, 1 << 57),
    ] {
        same(&rt, (level, span(level)), (level, want));
    }
    let leaf = (2 << 36) + (7 << 27) + (1 << 18) + (3 << 9) + 5;
    for (level, want) in [(0, 5), (1, 3), (2, 1), (3, 7), (4, 2)] {
        same(&rt, (level, digit(leaf, level)), (level, want));
    }
}
