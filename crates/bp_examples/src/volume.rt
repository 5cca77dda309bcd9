//! Calls on a volume over a mounted image. Rows over the devices in memory show the rest (docs/rows.md).

ghost use Rattle.std.specs.Prelude.{[], ◌*◌, ◌≡◌, IfOk, length, vec_len};
ghost use Rattle.bp_limits.specs.Limits.{block_words, call_room, min_blocks};

use bp_limits::CALL_ROOM;
use bp_plain::{Answer, Call, Reply};
use bp_samples::images::{EMPTY, laid};
use bp_volume::Volume;
use pm_region::ListRegion;
use std::alloc::{AllocError, Global};
use std::process::Abort;

/// Makes a region of these words, with room for a call.
fn region_of(alloc: Global, words: Vec<u64>) -> Result<ListRegion, AllocError>
    requires { vec_len words ≡ min_blocks * block_words }
    ensures words { IfOk result (λ region. length region.base ≡ min_blocks * block_words) }
    ensures events { IfOk result (λ region. region.events ≡ []) }
    ensures capacity { IfOk result (λ region. region.capacity ≡ call_room) }
{
    ListRegion::new(alloc, words, CALL_ROOM)
}

/// Makes a region with an image of the least size, which has these words.
fn region_with(rt: &impl Abort, alloc: Global, image: &[(usize, u64)]) -> ListRegion
    ensures words { length result.base ≡ min_blocks * block_words }
    ensures events { result.events ≡ [] }
    ensures capacity { result.capacity ≡ call_room }
{
    let words = laid(alloc, image).expect(rt, "there is memory");
    region_of(alloc, words).expect(rt, "there is memory")
}

#[test]
fn an_image_is_mounted(rt: HostRuntime) {
    let region = region_with(&rt, rt.alloc(), &EMPTY);
    let mut reply = Reply::new(rt.alloc()).expect(&rt, "there is memory");
    let mounted = Volume::mount(rt.alloc(), region);
    let mut volume = mounted.ok().expect(&rt, "it is well formed");
    volume.apply(rt.alloc(), &Call::List(b"/"), &mut reply);
    assert!(rt; matches!(reply.answer(), Answer::Names(names) if names.is_empty()));
}
