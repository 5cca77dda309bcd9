//! The number of slots that a path shares with the ways to some leaves of a run.

ghost use Rattle.std.specs.Prelude.{◌≡◌, ◌≢◌, ◌↔◌, ℕ, ◌+◌, ◌-◌, ◌*◌, ◌/◌, ◌^◌, ◌<◌, ◌≤◌, length, slice_index, IsTrue};
ghost use Rattle.bp_changes.specs.Trail.{trail_of};
ghost use Rattle.bp_cow.specs.Touched.{IsRun, run_leaves, run_way};
ghost use Rattle.bp_cow.specs.Ways.{IsShared};

use crate::touched::Run;

/// Returns how many slots two paths have in common before the first difference.
pub(crate) fn common(these: &[u16], those: &[u16]) -> usize
    ensures these { result ≤ length these.now }
    ensures those { result ≤ length those.now }
    ensures same { trail_of these.now result ≡ trail_of those.now result }
    ensures most { result < length these.now → result < length those.now →
        slice_index these.now result ≢ slice_index those.now result }
{
    let end = these.len().min(those.len());
    for depth in 0..end {
        if these[depth] != those[depth] {
            return depth;
        }
    }
    end
}

/// Returns whether one of the leaves `first` to `last` is below the node with this number, `level` levels above the
/// leaves.
fn lies_below(first: u64, last: u64, number: u64, level: u32) -> bool
    requires { level ≤ 6 }
    ensures { IsTrue result ↔ (first / 512 ^ level ≤ number) × (number ≤ last / 512 ^ level) }
{
    first >> (9 * level) <= number && number <= last >> (9 * level)
}

/// Returns how many prefixes of a path that begins with the run's root are prefixes of the way to one of the first
/// leaves of a run.
fn prefixes_below(run: &Run<'_>, slots: &[u16], leaves: usize) -> usize
    requires run { IsRun run.now }
    requires some { 0 < leaves }
    requires leaves { leaves ≤ run_leaves run.now }
    requires slots { (d : ℕ) → d < length slots.now → slice_index slots.now d < 512 }
    requires long { length run.now.root.items ≤ length slots.now }
    requires root { trail_of slots.now (length run.now.root.items) ≡
        trail_of run.now.root.items (length run.now.root.items) }
    ensures { (d : ℕ) → (d < result) ↔ IsShared (run_way run.now) leaves slots.now d }
{
    let first = run.first_leaf();
    let last = first + (leaves as u64 - 1);
    let above = run.root.len();
    let end = (slots.len() - above).min(run.height as usize);
    let mut number = 0;
    for level in 0..end {
        number = 512 * number + u64::from(slots[above + level]);
        if !lies_below(first, last, number, run.height - 1 - level as u32) {
            return above + level + 1;
        }
    }
    above + end + 1
}

/// Returns how many prefixes of a path are prefixes of the way to one of the first leaves of a run.
pub(crate) fn prefixes_of_run(run: &Run<'_>, slots: &[u16], leaves: usize) -> usize
    requires run { IsRun run.now }
    requires leaves { leaves ≤ run_leaves run.now }
    requires slots { (d : ℕ) → d < length slots.now → slice_index slots.now d < 512 }
    ensures { (d : ℕ) → (d < result) ↔ IsShared (run_way run.now) leaves slots.now d }
{
    if leaves == 0 {
        return 0;
    }
    let above = common(slots, run.root.as_slice());
    if above < run.root.len() {
        return above + 1;
    }
    prefixes_below(run, slots, leaves)
}
