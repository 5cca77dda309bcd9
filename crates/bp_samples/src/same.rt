//! What the tests assert. A call of a function takes a fraction of the time that the proof of an `assert_eq!` takes.

ghost use Rattle.std.specs.Prelude.{◌≡◌, true};

use std::fmt::Debug;
use std::process::Abort;

/// Checks that two values are equal. If they are not, it prints both and ends the process.
pub(crate) fn same<T: Copy + PartialEq + Debug>(rt: &impl Abort, left: T, right: T)
    ensures { T.eq left right ≡ true }
{
    if !(left == right) {
        rt.panic(format_args!("the values differ\n  left: {left:?}\n right: {right:?}"));
    }
}
