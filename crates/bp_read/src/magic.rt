//! The version of an image.

ghost use Rattle.std.specs.Prelude.{◌≡◌, ◌<◌, length};
ghost use Rattle.bp_layout.specs.Formatted.{version_of};
ghost use Rattle.pm_region.specs.Memory.{words_in};

use bp_limits::{SUPER_MAGIC, Version};
use pm_region::Region;

/// Returns the version of the image's magic number.
pub fn version<R: Region>(region: &R) -> Version
    requires { 0 < length (words_in R.memory region.now) }
    ensures { result ≡ version_of (words_in R.memory region.now) }
{
    let _words = region.words();
    Version::at(region.load(SUPER_MAGIC))
}
