//! The length of an image file.

ghost use Rattle.std.specs.Prelude.{◌≡◌, ◌≢◌, ◌≤◌, ◌*◌, IfOk, IfErr};
ghost use Rattle.bp_limits.specs.Limits.{block_size, min_blocks};
ghost use Rattle.bp_scan.specs.Length.{wanted_length};
ghost use Rattle.bp_scan.specs.declared.fault.MountFault.TheVariants.{BadSize};

use crate::fault::MountFault;
use bp_limits::{BLOCK_SIZE, MIN_BLOCKS};

/// The length of the smallest image, in bytes.
const LEAST: u64 = MIN_BLOCKS as u64 * BLOCK_SIZE;

/// Returns the length in bytes, of an image of at most `most` blocks, that is nearest to a length.
fn nearest_length(most: u32, len: u64) -> u64
    requires { min_blocks ≤ most }
    ensures { result ≡ wanted_length most len }
{
    let longest = u64::from(most) * BLOCK_SIZE;
    if longest <= len {
        longest
    } else if len <= LEAST {
        LEAST
    } else {
        len.div_ceil(BLOCK_SIZE) * BLOCK_SIZE
    }
}

/// Returns the number of blocks of 4,096 bytes of an image with this length in bytes, which has at most `most` blocks.
///
/// # Errors
///
/// - `BadSize`: no image of at most `most` blocks has this length. It is returned in exactly this case.
pub fn image_length(most: u32, len: u64) -> Result<u32, MountFault>
    requires { min_blocks ≤ most }
    ensures blocks { IfOk result
        (λ blocks. (len ≡ block_size * blocks) × (min_blocks ≤ blocks) × (blocks ≤ most)) }
    ensures fits { IfOk result (λ blocks. len ≡ wanted_length most len) }
    ensures refused { let wanted = wanted_length most len in
        IfErr result (λ fault. (fault ≡ BadSize len wanted) × (len ≢ wanted)) }
{
    let wanted = nearest_length(most, len);
    if len != wanted {
        return Err(MountFault::BadSize { found: len, wanted });
    }
    Ok((len / BLOCK_SIZE) as u32)
}
