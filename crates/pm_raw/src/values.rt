//! Values of events, in a vector that has its capacity from the start.

ghost use Rattle.std.specs.Prelude.{◌≡◌, ◌+◌, ◌≤◌, ◌++◌, length, vec_capacity, vec_len};

/// Appends values within the capacity of the vector.
#[inline(always)]
pub fn add(values: &mut Vec<u64>, more: &[u64])
    requires { vec_len values.old + length more.now ≤ vec_capacity values.old }
    ensures items { values.new.items ≡ values.old.items ++ more.now }
    ensures room { vec_capacity values.old ≤ vec_capacity values.new }
{
    match values.extend_from_slice(more) {
        Ok(()) => {}
        Err(_) => unreachable!(),
    }
}
