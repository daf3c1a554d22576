ghost use Rattle.std.specs.Prelude.{◌≡◌, ◌<◌, ◌+◌, ◌++◌, length, slice_index, slice_set};
ghost use Rattle.link_lists.specs.Arrays.{slot_of};

/// What stands behind `before` in a list: what follows it, or where it is no position, what the
/// list begins with.
pub(crate) fn follower(next: &[u32], firsts: &[u32], list: u32, before: u32) -> u32
    requires { slot_of (length next.now) list before < length next.now + length firsts.now }
    ensures { result ≡ slice_index (next.now ++ firsts.now)
        (slot_of (length next.now) list before) }
{
    if (before as usize) < next.len() {
        next[before as usize]
    } else {
        firsts[list as usize]
    }
}

/// Puts a position, or the end, behind `before` in a list: it follows that, or where that is no
/// position, the list begins with it.
pub(crate) fn put_behind(next: &mut [u32], firsts: &mut [u32], list: u32, before: u32, to: u32)
    requires { slot_of (length next.old) list before < length next.old + length firsts.old }
    ensures { next.new ++ firsts.new ≡ slice_set (next.old ++ firsts.old)
        (slot_of (length next.old) list before) to }
{
    if (before as usize) < next.len() {
        next[before as usize] = to;
    } else {
        firsts[list as usize] = to;
    }
}
