//! Bytes that are put one behind the other into a buffer.
ghost use Rattle.std.specs.Prelude.{◌≡◌, ◌≤◌, ◌+◌, ◌++◌, ◌∷◌, [], length, take};

/// Puts bytes at a place of a buffer. Returns where they end.
#[inline(always)]
pub(crate) fn place(buffer: &mut [u8], at: usize, bytes: &[u8]) -> usize
    requires { at + length bytes.now ≤ length buffer.old }
    ensures placed { take result buffer.new ≡ take at buffer.old ++ bytes.now }
    ensures within { result ≤ length buffer.new }
{
    let end = at + bytes.len();
    buffer[at..end].copy_from_slice(bytes);
    end
}

/// Puts the first of some bytes at a place of a buffer, so many of them. Returns where they end. All sixteen are moved at
/// once, which takes less than to move a few.
#[inline(always)]
pub(crate) fn place_front(buffer: &mut [u8], at: usize, bytes: &[u8; 16], count: usize) -> usize
    requires room { at + 16 ≤ length buffer.old }
    requires few { count ≤ 16 }
    ensures placed { take result buffer.new ≡ take at buffer.old ++ take count bytes.now }
    ensures within { result ≤ length buffer.new }
{
    buffer[at..at + 16].copy_from_slice(bytes);
    at + count
}

/// Puts two bytes at a place of a buffer. Returns where they end. They go to their places one by one: a copy of a pair
/// that was only just put together waits for its parts.
#[inline(always)]
pub(crate) fn place_two(buffer: &mut [u8], at: usize, first: u8, second: u8) -> usize
    requires { at + 2 ≤ length buffer.old }
    ensures placed { take result buffer.new ≡ take at buffer.old ++ first ∷ second ∷ [] }
    ensures within { result ≤ length buffer.new }
{
    buffer[at] = first;
    buffer[at + 1] = second;
    at + 2
}
