//! The room that lists of terms take.
ghost use Rattle.std.specs.Prelude.{◌≡◌};

/// A list that grows no more, without the spare room of its growth. It stays out of the frames of the readers that
/// nest.
#[inline(never)]
pub fn without_room<T>(mut list: Vec<T>) -> Vec<T>
    ensures { result.items ≡ list.items }
{
    list.shrink_to_fit();
    list
}
