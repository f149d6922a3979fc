// Elements of slices by index.
ghost use Rattle.std.specs.Prelude.{◌≡◌, get_or};

// Element i; past the last another value in its place.
pub fn at_or<T: Copy>(items: &[T], i: usize, other: T) -> T
    ensures { result ≡ get_or items.now i other }
{
    items.get(i).copied().unwrap_or(other)
}
