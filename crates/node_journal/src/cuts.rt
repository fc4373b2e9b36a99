// Pieces of a list.
ghost use Rattle.std.specs.Prelude.{◌≡◌, ◌≤◌, length, take, drop};

/// So many of a list from a place on, or all that are there where they are fewer.
pub(crate) fn piece_at<T>(list: &[T], at: usize, count: usize) -> &[T]
    requires { at ≤ length list.now }
    ensures { result.now ≡ take count (drop at list.now) }
{
    let rest = &list[at..];
    &rest[..count.min(rest.len())]
}

/// What is behind the first so many of a list.
pub(crate) fn behind<T>(list: &[T], count: usize) -> &[T]
    ensures { result.now ≡ drop count list.now }
{
    &list[count.min(list.len())..]
}
