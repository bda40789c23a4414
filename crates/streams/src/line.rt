// Parts of slices, and copying. What a part is asked for is kept within the slice, so that no caller has to show it.
ghost use Rattle.std.specs.Prelude.{◌≡◌, ◌≤◌, length, take};

// The first n items, or all where there are no more.
pub fn front<T>(s: &[T], n: usize) -> &[T]
    ensures { result.now ≡ take n s.now }
{
    s.get(..n).unwrap_or(s)
}

// The items from one index up to another, as many of them as there are.
pub fn part<T>(s: &[T], from: usize, to: usize) -> &[T] {
    front(s, to).get(from..).unwrap_or(&[])
}

// Copies the front of one slice to the front of another, as much as both have, and answers how much.
pub fn copy<T: Copy>(from: &[T], to: &mut [T]) -> usize
    ensures { result ≤ length to.old }
{
    let n = from.len().min(to.len());
    to[..n].copy_from_slice(&from[..n]);
    n
}
