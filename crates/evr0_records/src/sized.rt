// What was read off the front of a part.

// A record, and how many bytes it takes.
#[derive(Clone, Copy, Debug, PartialEq, Eq)]
pub struct Sized<T> {
    pub item: T,
    pub size: usize,
}
