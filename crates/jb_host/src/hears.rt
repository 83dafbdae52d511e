//! Who hears what lines write as it comes.

/// One of the two streams that a line writes on.
#[derive(Clone, Copy)]
pub enum Stream {
    Out,
    Err,
}

/// Who hears what lines write as it comes. It is called by the threads that run them, and by each for one line at a time.
pub trait Hears {
    /// Under which number the recipe is heard whose lines this thread runs. None where it isn't: then what they write is collected.
    fn number(&self) -> Option<u64>;

    /// Whether both streams of a line come as one, as standard output, so that their order stays.
    fn are_one(&self) -> bool;

    /// A line of the recipe with this number wrote these bytes, behind all that was heard of it.
    fn hear(&self, number: u64, stream: Stream, bytes: &[u8]);
}
