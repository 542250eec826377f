use crate::Entry;

/// One atomic step of one seat.
#[derive(Clone, Copy, PartialEq, Eq, Debug)]
pub enum Event {
    /// The word of an index is read.
    Load {
        seat: usize,
        index: usize,
    },
    /// The word of an index is filled, where it is empty.
    Put {
        seat: usize,
        index: usize,
        entry: Entry,
    },
    /// The mark is read.
    See {
        seat: usize,
    },
    /// The mark is raised to a quality.
    Offer {
        seat: usize,
        quality: u32,
    },
    /// A new seat is split off.
    Split {
        seat: usize,
    },
    /// One seat takes another in.
    Join {
        into: usize,
        from: usize,
    },
}
