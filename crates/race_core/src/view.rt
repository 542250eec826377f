/// What a seat knows, as contracts see it. No value of it is made: its numbers have no bound, and its list any length.
pub struct View<T> {
    /// The plain data of the truth, None once the seat was joined away.
    pub truth: Option<T>,
    /// The indices whose word the seat knows to be filled, in the order in which it saw them.
    pub seen: [usize; 0],
    /// A quality that the mark has reached.
    pub floor: Option<u32>,
    pub joined: bool,
    pub steps: u64,
    /// The place of the last step, and the word that stood there before.
    pub last: Option<(usize, u64)>,
}
