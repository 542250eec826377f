// Verdicts.

/// What a certificate says of one legal action after a kept prefix, that is, of the prefix that ends with it.
#[derive(Clone, Copy, PartialEq, Eq, Debug)]
pub enum Verdict {
    /// It completes the craft: it is the macro, or the macro is better.
    Complete,
    /// It ends the craft without completing it.
    Failed,
    /// The craft goes on, and it has no limit, or one below the macro's quality.
    Limited,
    /// The craft goes on, and it has no limit, or one that is at most the macro's quality; and it has as many steps as the
    /// macro or more, or within those that are left of the macro's it has no limit, or one below the macro's quality.
    Late,
    /// The craft goes on, and the kept prefix at this place of the next level, counted from 0, dominates it.
    Dominated { place: u32 },
    /// The craft goes on, and it is the next kept prefix of the next level.
    Kept,
}
