/// What macros are compared by before their actions: the quality that counts, the number of steps, and the seconds
/// that they take.
#[derive(Clone, Copy, PartialEq, Eq, Debug)]
pub struct Score {
    pub quality: u32,
    pub steps: u32,
    pub seconds: u32,
}
