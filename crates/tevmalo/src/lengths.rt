// How much is lent, and how many lines the script may have.
#[derive(Clone, Copy)]
pub struct Lengths {
    pub memory: usize,
    pub room: usize,
    pub log: usize,
    pub said: usize,
    pub lines: usize,
}
