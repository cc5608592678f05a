/// The limits of a session: how many steps it makes, 1 to 100,000,000, and how many entries its journal has, 2 to 4,000,000.
#[derive(Clone, Copy, Debug)]
pub struct Limits {
    pub steps: u64,
    pub journal: u64,
}
