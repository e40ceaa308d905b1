// The numbers that a history is judged by.

/// How long a history may get: in entries, and in weight, which is the number of names of hooks and containers
/// that its entries list.
#[derive(Clone, Copy, Debug, PartialEq, Eq)]
pub struct Limits {
    pub entries: u32,
    pub weight: u32,
}

/// What is fixed of a store: how many first bits of a hook are zero, how many manifests stand at a hook at most, how
/// many champions a segment has at most, and how long the history may get.
#[derive(Clone, Copy, Debug, PartialEq, Eq)]
pub struct Rules {
    pub bits: u32,
    pub standings: u32,
    pub champions: u32,
    pub limits: Limits,
}
