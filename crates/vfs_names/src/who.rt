/// The number of a file in one epoch, from 0.
#[derive(Clone, Copy, Debug, PartialEq, Eq, PartialOrd, Ord)]
pub struct ItemId(pub u32);

/// The number of a slot of the cache.
#[derive(Clone, Copy, Debug, PartialEq, Eq, PartialOrd, Ord)]
pub struct SlotId(pub u32);

/// Who acts: the program itself, a session of the script (1 to 16), or a worker (from 1).
#[derive(Clone, Copy, Debug, PartialEq, Eq)]
pub enum Actor {
    Main,
    Session(u8),
    Worker(u8),
}

/// An actor in a phase of an epoch. An epoch begins at the start of a run and at each `restart`; a phase is a run of
/// consecutive call lines of the script, and 0 is the epoch's start.
#[derive(Clone, Copy, Debug, PartialEq, Eq)]
pub struct Who {
    pub epoch: u32,
    pub phase: u32,
    pub actor: Actor,
}

/// The maker of an entry: who, under which pass of the lock, whether under the tree's lock as well, and when, in
/// milliseconds.
#[derive(Clone, Copy, Debug, PartialEq, Eq)]
pub struct By {
    pub who: Who,
    pub pass: u64,
    pub tree: bool,
    pub now: u64,
}
