//! What a reader asks of an object, so that missing bytes become present: the requests of at
//! most four downloaders.
#![tactic(auto)]

ghost use Rattle.std.specs.Prelude.{◌≡◌};
ghost use Rattle.downloaders.specs.Rules.{first_size, later_size, next_size, reaches};

mod crew;
mod laws;

pub use crew::Crew;
pub use laws::{law_asks_end, law_few_requests, law_in_order, law_requests};

/// How the size of a downloader's requests grows.
#[derive(Clone, Copy, Debug, PartialEq, Eq)]
pub enum Limit {
    /// Twice the size with each request.
    Off,
    /// One size for all.
    Same,
    /// Twice the size with each request, as far as this.
    Most(u64),
}

/// The sizes of requests, in bytes. A chunk that is given has the condition that it is at least 1.
#[derive(Clone, Copy, Debug, PartialEq, Eq)]
pub struct Plan {
    /// The size of a downloader's first request; with None each request runs to the end.
    pub chunk: Option<u64>,
    pub limit: Limit,
}

/// A downloader and its request.
#[derive(Clone, Copy, Debug, Default, PartialEq, Eq)]
pub struct Downloader {
    /// Its number, from 0 to 3.
    pub run: u8,
    /// The next byte.
    pub pos: u64,
    /// The end of the request.
    pub end: u64,
    /// The size that was asked for, which may pass the end of the object.
    pub chunk: u64,
}

/// What to do next.
#[derive(Clone, Copy, Debug, PartialEq, Eq)]
pub enum Ask {
    /// All is present.
    Done,
    /// A request from `start` to `end`, by the downloader of this number.
    Request {
        run: u8,
        start: u64,
        end: u64,
        chunk: u64,
    },
    /// The next `len` bytes of its request, which begin at `pos`.
    Pull {
        run: u8,
        pos: u64,
        len: u32,
    },
}

impl Plan {
    // The size of a new downloader's request, where `left` bytes stand before the end.
    pub(crate) fn first_size(&self, left: u64) -> u64
        ensures { result ≡ first_size self.now.chunk left }
    {
        self.chunk.unwrap_or(left)
    }

    // The size of the request after one of `chunk` bytes.
    pub(crate) fn later_size(&self, left: u64, chunk: u64) -> u64
        ensures { result ≡ later_size self.now.chunk self.now.limit left chunk }
    {
        match self.chunk {
            None => left,
            Some(_) => self.limit.next_size(chunk),
        }
    }
}

impl Limit {
    const MOST: u64 = 1 << 40;

    fn next_size(&self, chunk: u64) -> u64
        ensures { result ≡ next_size self.now chunk }
    {
        match *self {
            Limit::Off => chunk.saturating_mul(2).min(Limit::MOST),
            Limit::Same => chunk.min(Limit::MOST),
            Limit::Most(most) if chunk < most => chunk.saturating_mul(2).min(most).min(Limit::MOST),
            Limit::Most(_) => chunk.min(Limit::MOST),
        }
    }
}

impl Downloader {
    // Whether it comes to the byte by reading over at most `gap` bytes.
    pub(crate) fn reaches(&self, gap: u64, byte: u64) -> bool
        ensures { result ≡ reaches gap byte self.now }
    {
        self.pos <= byte && byte - self.pos <= gap
    }
}

#[cfg(test)]
mod tests;
