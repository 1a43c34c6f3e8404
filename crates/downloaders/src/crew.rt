ghost use Rattle.std.specs.Prelude.{◌≡◌, ℕ, ◌+◌, ◌<◌, ◌≤◌, true, false, List, [], ◌∷◌, length};
ghost use Rattle.arrayvec.specs.ArrayVec.{array_vec_len};
ghost use Rattle.byte_ranges.specs.Ranges.{has};
ghost use Rattle.downloaders.specs.declared.Ask.{Ask};
ghost use Rattle.downloaders.specs.Crew.{Team, IsOpen, HasLeft, IsTeam, member_at, has_run, without, after_request, after_pull, after_end, least_free, last_run, new_run};
ghost use Rattle.downloaders.specs.Rules.{HasChunk, IsNext, AreAsks, IsDoable, first_ask, near, request, ask_for, pull_len};

use crate::{Ask, Downloader, Plan};
use arrayvec::ArrayVec;
use byte_ranges::{RangeSet, Span};
use std::marker::Model;

/// The downloaders of one reader, the most recently used first. No call takes memory.
#[derive(Drop)]
pub struct Crew {
    direct: bool,
    members: ArrayVec<Downloader, 4>,
}

impl Model for Crew {
    ghost use Rattle.downloaders.specs.Crew.{Team, IsTeam};

    ghost Value = { Team };

    ghost view = { λ crew. record { direct = crew.direct; list = crew.members.items } };

    ghost invariant = { λ crew.
        IsTeam (record { direct = crew.direct; list = crew.members.items }) };
}

impl Crew {
    // how many bytes a downloader reads over rather than that another one is made
    const GAP: u64 = 1 << 20;
    // how many bytes a pull takes at most
    const BLOCK: u64 = 1 << 17;

    /// No downloader yet, and room for four.
    pub fn new() -> Crew
        ensures { result ≡ record { direct = false; list = [] } }
    {
        Crew {
            direct: false,
            members: ArrayVec::new(),
        }
    }

    /// The crew of a direct reader: one downloader, which reads over nothing and pulls no byte
    /// past its span.
    pub fn direct() -> Crew
        ensures { result ≡ record { direct = true; list = [] } }
    {
        Crew {
            direct: true,
            members: ArrayVec::new(),
        }
    }

    /// Whether it is a direct reader's.
    pub fn is_direct(&self) -> bool
        ensures direct { result ≡ self.now.direct }
        ensures team { IsTeam self.now }
    {
        self.direct
    }

    /// What is to be done next, so that the span's bytes become present.
    ///
    /// `present` are the bytes that are here, and `base_end` is where the object ends.
    pub fn next(&self, plan: &Plan, present: &RangeSet, span: Span, base_end: u64) -> Ask
        requires chunk { HasChunk plan.now.chunk }
        requires some { span.start < span.end }
        requires within { span.end ≤ base_end }
        ensures rules { IsNext plan.now (has present.now) self.now span base_end result }

        // It is the first of the asks that the rules make until they say done.
        ensures first { (asks : List Ask) →
            AreAsks plan.now span base_end (has present.now) self.now asks →
            result ≡ first_ask asks }

        // What it says may be noted by `requested` or `pulled`.
        ensures doable { IsDoable self.now result }
        ensures team { IsTeam self.now }
    {
        let _ = &self.members;
        match present.first_missing(span) {
            None => Ask::Done,
            Some(gap) => self.ask_for(plan, span, base_end, gap.start),
        }
    }

    // What is asked for the sake of the missing byte.
    fn ask_for(&self, plan: &Plan, span: Span, base_end: u64, byte: u64) -> Ask
        requires to { byte < span.end }
        requires within { span.end ≤ base_end }
        ensures { result ≡ ask_for plan.now self.now span base_end byte }
    {
        let _ = &self.members;
        let left = base_end - byte;
        match self.near(byte) {
            None => request(self.new_run(), byte, plan.first_size(left), base_end),
            Some(d) if d.pos == d.end => {
                request(d.run, byte, plan.later_size(left, d.chunk), base_end)
            }
            Some(d) => Ask::Pull {
                run: d.run,
                pos: d.pos,
                len: self.pull_len(span, d),
            },
        }
    }

    // How much the downloader pulls at once.
    fn pull_len(&self, span: Span, d: Downloader) -> u32
        requires order { d.pos ≤ d.end }
        requires before { d.pos ≤ span.end }
        ensures { result ≡ pull_len self.now span span.end d }
    {
        let len = Crew::BLOCK.min(d.end - d.pos);
        if self.direct {
            len.min(span.end - d.pos) as u32
        } else {
            len as u32
        }
    }

    /// The downloader of this number made a request.
    pub fn requested(&mut self, run: u8, start: u64, end: u64, chunk: u64)
        requires some { start < end }
        requires size { 1 ≤ chunk }
        requires open { IsOpen run self.old }
        ensures { self.new ≡ after_request run start end chunk self.old }
    {
        leave_out(&mut self.members, run);
        self.members.insert(
            0,
            Downloader {
                run,
                pos: start,
                end,
                chunk,
            },
        );
    }

    /// The downloader of this number pulled `len` bytes.
    pub fn pulled(&mut self, run: u8, len: u32)
        requires { HasLeft run len self.old }
        ensures { self.new ≡ after_pull run len self.old }
    {
        if let Some(d) = self.member(run) {
            leave_out(&mut self.members, run);
            let pos = d.pos + u64::from(len);
            self.members.insert(0, Downloader { pos, ..d });
        }
    }

    /// The downloader of this number ended, where there is one.
    pub fn ended(&mut self, run: u8)
        requires { run ≤ 3 }
        ensures { self.new ≡ after_end run self.old }
    {
        leave_out(&mut self.members, run);
    }

    fn member(&self, run: u8) -> Option<Downloader>
        ensures { result ≡ member_at run self.now }
    {
        self.members.iter().copied().find(|d| d.run == run)
    }

    // The most recently used downloader that comes to the byte.
    fn near(&self, byte: u64) -> Option<Downloader>
        ensures { result ≡ near byte self.now }
    {
        let gap = if self.direct { 0 } else { Crew::GAP };
        self.members.iter().copied().find(|d| d.reaches(gap, byte))
    }

    // The number that a new downloader takes.
    fn new_run(&self) -> u8
        ensures { result ≡ new_run self.now }
    {
        let places = if self.direct { 1 } else { 4 };
        if self.members.len() < places {
            least_free(self.members.as_slice())
        } else {
            last_run(self.members.as_slice())
        }
    }
}

// The least number that no downloader has.
fn least_free(members: &[Downloader]) -> u8
    requires { length members.now ≤ 4 }
    ensures { result ≡ least_free members.now }
{
    let count = members.len() as u8;
    for run in 0..count {
        if !has_run(members, run) {
            return run;
        }
    }
    count
}

fn has_run(members: &[Downloader], run: u8) -> bool
    ensures { result ≡ has_run run members.now }
{
    members.iter().any(|d| d.run == run)
}

// The number of the downloader that was least recently used.
fn last_run(members: &[Downloader]) -> u8
    ensures { result ≡ last_run members.now }
{
    match members {
        [.., last] => last.run,
        [] => 0,
    }
}

fn leave_out(members: &mut ArrayVec<Downloader, 4>, run: u8)
    ensures { members.new.items ≡ without run members.old.items }
{
    members.retain(|d| d.run != run);
}

// A request of this size, as far as the end of the object.
fn request(run: u8, start: u64, size: u64, base_end: u64) -> Ask
    ensures { result ≡ request run start size base_end }
{
    Ask::Request {
        run,
        start,
        end: start.saturating_add(size).min(base_end),
        chunk: size,
    }
}
