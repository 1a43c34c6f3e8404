ghost use Rattle.std.specs.Prelude.{◌≡◌, ◌≢◌, ◌<◌, ◌≤◌, ◌+◌, ◌-◌, ◌↔◌, ◌++◌, ℕ, List, [], ◌∷◌, None, Some, Ok, false, length, min, IfOk, OnOk, OnErr};
ghost use Rattle.byte_ranges.specs.Ranges.{has};
ghost use Rattle.downloaders.specs.declared.Ask.{Ask};
ghost use Rattle.downloaders.specs.Crew.{IsTeam, after_end, after_pull, after_request};
ghost use Rattle.downloaders.specs.Orders.{no_one};
ghost use Rattle.downloaders.specs.Rules.{AllHere, AreAsks, HasChunk, IsDoable};
ghost use Rattle.downloaders.specs.declared.Ask.TheVariants as asks;
ghost use Rattle.vfs_outside.specs.Object.{HasReason, IsAsked, IsPart};
ghost use Rattle.base_object.specs.Base.{IsLater, facts_of};
ghost use Rattle.base_object.specs.Pulls.{IfBlock, IsBlock, PullsFirst, PullsObject, progress_in};

use crate::Block;
use crate::streams::Streams;
use byte_ranges::{RangeSet, Span};
use downloaders::{Ask, Crew, Plan};
use std::alloc::Global;
use std::marker::Model;
use vfs_names::{Blob, NoMemory};
use vfs_outside::{Object, ObjectError};

/// An object, its downloaders, and a stream for each of them.
#[derive(Drop)]
pub struct Downloads<O: Object> {
    pub(crate) object: O,
    crew: Crew,
    streams: Streams<O::Stream>,
}

impl<O: Object> Model for Downloads<O> {
    ghost use Rattle.std.specs.Prelude.{◌≡◌, false};
    ghost use Rattle.base_object.specs.Base.{Downloading, facts_of};
    ghost use Rattle.base_object.specs.Streams.{HasStreams};

    ghost Value = { Downloading };

    ghost view = { λ d. record {
      object = facts_of O.print_of O.bytes O.faults O.changes O.asked d.object;
      crew = d.crew;
    } };

    ghost invariant = { λ d. (d.crew.direct ≡ false)
        × HasStreams O.source O.place O.finish (O.print_of d.object) d.streams d.crew };
}

/// The most bytes that one pull gives.
const BLOCK: u64 = 1 << 17;

/// So many bytes to be filled.
fn zeros(alloc: Global, len: u64) -> Result<Vec<u8>, NoMemory>
    ensures { IfOk result (λ bytes. length bytes.items ≡ len) }
{
    let mut bytes = Vec::new(alloc);
    match bytes.resize(len as usize, 0) {
        Ok(()) => Ok(bytes),
        Err(_) => Err(NoMemory),
    }
}

impl<O: Object> Downloads<O> {
    /// An object with no downloader yet; takes no memory.
    pub fn new(object: O) -> Downloads<O>
        ensures object { result.object
            ≡ facts_of O.print_of O.bytes O.faults O.changes O.asked object }
        ensures crew { result.crew ≡ no_one false }
    {
        Downloads {
            object,
            crew: Crew::new(),
            streams: Streams::new(),
        }
    }

    /// Ends all downloaders; takes no memory.
    pub fn clear(&mut self)
        ensures object { self.new.object ≡ self.old.object }
        ensures crew { self.new.crew ≡ no_one false }
    {
        self.crew = Crew::new();
        self.streams = Streams::new();
    }

    /// Pulls the next block by the rules, after the request before it; None where no byte of the
    /// span is missing.
    pub fn pull(
        &mut self,
        alloc: Global,
        plan: &Plan,
        present: &RangeSet,
        span: Span,
        base_end: u64,
    ) -> Result<Option<Block>, ObjectError>
        requires chunk { HasChunk plan.now.chunk }
        requires some { span.start < span.end }
        requires within { span.end ≤ base_end }
        requires size { base_end ≤ self.old.object.print.size }
        ensures none { (result ≡ Ok None) ↔ AllHere (has present.now) span base_end }
        ensures asks { (asks : List Ask) →
            AreAsks plan.now span base_end (has present.now) self.old.crew asks →
            PullsObject asks (progress_in self.old) (progress_in self.new) result }
        ensures block { IfBlock result (λ block.
            IsBlock O.tells self.old.object.bytes base_end block) }
        ensures object { IsLater self.old.object self.new.object }
        ensures reason { HasReason self.old.object.faults self.new.object.faults
            self.old.object.changes self.new.object.changes result }
        ensures team { IsTeam self.old.crew }
    {
        match self.crew.next(plan, present, span, base_end) {
            Ask::Done => Ok(None),
            Ask::Request {
                run,
                start,
                end,
                chunk,
            } => match self.pull_first(alloc, run, start, end, chunk) {
                Ok(block) => Ok(Some(block)),
                Err(why) => Err(why),
            },
            Ask::Pull { run, pos, len } => match self.pull_next(alloc, run, pos, len) {
                Ok(block) => Ok(Some(block)),
                Err(why) => Err(why),
            },
        }
    }

    /// Asks for a range and pulls its first block.
    fn pull_first(
        &mut self,
        alloc: Global,
        run: u8,
        start: u64,
        end: u64,
        chunk: u64,
    ) -> Result<Block, ObjectError>
        requires end { end ≤ self.old.object.print.size }
        requires low { run ≤ 3 }
        requires doable { IsDoable self.old.crew (asks.Request run start end chunk) }
        ensures asks { (rest : List Ask) → PullsFirst (asks.Request run start end chunk
            ∷ asks.Pull run start (min 131072 (end - start)) ∷ rest)
            (progress_in self.old) (progress_in self.new) result }
        ensures bytes { IfOk result (λ block. O.tells
            → IsPart self.old.object.bytes block.pos block.bytes) }
        ensures object { IsLater self.old.object self.new.object }
        ensures reason { HasReason self.old.object.faults self.new.object.faults
            self.old.object.changes self.new.object.changes result }
    {
        let Ok(buffer) = zeros(alloc, BLOCK.min(end - start)) else {
            return Err(ObjectError::NoMemory);
        };
        match self.request(run, start, end, chunk) {
            Ok(()) => self.fill(run, start, buffer),
            Err(why) => Err(why),
        }
    }

    /// Pulls the next block of a request.
    fn pull_next(
        &mut self,
        alloc: Global,
        run: u8,
        pos: u64,
        len: u32,
    ) -> Result<Block, ObjectError>
        requires { IsDoable self.old.crew (asks.Pull run pos len) }
        ensures asks { (rest : List Ask) → PullsFirst (asks.Pull run pos len ∷ rest)
            (progress_in self.old) (progress_in self.new) result }
        ensures bytes { IfOk result (λ block. O.tells
            → IsPart self.old.object.bytes block.pos block.bytes) }
        ensures object { IsLater self.old.object self.new.object }
        ensures reason { HasReason self.old.object.faults self.new.object.faults
            self.old.object.changes self.new.object.changes result }
    {
        let Ok(buffer) = zeros(alloc, u64::from(len)) else {
            return Err(ObjectError::NoMemory);
        };
        self.fill(run, pos, buffer)
    }

    /// The downloader of this number asks for a range. It ends where the object doesn't give one.
    fn request(&mut self, run: u8, start: u64, end: u64, chunk: u64) -> Result<(), ObjectError>
        requires end { end ≤ self.old.object.print.size }
        requires low { run ≤ 3 }
        requires doable { IsDoable self.old.crew (asks.Request run start end chunk) }
        ensures object { IsLater self.old.object self.new.object }
        ensures asked { IsAsked (start, end) self.old.object.asked self.new.object.asked result }
        ensures ok { OnOk result (self.new.crew
            ≡ after_request run start end chunk self.old.crew) }
        ensures err { OnErr result (self.new.crew ≡ after_end run self.old.crew) }
        ensures reason { HasReason self.old.object.faults self.new.object.faults
            self.old.object.changes self.new.object.changes result }
    {
        match self.object.request(start, end) {
            Ok(stream) => {
                self.crew.requested(run, start, end, chunk);
                self.streams.put(run, stream);
                Ok(())
            }
            Err(why) => {
                self.end(run);
                Err(why)
            }
        }
    }

    /// The downloader of this number, if there is one, ends.
    fn end(&mut self, run: u8)
        requires { run ≤ 3 }
        ensures object { self.new.object ≡ self.old.object }
        ensures crew { self.new.crew ≡ after_end run self.old.crew }
    {
        self.crew.ended(run);
        let _stream = self.streams.take(run);
    }

    /// The downloader of this number pulls as many bytes as the buffer has. It ends where the
    /// object doesn't give them.
    fn fill(&mut self, run: u8, pos: u64, mut buffer: Vec<u8>) -> Result<Block, ObjectError>
        requires doable { IsDoable self.old.crew (asks.Pull run pos (length buffer.items)) }
        ensures object { IsLater self.old.object self.new.object }
        ensures asked { self.new.object.asked ≡ self.old.object.asked }
        ensures pos { IfOk result (λ block. block.pos ≡ pos) }
        ensures length { IfOk result (λ block. length block.bytes ≡ length buffer.items) }
        ensures bytes { IfOk result (λ block. O.tells
            → IsPart self.old.object.bytes pos block.bytes) }
        ensures ok { OnOk result (self.new.crew
            ≡ after_pull run (length buffer.items) self.old.crew) }
        ensures err { OnErr result (self.new.crew ≡ after_end run self.old.crew) }
        ensures reason { HasReason self.old.object.faults self.new.object.faults
            self.old.object.changes self.new.object.changes result }
    {
        let Some(mut stream) = self.streams.take(run) else {
            unreachable!()
        };
        let len = buffer.len() as u32;
        match self.object.pull(&mut stream, buffer.as_mut_slice()) {
            Ok(()) => {
                self.streams.put(run, stream);
                self.crew.pulled(run, len);
                Ok(Block {
                    pos,
                    bytes: Blob::from_vec(buffer),
                })
            }
            Err(why) => {
                self.crew.ended(run);
                Err(why)
            }
        }
    }
}
