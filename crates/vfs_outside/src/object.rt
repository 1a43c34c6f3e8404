ghost use Rattle.std.specs.Prelude.{◌≡◌, ◌<◌, ◌≤◌, ◌+◌, ℕ, List, length, IfOk, OnOk};
ghost use Rattle.vfs_names.specs.declared.fingerprint.Fingerprint.{Fingerprint};
ghost use Rattle.vfs_outside.specs.Object.{HasReason, IsAsked, IsPart, SameObject};

use vfs_names::Fingerprint;

/// Why an object did not do a call.
#[derive(Clone, Copy, Debug, PartialEq, Eq)]
pub enum ObjectError {
    /// It is no longer the object that was opened.
    Changed,
    Failed,
    NoMemory,
}

/// An object of a store, as it was when it was opened.
pub trait Object: Drop {
    /// A range of bytes that was asked for, and how far it was pulled.
    type Stream: Drop;

    // where it holds, `bytes` are those of the object
    ghost tells: { Type 0 };

    ghost bytes: { Self → List ℕ };

    ghost print_of: { Self → Fingerprint };

    ghost path: { Self → List ℕ };

    ghost faults: { Self → ℕ };

    ghost changes: { Self → ℕ };

    // the ranges that were asked for, in order
    ghost asked: { Self → List (ℕ × ℕ) };

    // the object that made a stream, and what is left of its range
    ghost source: { Self.Stream → Fingerprint };

    ghost place: { Self.Stream → ℕ };

    ghost finish: { Self.Stream → ℕ };

    fn print(&self) -> Fingerprint
        ensures { result ≡ print_of self.now };

    /// Asks for a range of bytes.
    fn request(&mut self, start: u64, end: u64) -> Result<Self::Stream, ObjectError>
        requires order { start < end }
        requires end { end ≤ (print_of self.old).size }
        ensures asked { IsAsked (start, end) (asked self.old) (asked self.new) result }
        ensures same { SameObject bytes print_of path self.old self.new }
        ensures source { IfOk result (λ s. source s ≡ print_of self.old) }
        ensures range { IfOk result (λ s. (place s ≡ start) × (finish s ≡ end)) }
        ensures reason { HasReason (faults self.old) (faults self.new) (changes self.old) (changes self.new) result };

    /// The next bytes of a range.
    fn pull(&mut self, stream: &mut Self::Stream, into: &mut [u8]) -> Result<(), ObjectError>
        requires own { source stream.old ≡ print_of self.old }
        requires left { place stream.old + length into.old ≤ finish stream.old }
        ensures asked { asked self.new ≡ asked self.old }
        ensures same { SameObject bytes print_of path self.old self.new }
        ensures source { OnOk result (source stream.new ≡ source stream.old) }
        ensures place { OnOk result (place stream.new ≡ place stream.old + length into.old) }
        ensures finish { OnOk result (finish stream.new ≡ finish stream.old) }
        ensures length { length into.new ≡ length into.old }
        ensures bytes { OnOk result (tells → IsPart (bytes self.old) (place stream.old) into.new) }
        ensures reason { HasReason (faults self.old) (faults self.new) (changes self.old) (changes self.new) result };
}
