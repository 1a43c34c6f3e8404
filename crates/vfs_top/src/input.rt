ghost use Rattle.std.specs.Prelude.{◌≡◌, ◌<◌, ◌≤◌, ◌++◌, ℕ, List, length, IfOk};
ghost use Rattle.std.specs.Io.KnownBytes.{Consumes, IsAtEnd};
ghost use Rattle.vfs_outside.specs.Causes.{Rose};
ghost use Rattle.vfs_top.specs.Script.{IsTooLong, IsWhole};

use session_script::MAX_SCRIPT;
use std::alloc::Global;
use vfs_outside::Source;

/// Why a script wasn't read to its end.
#[derive(Clone, Copy, Debug, PartialEq, Eq)]
pub enum Unread {
    /// The source failed.
    Fault,
    /// More bytes came than a script may have.
    TooLong,
    NoMemory,
}

/// How many bytes are asked for at a time.
const PIECE: usize = 4096;

/// The source's bytes to its end. Of a longer script no more than one byte past the limit is read.
pub fn read_all<S: Source>(alloc: Global, source: &mut S) -> Result<Vec<u8>, Unread>
    ensures whole { IfOk result (λ text. IsWhole (S.left source.old) (S.left source.new) text.items) }
    ensures long { result ≡ Err Unread.TooLong → IsTooLong (S.left source.old) (S.left source.new) }
    ensures fault { result ≡ Err Unread.Fault → Rose (S.faults source.old) (S.faults source.new) }
    ensures later { S.faults source.old ≤ S.faults source.new }
{
    let mut text = Vec::new(alloc);
    let mut piece = [0; PIECE];
    'pieces: while text.len() <= MAX_SCRIPT {
        let room = (MAX_SCRIPT + 1 - text.len()).min(PIECE);
        match read_piece(source, &mut piece[..room], &mut text) {
            Ok(0) => return Ok(text),
            Ok(_) => {}
            Err(why) => return Err(why),
        }
    }
    Err(Unread::TooLong)
}

/// The next bytes, as many as come at once, put at the end of the text; their number is 0 at the end alone.
fn read_piece<S: Source>(
    source: &mut S,
    piece: &mut [u8],
    text: &mut Vec<u8>,
) -> Result<usize, Unread>
    requires { 0 < length piece.old }
    ensures most { IfOk result (λ count. count ≤ length piece.old) }
    ensures read { IfOk result (λ count. (front : List ℕ) × (length front ≡ count)
        × (text.new.items ≡ text.old.items ++ front)
        × Consumes (S.left source.old) (S.left source.new) front) }
    ensures end { IfOk result (λ count. count ≡ 0 → IsAtEnd (S.left source.new)) }
    ensures short { (result ≡ Err Unread.TooLong) → ⊥ }
    ensures fault { result ≡ Err Unread.Fault → Rose (S.faults source.old) (S.faults source.new) }
    ensures later { S.faults source.old ≤ S.faults source.new }
{
    let count = match source.read(piece) {
        Ok(count) => count,
        Err(_) => return Err(Unread::Fault),
    };
    match text.extend_from_slice(&piece[..count]) {
        Ok(()) => Ok(count),
        Err(_) => Err(Unread::NoMemory),
    }
}
