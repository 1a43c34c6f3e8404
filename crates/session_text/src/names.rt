ghost use Rattle.std.specs.Prelude.{◌≡◌, ◌<◌, ◌≤◌, ◌++◌, length, OnOk};
ghost use Rattle.hex.specs.Hex.{encode_lower};
ghost use Rattle.session_script.specs.Escape.{escape, escape_byte, upper_digit};
ghost use Rattle.session_script.specs.Words.{access_word, counted, path_word};
ghost use Rattle.session_text.specs.Names.{base_text, dirty_text, payload_text, who_text};
ghost use Rattle.session_text.specs.Printed.{Keeps};
ghost use Rattle.vfs_names.specs.Fingerprint.{print_text};

use crate::put::{put, put_number};
use vfs_names::{Access, Actor, Blob, Fingerprint, NoMemory, Payload, VPath};

pub fn access_name(access: Access) -> &'static str
    ensures { result.now ≡ access_word access }
{
    match access {
        Access::Read => "r",
        Access::Write => "w",
        Access::Both => "rw",
    }
}

pub fn dirty_name(dirty: bool) -> &'static str
    ensures { result.now ≡ dirty_text dirty }
{
    if dirty { "dirty" } else { "clean" }
}

pub fn put_who(out: &mut Blob, actor: Actor) -> Result<(), NoMemory>
    ensures ok { OnOk result (out.new ≡ out.old ++ who_text actor) }
    ensures kept { Keeps out.old out.new }
{
    match actor {
        Actor::Main => put(out, b"m"),
        Actor::Session(n) => {
            put(out, b"s")?;
            put_number(out, n as u64)
        }
        Actor::Worker(n) => {
            put(out, b"w")?;
            put_number(out, n as u64)
        }
    }
}

pub fn put_print(out: &mut Blob, print: Fingerprint) -> Result<(), NoMemory>
    ensures ok { OnOk result (out.new ≡ out.old ++ print_text print) }
    ensures kept { Keeps out.old out.new }
{
    put_number(out, print.size)?;
    put(out, b".")?;
    put_number(out, print.mtime)?;
    put(out, b".")?;
    put_number(out, print.rev)
}

pub fn put_base(out: &mut Blob, base: Option<Fingerprint>) -> Result<(), NoMemory>
    ensures ok { OnOk result (out.new ≡ out.old ++ base_text base) }
    ensures kept { Keeps out.old out.new }
{
    match base {
        Some(print) => put_print(out, print),
        None => put(out, b"-"),
    }
}

/// The digit of a number below 16, an upper-case one.
fn digit(n: u8) -> u8
    requires { n < 16 }
    ensures { result ≡ upper_digit n }
{
    if n < 10 { b'0' + n } else { b'A' + (n - 10) }
}

fn put_escape_byte(out: &mut Blob, byte: u8) -> Result<(), NoMemory>
    ensures ok { OnOk result (out.new ≡ out.old ++ escape_byte byte) }
    ensures kept { Keeps out.old out.new }
{
    if byte < 33 || byte == 127 || byte == b'%' || byte == b',' {
        put(out, &[b'%', digit(byte / 16), digit(byte % 16)])
    } else {
        put(out, &[byte])
    }
}

pub fn put_escaped(out: &mut Blob, bytes: &[u8]) -> Result<(), NoMemory>
    ensures ok { OnOk result (out.new ≡ out.old ++ escape bytes.now) }
    ensures kept { Keeps out.old out.new }
{
    for byte in bytes {
        put_escape_byte(out, *byte)?;
    }
    Ok(())
}

pub fn put_path(out: &mut Blob, path: &VPath) -> Result<(), NoMemory>
    ensures ok { OnOk result (out.new ≡ out.old ++ path_word path.now) }
    ensures kept { Keeps out.old out.new }
{
    if path.is_root() {
        put(out, b"/")
    } else {
        put_escaped(out, path.as_str().as_bytes())
    }
}

/// The bytes as digits, two a byte.
pub fn put_hex(out: &mut Blob, bytes: &[u8]) -> Result<(), NoMemory>
    ensures ok { OnOk result (out.new ≡ out.old ++ encode_lower bytes.now) }
    ensures kept { Keeps out.old out.new }
{
    for piece in bytes.chunks(64) {
        put_piece(out, piece)?;
    }
    Ok(())
}

fn put_piece(out: &mut Blob, piece: &[u8]) -> Result<(), NoMemory>
    requires { length piece.now ≤ 64 }
    ensures ok { OnOk result (out.new ≡ out.old ++ encode_lower piece.now) }
    ensures kept { Keeps out.old out.new }
{
    let mut digits = [0; 128];
    let digits = &mut digits[..2 * piece.len()];
    match hex::encode_to_slice(piece, digits) {
        Ok(()) => put(out, digits),
        Err(_) => Err(NoMemory),
    }
}

pub fn put_payload(out: &mut Blob, payload: &Payload) -> Result<(), NoMemory>
    ensures ok { OnOk result (out.new ≡ out.old ++ payload_text payload.now) }
    ensures kept { Keeps out.old out.new }
{
    match payload {
        Payload::Bytes(bytes) => {
            put(out, b"hex:")?;
            put_hex(out, bytes.as_slice())
        }
        Payload::Fill { byte, len } => {
            put(out, b"fill:")?;
            put_two(out, *byte, *len)
        }
        Payload::Pattern { seed, len } => {
            put(out, b"pat:")?;
            put_two(out, *seed, *len)
        }
    }
}

/// Two numbers with a colon between them.
fn put_two(out: &mut Blob, small: u8, len: u64) -> Result<(), NoMemory>
    ensures ok { OnOk result (out.new ≡ out.old ++ counted small len) }
    ensures kept { Keeps out.old out.new }
{
    put_number(out, small as u64)?;
    put(out, b":")?;
    put_number(out, len)
}
