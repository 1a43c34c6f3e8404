ghost use Rattle.std.specs.Prelude.{◌≡◌, ◌++◌, OnOk};
ghost use Rattle.session_text.specs.Printed.{Keeps};
ghost use Rattle.session_text.specs.Refusals.{found_text, refusal_text, verb_text};

use crate::names::put_print;
use crate::put::put;
use vfs_names::{Blob, Fingerprint, Found, NoMemory, Refusal, Verb};

pub fn verb_name(verb: Verb) -> &'static str
    ensures { result.now ≡ verb_text verb }
{
    match verb {
        Verb::Open => "open",
        Verb::Read => "read",
        Verb::Write => "write",
        Verb::Size => "size",
        Verb::Close => "close",
        Verb::Stat => "stat",
        Verb::List => "list",
        Verb::MakeDir => "mkdir",
        Verb::RemoveDir => "rmdir",
        Verb::Unlink => "unlink",
        Verb::Rename => "rename",
        Verb::Clean => "clean",
        Verb::Poll => "poll",
        Verb::Upload => "upload",
        Verb::Refresh => "vfs/refresh",
    }
}

fn put_found(out: &mut Blob, found: Found) -> Result<(), NoMemory>
    ensures ok { OnOk result (out.new ≡ out.old ++ found_text found) }
    ensures kept { Keeps out.old out.new }
{
    match found {
        Found::Missing => put(out, b"missing"),
        Found::Other(print) => put_print(out, print),
        Found::Changed => put(out, b"changed"),
    }
}

fn put_stale(out: &mut Blob, held: Fingerprint, found: Found) -> Result<(), NoMemory>
    ensures ok { OnOk result (out.new ≡ out.old ++ refusal_text (Refusal.Stale held found)) }
    ensures kept { Keeps out.old out.new }
{
    put(out, b"E15 stale ")?;
    put_print(out, held)?;
    put(out, b" ")?;
    put_found(out, found)
}

pub fn put_refusal(out: &mut Blob, why: Refusal) -> Result<(), NoMemory>
    ensures ok { OnOk result (out.new ≡ out.old ++ refusal_text why) }
    ensures kept { Keeps out.old out.new }
{
    match why {
        Refusal::NotFound => put(out, b"E1 not found"),
        Refusal::Exists => put(out, b"E2 exists"),
        Refusal::IsDir => put(out, b"E3 is a directory"),
        Refusal::NotDir => put(out, b"E4 not a directory"),
        Refusal::NotEmpty => put(out, b"E5 not empty"),
        Refusal::BadHandle => put(out, b"E6 bad handle"),
        Refusal::NotReadable => put(out, b"E7 not readable"),
        Refusal::NotWritable => put(out, b"E8 not writable"),
        Refusal::TableFull => put(out, b"E9 table full"),
        Refusal::InUse => put(out, b"E10 in use"),
        Refusal::Unsupported => put(out, b"E11 unsupported"),
        Refusal::TooBig => put(out, b"E12 too big"),
        Refusal::RemoteFault => put(out, b"E13 remote fault"),
        Refusal::DiskFault => put(out, b"E14 disk fault"),
        Refusal::Stale { held, found } => put_stale(out, held, found),
        Refusal::HistoryFull => put(out, b"E16 history full"),
        Refusal::NoMemory => put(out, b"E17 no memory"),
    }
}
