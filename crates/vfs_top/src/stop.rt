ghost use Rattle.std.specs.Prelude.{◌≡◌, ◌++◌, codes, decimal, OnOk};
ghost use Rattle.session_script.specs.Reasons.{limit_text, most_of, why_text};
ghost use Rattle.vfs_top.specs.Stop.{reason_text, status_of, stop_text};

use itoa::Buffer;
use session_script::{Limit, Why};
use session_text::print_end;
use vfs_names::{Blob, NoMemory};

/// Why a run ends before any call.
#[derive(Clone, Copy, Debug, PartialEq, Eq)]
pub enum Stop {
    /// The words aren't those of a run.
    Usage,
    /// The first line of the script that is refused, counted from 1.
    Refused { line: u32, why: Why },
    /// The source failed.
    Source,
    /// The script is above a limit.
    Limit(Limit),
    /// The remote couldn't be attached.
    Remote,
    /// The disk of the cache couldn't be attached or looked at.
    Disk,
    /// A slot of the disk has metadata, which no run can take up so far.
    Slots,
    NoMemory,
}

impl Stop {
    /// The status that the program ends with.
    pub fn status(self) -> u8
        ensures { result ≡ status_of self }
    {
        match self {
            Stop::Usage => 2,
            Stop::Refused { .. } => 3,
            Stop::Source => 4,
            Stop::Limit(_) => 7,
            Stop::Remote => 6,
            Stop::Disk => 6,
            Stop::Slots => 7,
            Stop::NoMemory => 8,
        }
    }
}

/// Appends the reason and the last line.
pub fn print_stop(out: &mut Blob, stop: Stop) -> Result<(), NoMemory>
    ensures { OnOk result (out.new ≡ out.old ++ stop_text stop) }
{
    print_reason(out, stop)?;
    out.append(b"\n")?;
    print_end(out, stop.status())
}

fn print_reason(out: &mut Blob, stop: Stop) -> Result<(), NoMemory>
    ensures { OnOk result (out.new ≡ out.old ++ reason_text stop) }
{
    match stop {
        Stop::Usage => out.append(b"usage: vfs run --remote DIR --cache DIR [options]"),
        Stop::Refused { line, why } => print_refused(out, line, why),
        Stop::Source => out.append(b"source fault"),
        Stop::Limit(limit) => print_limit(out, limit),
        Stop::Remote => out.append(b"remote fault"),
        Stop::Disk => out.append(b"disk fault"),
        Stop::Slots => out.append(b"limit slots 0"),
        Stop::NoMemory => out.append(b"no memory"),
    }
}

fn print_refused(out: &mut Blob, line: u32, why: Why) -> Result<(), NoMemory>
    ensures { OnOk result (out.new ≡ out.old ++ (codes "script line " ++ decimal line ++ codes ": " ++ why_text why)) }
{
    out.append(b"script line ")?;
    print_number(out, line as u64)?;
    out.append(b": ")?;
    out.append(why.text().as_bytes())?;
    Ok(())
}

fn print_limit(out: &mut Blob, limit: Limit) -> Result<(), NoMemory>
    ensures { OnOk result (out.new ≡ out.old ++ (codes "limit " ++ limit_text limit ++ codes " " ++ decimal (most_of limit))) }
{
    out.append(b"limit ")?;
    out.append(limit.text().as_bytes())?;
    out.append(b" ")?;
    print_number(out, limit.most())
}

fn print_number(out: &mut Blob, n: u64) -> Result<(), NoMemory>
    ensures { OnOk result (out.new ≡ out.old ++ decimal n) }
{
    let mut buffer = Buffer::new();
    out.append(buffer.format(n).as_bytes())
}
