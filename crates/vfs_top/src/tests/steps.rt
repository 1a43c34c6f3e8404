ghost use Rattle.std.specs.Prelude.{◌≡◌, ℕ, false};
ghost use Rattle.cache_memory.specs.Disks.{disk_of};

use super::plain::{Content, OBJECT};
use super::*;
use session_text::{Record, Reply};
use vfs_names::{Blob, Refusal};

/// What a line does to the file of its handle.
#[derive(Clone, Copy, Debug)]
pub enum Deed {
    /// Opens it, and makes it where it isn't there and `true` is said.
    Open(bool),
    Read(u64, u64),
    Write(u64, &'static str),
    Size(u64),
    Close,
}

use Deed::{Close, Open, Read, Size, Write};

/// A line of the script: the number of its handle, and what is done. Each handle has one file, of the name beside it in
/// `NAMES`; `a` is an object of the store.
#[derive(Clone, Copy, Debug)]
pub struct Step(pub usize, pub Deed);

const NAMES: [&str; 3] = ["a", "b", "c"];

/// Requests of 8 bytes.
const WORDS: [&str; 9] = [
    "run",
    "--vfs-read-chunk-size=8B",
    "--vfs-read-chunk-size-limit=0",
    "--worker-turns=0",
    "--vfs-cache-mode=full",
    "--cache",
    "c",
    "--remote",
    "r",
];

/// Creates, overlapping writes, sizes that cut and grow, reads of parts, closes and opens again.
pub const STEPS: [Step; 40] = [
    Step(0, Open(false)),
    Step(1, Open(true)),
    Step(2, Open(true)),
    Step(0, Read(10, 4)),
    Step(0, Write(14, "OVERLAPS")),
    Step(0, Read(8, 20)),
    Step(1, Write(0, "hello-world")),
    Step(1, Write(6, "WORLDS")),
    Step(2, Size(20)),
    Step(2, Write(30, "far")),
    Step(1, Read(0, 64)),
    Step(2, Read(0, 64)),
    Step(1, Close),
    Step(0, Size(40)),
    Step(0, Read(32, 32)),
    Step(0, Size(70)),
    Step(0, Write(60, "late")),
    Step(0, Read(36, 40)),
    Step(1, Open(false)),
    Step(1, Write(3, "xyz")),
    Step(1, Size(5)),
    Step(1, Size(9)),
    Step(1, Write(20, "")),
    Step(2, Write(0, "ten-bytes!")),
    Step(2, Write(5, "twelve-bytes")),
    Step(2, Read(0, 64)),
    Step(2, Size(0)),
    Step(2, Write(2, "again")),
    Step(0, Close),
    Step(0, Open(false)),
    Step(0, Write(0, "head")),
    Step(0, Read(0, 64)),
    Step(2, Close),
    Step(2, Open(false)),
    Step(2, Write(4, ".")),
    Step(2, Read(0, 128)),
    Step(1, Read(0, 128)),
    Step(0, Read(0, 128)),
    Step(1, Close),
    Step(0, Close),
];

impl Step {
    /// The line of the script.
    fn push_to(self, alloc: Global, script: &mut String) -> Result<(), Fail> {
        let Step(h, deed) = self;
        let name = NAMES.as_slice().get(h).copied().unwrap_or("");
        let line = match deed {
            Open(false) => format!(in alloc; "s1 open {h} {name} rw\n")?,
            Open(true) => format!(in alloc; "s1 open {h} {name} rw create\n")?,
            Read(pos, len) => format!(in alloc; "s1 read {h} {pos} {len}\n")?,
            Write(pos, text) => format!(in alloc; "s1 write {h} {pos} text:{text}\n")?,
            Size(size) => format!(in alloc; "s1 size {h} {size}\n")?,
            Close => format!(in alloc; "s1 close {h}\n")?,
        };
        script.push_str(line.as_str())?;
        Ok(())
    }
}

/// The store with the object `a`.
fn store(alloc: Global) -> Result<MemoryRemote, Fail> {
    let mut remote = MemoryRemote::new(alloc);
    let path = VPath::parse(alloc, "a")?;
    if path.is_root() {
        return Err(Fail::from("the root"));
    }
    let bytes = Content::object();
    let bytes = Blob::from_slice(alloc, bytes.part(0, OBJECT))?;
    let _ = remote.put(path, bytes, 1000)?;
    Ok(remote)
}

/// A run of these steps over a disk.
pub fn run_steps(
    alloc: Global,
    steps: &[Step],
    disk: MemoryDisk,
) -> Result<Ended<MemoryRemote, MemoryDisk>, Fail>
    requires { (slot : ℕ) → (disk_of disk).out slot ≡ false }
{
    let mut script = String::new(alloc);
    for step in steps {
        step.push_to(alloc, &mut script)?;
    }
    let words = words_of(alloc, &WORDS)?;
    let mut source = source_of(alloc, script.as_bytes(), &[])?;
    let mut sink = MemorySink::new(alloc, Vec::new(alloc));
    let mut clock = ScriptClock::new();
    Ok(run(
        alloc,
        &words,
        &mut source,
        &mut sink,
        store(alloc)?,
        disk,
        &mut clock,
        &OpenGate,
    ))
}

/// What is known of the file of a handle: its content, where there is such a file, and whether it is open.
#[derive(Clone, Copy)]
struct File {
    content: Option<Content>,
    open: bool,
}

impl File {
    /// Whether the reply is right, where the disk may have refused the call; then it did nothing.
    fn meets(&mut self, deed: Deed, reply: &Reply) -> bool {
        match deed {
            Open(create) => self.opens(create, reply),
            _ if !self.open => is_bad_handle(reply),
            Close => self.closes(reply),
            _ if is_fault(reply) => true,
            _ => self.serves(deed, reply),
        }
    }

    fn opens(&mut self, create: bool, reply: &Reply) -> bool {
        match self.content {
            _ if self.open => is_bad_handle(reply),
            _ if is_fault(reply) => true,
            None if !create => matches!(reply, Reply::Refused(Refusal::NotFound)),
            content => {
                self.content = Some(content.unwrap_or(Content::none()));
                self.open = true;
                matches!(reply, Reply::Done)
            }
        }
    }

    fn closes(&mut self, reply: &Reply) -> bool {
        self.open = false;
        matches!(reply, Reply::Done)
    }

    /// Whether the reply of a read, a write or a new size is right.
    fn serves(&mut self, deed: Deed, reply: &Reply) -> bool {
        let Some(content) = &mut self.content else {
            return false;
        };
        match deed {
            Read(pos, len) => shows(reply, content.part(pos, len)),
            Write(pos, text) => {
                content.put_all(pos, text.as_bytes());
                wrote(reply, text.len())
            }
            Size(size) => {
                content.cut(size);
                matches!(reply, Reply::Done)
            }
            _ => false,
        }
    }
}

/// The disk refused the call.
pub fn is_fault(reply: &Reply) -> bool {
    matches!(reply, Reply::Refused(Refusal::DiskFault))
}

fn is_bad_handle(reply: &Reply) -> bool {
    matches!(reply, Reply::Refused(Refusal::BadHandle))
}

fn shows(reply: &Reply, bytes: &[u8]) -> bool {
    match reply {
        Reply::Bytes(shown) => shown.as_slice() == bytes,
        _ => false,
    }
}

fn wrote(reply: &Reply, len: usize) -> bool {
    match reply {
        Reply::Wrote(n) => *n as usize == len,
        _ => false,
    }
}

/// The files before the first step.
fn files() -> [File; 3] {
    let none = File {
        content: None,
        open: false,
    };
    let object = File {
        content: Some(Content::object()),
        open: false,
    };
    [object, none, none]
}

/// Each step has its reply, and these are right, where a call that the disk refused did nothing.
pub fn are_right(steps: &[Step], records: &[Record]) -> bool {
    let mut files = files();
    let mut right = steps.len() == records.len();
    for (step, record) in steps.iter().zip(records) {
        let Step(h, deed) = *step;
        right = right && h < 3 && files[h].meets(deed, &record.reply);
    }
    right
}
