ghost use Rattle.std.specs.Prelude.{◌≡◌, ◌++◌, ◌∷◌, map, OnOk, OnErr};
ghost use Rattle.session_text.specs.Lines.{
  advance_text,
  clean_text,
  damaged_text,
  end_text,
  join_text,
  poll_text,
  restart_text,
  shown_text,
  start_text,
  tick_text,
};
ghost use Rattle.session_text.specs.Printed.{word_text};
ghost use Rattle.session_text.specs.Words.{line};

use crate::put::settle;
use crate::reply::{Record, print_reply};
use crate::word::{Word, put_line};
use vfs_names::{Blob, NoMemory, Refusal, SlotId};

/// What a line of the script showed. `line` is its number, from 1; moments are in milliseconds.
#[derive(Debug, Drop)]
pub enum Shown {
    /// A call was done.
    Replied(Record),
    /// The clock was moved, and then told `now`.
    Advanced {
        line: u32,
        now: u64,
    },
    /// What was due was uploaded; so many uploads saved their file, and so many failed.
    Ticked {
        line: u32,
        uploaded: u32,
        failed: u32,
    },
    /// The cleaner gave up so many files, and was refused so many.
    Cleaned {
        line: u32,
        evicted: u32,
        refused: u32,
    },
    /// The remote was asked what changed: how many directories were forgotten, None where it doesn't tell.
    Polled {
        line: u32,
        answer: Result<Option<u32>, Refusal>,
    },
    /// The phase ended.
    Joined {
        line: u32,
    },
    /// A new epoch begins.
    Restarted {
        line: u32,
    },
}

/// Appends what a line of the script showed. Takes time linear in what is printed.
pub fn print_shown(out: &mut Blob, shown: &Shown) -> Result<(), NoMemory>
    ensures ok { OnOk result (out.new ≡ out.old ++ shown_text shown.now) }
    ensures err { OnErr result (out.new ≡ out.old) }
{
    match shown {
        Shown::Replied(done) => print_reply(out, done),
        Shown::Advanced { line, now } => print_advance(out, *line, *now),
        Shown::Ticked {
            line,
            uploaded,
            failed,
        } => print_tick(out, *line, *uploaded, *failed),
        Shown::Cleaned {
            line,
            evicted,
            refused,
        } => print_clean(out, *line, *evicted, *refused),
        Shown::Polled { line, answer } => print_poll(out, *line, *answer),
        Shown::Joined { line } => print_join(out, *line),
        Shown::Restarted { line } => print_restart(out, *line),
    }
}

/// Appends the line of an `advance`, after which the clock told `now`.
pub fn print_advance(out: &mut Blob, line: u32, now: u64) -> Result<(), NoMemory>
    ensures ok { OnOk result (out.new ≡ out.old ++ advance_text line now) }
    ensures err { OnErr result (out.new ≡ out.old) }
{
    print_line(
        out,
        &Word::Number(line as u64),
        &[Word::Text("advance"), Word::Number(now)],
    )
}

/// Appends the line of a `tick`.
pub fn print_tick(out: &mut Blob, line: u32, uploaded: u32, failed: u32) -> Result<(), NoMemory>
    ensures ok { OnOk result (out.new ≡ out.old ++ tick_text line uploaded failed) }
    ensures err { OnErr result (out.new ≡ out.old) }
{
    print_line(
        out,
        &Word::Number(line as u64),
        &[
            Word::Text("tick"),
            Word::Text("uploaded"),
            Word::Number(uploaded as u64),
            Word::Text("failed"),
            Word::Number(failed as u64),
        ],
    )
}

/// Appends the line of a `clean`.
pub fn print_clean(out: &mut Blob, line: u32, evicted: u32, refused: u32) -> Result<(), NoMemory>
    ensures ok { OnOk result (out.new ≡ out.old ++ clean_text line evicted refused) }
    ensures err { OnErr result (out.new ≡ out.old) }
{
    print_line(
        out,
        &Word::Number(line as u64),
        &[
            Word::Text("clean"),
            Word::Text("evicted"),
            Word::Number(evicted as u64),
            Word::Text("refused"),
            Word::Number(refused as u64),
        ],
    )
}

/// Appends the line of a `poll`: how many directories were forgotten, None where the remote doesn't poll.
pub fn print_poll(
    out: &mut Blob,
    line: u32,
    answer: Result<Option<u32>, Refusal>,
) -> Result<(), NoMemory>
    ensures ok { OnOk result (out.new ≡ out.old ++ poll_text line answer) }
    ensures err { OnErr result (out.new ≡ out.old) }
{
    let first = Word::Number(line as u64);
    match answer {
        Ok(Some(forgot)) => {
            print_line(
                out,
                &first,
                &[
                    Word::Text("poll"),
                    Word::Text("forgot"),
                    Word::Number(forgot as u64),
                ],
            )
        }
        Ok(None) => print_line(out, &first, &[Word::Text("poll"), Word::Text("off")]),
        Err(why) => print_line(out, &first, &[Word::Text("poll"), Word::Why(why)]),
    }
}

/// Appends the line of a `join`.
pub fn print_join(out: &mut Blob, line: u32) -> Result<(), NoMemory>
    ensures ok { OnOk result (out.new ≡ out.old ++ join_text line) }
    ensures err { OnErr result (out.new ≡ out.old) }
{
    print_line(out, &Word::Number(line as u64), &[Word::Text("join")])
}

/// Appends the line of a `restart`.
pub fn print_restart(out: &mut Blob, line: u32) -> Result<(), NoMemory>
    ensures ok { OnOk result (out.new ≡ out.old ++ restart_text line) }
    ensures err { OnErr result (out.new ≡ out.old) }
{
    print_line(out, &Word::Number(line as u64), &[Word::Text("restart")])
}

/// Appends the line of a damaged slot; `field` is the name of what is wrong with its metadata.
pub fn print_damaged(out: &mut Blob, slot: SlotId, field: &str) -> Result<(), NoMemory>
    ensures ok { OnOk result (out.new ≡ out.old ++ damaged_text slot field.now) }
    ensures err { OnErr result (out.new ≡ out.old) }
{
    print_line(
        out,
        &Word::Text("damaged"),
        &[Word::Number(slot.0 as u64), Word::Text(field)],
    )
}

/// Appends the line that an epoch starts with: how many files it has, how many of them wait for their upload, and how
/// many slots are damaged.
pub fn print_start(out: &mut Blob, files: u32, queued: u32, damaged: u32) -> Result<(), NoMemory>
    ensures ok { OnOk result (out.new ≡ out.old ++ start_text files queued damaged) }
    ensures err { OnErr result (out.new ≡ out.old) }
{
    print_line(
        out,
        &Word::Text("start"),
        &[
            Word::Text("files"),
            Word::Number(files as u64),
            Word::Text("queued"),
            Word::Number(queued as u64),
            Word::Text("damaged"),
            Word::Number(damaged as u64),
        ],
    )
}

/// Appends the last line, with the status that the program ends with.
pub fn print_end(out: &mut Blob, status: u8) -> Result<(), NoMemory>
    ensures ok { OnOk result (out.new ≡ out.old ++ end_text status) }
    ensures err { OnErr result (out.new ≡ out.old) }
{
    print_line(out, &Word::Text("end"), &[Word::Number(status as u64)])
}

fn print_line(out: &mut Blob, first: &Word, others: &[Word]) -> Result<(), NoMemory>
    ensures ok { OnOk result (out.new ≡ out.old ++ line (map word_text (first.now ∷ others.now))) }
    ensures err { OnErr result (out.new ≡ out.old) }
{
    let before = out.as_slice().len();
    let printed = put_line(out, first, others);
    settle(out, before, printed)
}
