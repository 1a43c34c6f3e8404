ghost use Rattle.std.specs.Prelude.{◌≡◌, ◌++◌, OnOk, OnErr};
ghost use Rattle.session_text.specs.Lines.{queue_block, queue_lines};
ghost use Rattle.session_text.specs.Printed.{Keeps};

use crate::put::{put, settle};
use crate::word::{Word, put_line};
use vfs_names::{Blob, NoMemory, QueueRow};

/// Appends the queue: the line `queue`, and a line for each row. Takes time linear in what is printed.
pub fn print_queue(out: &mut Blob, rows: &[QueueRow]) -> Result<(), NoMemory>
    ensures ok { OnOk result (out.new ≡ out.old ++ queue_block rows.now) }
    ensures err { OnErr result (out.new ≡ out.old) }
{
    let before = out.as_slice().len();
    let printed = put_queue(out, rows);
    settle(out, before, printed)
}

fn put_queue(out: &mut Blob, rows: &[QueueRow]) -> Result<(), NoMemory>
    ensures ok { OnOk result (out.new ≡ out.old ++ queue_block rows.now) }
    ensures kept { Keeps out.old out.new }
{
    put(out, b"queue\n")?;
    put_rows(out, rows)
}

fn put_rows(out: &mut Blob, rows: &[QueueRow]) -> Result<(), NoMemory>
    ensures ok { OnOk result (out.new ≡ out.old ++ queue_lines rows.now) }
    ensures kept { Keeps out.old out.new }
{
    for row in rows {
        put_line(
            out,
            &Word::Number(row.item.0 as u64),
            &[Word::Number(row.due), Word::Number(row.fails as u64)],
        )?;
    }
    Ok(())
}
