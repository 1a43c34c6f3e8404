ghost use Rattle.std.specs.Prelude.{◌≡◌, ◌≤◌, ◌++◌, ◌^◌, ◌==◌, ◌&&◌, false, true, IfOk, OnOk};
ghost use Rattle.vfs_names.specs.declared.who.ItemId.{ItemId};
ghost use Rattle.writeback_queue.specs.History.{is_member, is_uploading};
ghost use Rattle.writeback_queue.specs.Legal.{IsLegal};
ghost use Rattle.writeback_queue.specs.Queue.{past_of};
ghost use Rattle.one_session.specs.Queued.{awaited_by, began_by, book_by, id_of, item_rows, owed_item, rested_by, row_at, row_if, settled_by, withdrawn_by};

use sparse_item::ItemBook;
use std::alloc::Global;
use vfs_names::{By, ItemId, NoMemory, QueueRow, Refusal};
use vfs_outside::{CacheFile, Object};
use writeback_queue::QueueBook;

/// The maker of what a file's book enters in the queue.
fn book_by(by: By, item: u32) -> By
    ensures { result ≡ book_by by item }
{
    By {
        pass: item as u64 + 1,
        tree: false,
        ..by
    }
}

/// A write began a version: it wasn't refused, and wasn't empty.
pub(crate) fn begins(wrote: &Result<u32, Refusal>) -> bool
    ensures { result ≡ began_by wrote.now }
{
    match wrote {
        Ok(n) => *n > 0,
        Err(_) => false,
    }
}

/// A file goes from the queue, where it is in it and a version of its content began.
pub(crate) fn withdraw(queue: &mut QueueBook, by: By, item: u32, began: bool)
    ensures entries { queue.new.entries ≡ queue.old.entries
        ++ withdrawn_by by item began (is_member (past_of queue.old) (id_of item)) }
    ensures terms { queue.new.terms ≡ queue.old.terms }
    ensures legal { IsLegal queue.new.terms (past_of queue.new) }
{
    if began {
        queue.remove(book_by(by, item), ItemId(item));
    } else {
        let _count = queue.len();
    }
}

/// A close leaves a changed file with no open handle, where so many handles were open before it.
pub(crate) fn rests(opens: u32, dirty: bool) -> bool
    ensures { result ≡ ((opens == 1) && dirty) }
{
    opens == 1 && dirty
}

/// What a close enters in the queue: where it leaves a changed file with no open handle, the file waits for an upload.
pub(crate) fn settle_close(queue: &mut QueueBook, by: By, item: u32, rests: bool)
    requires room { 2 ≤ queue.old.spare }
    requires now { by.now ≤ 2 ^ 62 }
    requires small { queue.old.terms.write_back ≤ 2 ^ 62 }
    requires idle { is_uploading (past_of queue.old) (id_of item) ≡ false }
    ensures entries { queue.new.entries ≡ queue.old.entries ++ rested_by rests
        queue.old.terms.write_back by item (is_member (past_of queue.old) (id_of item)) }
    ensures terms { queue.new.terms ≡ queue.old.terms }
    ensures legal { IsLegal queue.new.terms (past_of queue.new) }
{
    if rests {
        await_upload(queue, by, item);
    } else {
        let _count = queue.len();
    }
}

/// Ends the turn of a file that was taken: it leaves the queue where it was saved, and else waits again, for longer.
pub(crate) fn settle_turn(queue: &mut QueueBook, by: By, item: u32, saved: bool)
    requires now { by.now ≤ 2 ^ 62 }
    requires uploads { is_uploading (past_of queue.old) (id_of item) ≡ true }
    ensures entries { queue.new.entries ≡ queue.old.entries ++ settled_by by item saved }
    ensures terms { queue.new.terms ≡ queue.old.terms }
    ensures legal { IsLegal queue.new.terms (past_of queue.new) }
{
    if saved {
        queue.remove(book_by(by, item), ItemId(item));
    } else {
        queue.fail(by, ItemId(item));
    }
}

/// A file waits for an upload from now on: it is added, or where it waits already it is due anew, after the write-back time.
fn await_upload(queue: &mut QueueBook, by: By, item: u32)
    requires room { 2 ≤ queue.old.spare }
    requires now { by.now ≤ 2 ^ 62 }
    requires small { queue.old.terms.write_back ≤ 2 ^ 62 }
    requires idle { is_uploading (past_of queue.old) (id_of item) ≡ false }
    ensures entries { queue.new.entries ≡ queue.old.entries
        ++ awaited_by queue.old.terms.write_back by item (is_member (past_of queue.old) (id_of item)) }
    ensures terms { queue.new.terms ≡ queue.old.terms }
    ensures legal { IsLegal queue.new.terms (past_of queue.new) }
{
    let due = by.now + queue.terms().write_back;
    let by = book_by(by, item);
    let item = ItemId(item);
    if queue.waiting(item) {
        queue.set_due(by, item, due);
    } else {
        queue.add(by, item, due);
    }
}

/// The row of a file that waits.
fn row_at(queue: &QueueBook, item: u32) -> QueueRow
    requires { is_member (past_of queue.now) (id_of item) ≡ true }
    ensures { result ≡ row_at queue.now.terms.write_back queue.now.entries item }
{
    let item = ItemId(item);
    let Some(due) = queue.due(item) else {
        unreachable!()
    };
    let Some(fails) = queue.fails(item) else {
        unreachable!()
    };
    QueueRow { item, due, fails }
}

/// The number of a file; memory ends before the numbers do.
fn number_at(index: usize) -> Result<u32, NoMemory>
    ensures { IfOk result (λ number. number ≡ index) }
{
    match u32::try_from(index) {
        Ok(number) => Ok(number),
        Err(_) => Err(NoMemory),
    }
}

/// Puts the row of a file behind the others, by the file's place, where it waits.
fn push_row(
    rows: &mut Vec<QueueRow>,
    queue: &QueueBook,
    index: usize,
    waits: bool,
) -> Result<(), NoMemory>
    requires { waits ≡ true → is_member (past_of queue.now) (id_of index) ≡ true }
    ensures { OnOk result (rows.new.items ≡ rows.old.items
        ++ row_if waits queue.now.terms.write_back queue.now.entries index) }
{
    if waits {
        let item = number_at(index)?;
        rows.push(row_at(queue, item))?;
    }
    Ok(())
}

/// The rows of the files that wait, by their numbers.
pub(crate) fn rows_of<O: Object, F: CacheFile>(
    alloc: Global,
    queue: &QueueBook,
    files: &[ItemBook<O, F>],
) -> Result<Vec<QueueRow>, NoMemory>
    requires members { (item : ItemId) → is_member (past_of queue.now) item
        ≡ owed_item files.now item.0 }
    ensures { IfOk result (λ rows. rows.items ≡ item_rows queue.now.terms.write_back
        queue.now.entries files.now) }
{
    let mut rows = Vec::new(alloc);
    for (index, file) in files.iter().enumerate() {
        push_row(&mut rows, queue, index, file.owed())?;
    }
    Ok(rows)
}
