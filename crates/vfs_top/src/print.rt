ghost use Rattle.std.specs.Prelude.{◌≡◌, ◌++◌, map, IfOk, OnOk};
ghost use Rattle.session_text.specs.declared.shown.Shown.TheVariants.{Replied};
ghost use Rattle.session_text.specs.Lines.{end_text, shown_text};
ghost use Rattle.vfs_top.specs.Epoch.{epoch_of, history_of};
ghost use Rattle.vfs_top.specs.Event.{pause_shown};
ghost use Rattle.vfs_top.specs.Transcript.{ending, file_text, file_texts, shown_texts};

use crate::phase::Pause;
use item_core::plain;
use one_session::{EpochLog, FileLog};
use session_text::{
    Record, print_advance, print_end, print_file, print_join, print_queue, print_reply, print_tree,
};
use vfs_names::{Blob, ItemId, NoMemory, QueueRow};
use vfs_outside::{CacheFile, Object};

/// Appends the replies of calls.
pub fn print_replies(out: &mut Blob, records: &[Record]) -> Result<(), NoMemory>
    ensures { OnOk result (out.new ≡ out.old ++ shown_texts (map Replied records.now)) }
{
    for done in records {
        print_reply(out, done)?;
    }
    Ok(())
}

/// Appends the replies of a phase's calls, and what this line showed that ended the phase.
pub fn print_paused(
    out: &mut Blob,
    records: &[Record],
    line: u32,
    pause: Pause,
    moment: u64,
) -> Result<(), NoMemory>
    ensures { OnOk result (out.new ≡ out.old
        ++ (shown_texts (map Replied records.now) ++ shown_text (pause_shown line pause moment))) }
{
    print_replies(out, records)?;
    match pause {
        Pause::Join => print_join(out, line),
        Pause::Advance(_) => print_advance(out, line, moment),
    }
}

/// Appends the histories of an epoch, these rows of its queue, and the last line.
pub fn print_ending<O: Object, F: CacheFile>(
    out: &mut Blob,
    log: &EpochLog<O, F>,
    rows: &[QueueRow],
) -> Result<(), NoMemory>
    ensures { OnOk result (out.new ≡ out.old ++ (ending (epoch_of log.now) rows.now ++ end_text 0)) }
{
    print_tree(out, &log.tree)?;
    print_files(out, &log.files)?;
    print_queue(out, rows)?;
    print_end(out, 0)
}

fn print_files(out: &mut Blob, files: &[FileLog]) -> Result<(), NoMemory>
    ensures { OnOk result (out.new ≡ out.old ++ file_texts 0 (map history_of files.now)) }
{
    for (index, file) in files.iter().enumerate() {
        print_history(out, index, file)?;
    }
    Ok(())
}

fn print_history(out: &mut Blob, index: usize, file: &FileLog) -> Result<(), NoMemory>
    ensures { OnOk result (out.new ≡ out.old ++ file_text index (history_of file.now)) }
{
    let item = item_at(index)?;
    let path = plain::name_of(&file.entries, &file.names);
    print_file(out, item, path, &file.entries)
}

/// The file's number; memory ends before the numbers do.
fn item_at(index: usize) -> Result<ItemId, NoMemory>
    ensures { IfOk result (λ item. item.0 ≡ index) }
{
    match u32::try_from(index) {
        Ok(number) => Ok(ItemId(number)),
        Err(_) => Err(NoMemory),
    }
}
