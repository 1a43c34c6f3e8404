use super::*;
use std::os::unix::fs::MetadataExt;

/// The last position of a file's data.
const LAST: u64 = (1 << 40) - 1;

#[test]
fn metadata_is_replaced_and_found_by_the_next_disk(rt: HostRuntime) -> Result<(), Fail> {
    let _ = fs::remove_dir_all(&rt, "cache_meta");
    let mut disk = attached(&rt, "cache_meta")?;
    let mut file = taken(&mut disk, 7)?;
    assert_eq!(rt; file.read_meta(), Ok(None));
    for text in ["a first text", "", "another"] {
        assert_eq!(rt; file.save_meta(text.as_bytes()), Ok(()));
        assert!(rt; shows(&mut file, text)?);
    }
    give_back(&mut disk, 7, file)?;
    assert_eq!(rt; disk.faults(), 0);
    drop(disk);
    let mut disk = attached(&rt, "cache_meta")?;
    assert!(rt; lists(&mut disk, &[7])?);
    assert!(rt; shows(&mut taken(&mut disk, 7)?, "another")?);
    fs::remove_dir_all(&rt, "cache_meta")?;
    Ok(())
}

fn read_ten(file: &mut FolderFile<HostRuntime>, pos: u64) -> Result<[u8; 10], DiskError> {
    let mut into = [9u8; 10];
    if pos > LAST - 9 {
        return Err(DiskError::Failed);
    }
    match file.read_at(pos, &mut into) {
        Ok(()) => Ok(into),
        Err(error) => Err(error),
    }
}

#[test]
fn bytes_are_kept_up_to_the_last_position(rt: HostRuntime) -> Result<(), Fail> {
    let _ = fs::remove_dir_all(&rt, "cache_data");
    let mut disk = attached(&rt, "cache_data")?;
    let mut file = taken(&mut disk, 0)?;
    assert_eq!(rt; read_ten(&mut file, LAST - 9), Ok([0; 10]));
    assert_eq!(rt; file.write_at(2, b"abcd"), Ok(()));
    assert_eq!(rt; file.write_at(4, b"XYZ"), Ok(()));
    assert_eq!(rt; read_ten(&mut file, 1), Ok(*b"\0abXYZ\0\0\0\0"));
    assert_eq!(rt; file.write_at(LAST, b"!"), Ok(()));
    drop(disk);
    let mut disk = attached(&rt, "cache_data")?;
    let mut file = taken(&mut disk, 0)?;
    assert_eq!(rt; read_ten(&mut file, 1), Ok(*b"\0abXYZ\0\0\0\0"));
    assert_eq!(rt; read_ten(&mut file, LAST - 9), Ok(*b"\0\0\0\0\0\0\0\0\0!"));
    let made = fs::metadata(&rt, "cache_data/0.data")?;
    assert_eq!(rt; made.len(), LAST + 1);
    assert_eq!(rt; made.mode() & 0o077, 0);
    fs::remove_dir_all(&rt, "cache_data")?;
    Ok(())
}

#[test]
fn a_cleared_slot_keeps_its_data_where_that_is_asked(rt: HostRuntime) -> Result<(), Fail> {
    let _ = fs::remove_dir_all(&rt, "cache_clear");
    let mut disk = attached(&rt, "cache_clear")?;
    for (keep, left) in [(true, *b"data\0\0\0\0\0\0"), (false, [0; 10])] {
        let mut file = taken(&mut disk, 3)?;
        assert_eq!(rt; file.write_at(0, b"data"), Ok(()));
        assert_eq!(rt; file.save_meta(b"text"), Ok(()));
        assert!(rt; lists(&mut disk, &[3])?);
        assert_eq!(rt; file.clear(keep), Ok(()));
        assert_eq!(rt; file.clear(keep), Ok(()));
        assert_eq!(rt; file.read_meta(), Ok(None));
        assert!(rt; lists(&mut disk, &[])?);
        assert_eq!(rt; read_ten(&mut file, 0), Ok(left));
        assert_eq!(rt; fs::exists(&rt, "cache_clear/3.data")?, keep);
        give_back(&mut disk, 3, file)?;
    }
    assert_eq!(rt; disk.faults(), 0);
    fs::remove_dir_all(&rt, "cache_clear")?;
    Ok(())
}

#[test]
fn half_of_a_text_is_not_shown_and_written_over(rt: HostRuntime) -> Result<(), Fail> {
    let _ = fs::remove_dir_all(&rt, "cache_killed");
    let mut disk = attached(&rt, "cache_killed")?;
    write(&rt, "cache_killed/1.meta.new", "half of a text")?;
    assert!(rt; lists(&mut disk, &[])?);
    let mut file = taken(&mut disk, 1)?;
    assert_eq!(rt; file.read_meta(), Ok(None));
    assert_eq!(rt; file.save_meta(b"new"), Ok(()));
    assert!(rt; shows(&mut file, "new")?);
    assert!(rt; lists(&mut disk, &[1])?);
    assert!(rt; !fs::exists(&rt, "cache_killed/1.meta.new")?);
    fs::remove_dir_all(&rt, "cache_killed")?;
    Ok(())
}

#[test]
fn a_folder_is_held_by_one_disk_at_a_time(rt: HostRuntime) -> Result<(), Fail> {
    let _ = fs::remove_dir_all(&rt, "cache_lock");
    let mut first = attached(&rt, "cache_lock/one/two")?;
    let mut second = FolderDisk::new(rt.alloc(), rt);
    for name in ["cache_lock/one/two", "cache_lock/one/./two/"] {
        assert_eq!(rt; second.attach(name), Err(DiskError::Failed));
    }
    for name in ["cache_lock/one/two", "cache_lock/three"] {
        assert_eq!(rt; first.attach(name), Err(DiskError::Failed));
    }
    assert_eq!(rt; (first.faults(), second.faults()), (2, 2));
    assert!(rt; !fs::exists(&rt, "cache_lock/three")?);
    assert!(rt; lists(&mut first, &[])?);
    drop(first);
    assert_eq!(rt; second.attach("cache_lock/one/two"), Ok(()));
    assert!(rt; lists(&mut second, &[])?);
    assert_eq!(rt; second.faults(), 2);
    fs::remove_dir_all(&rt, "cache_lock")?;
    Ok(())
}

fn is_send<T: Send>(_value: &T) {}

#[test]
fn a_disk_and_its_files_may_go_to_another_thread(rt: HostRuntime) -> Result<(), Fail> {
    let _ = fs::remove_dir_all(&rt, "cache_send");
    let mut disk = attached(&rt, "cache_send")?;
    is_send(&taken(&mut disk, 1)?);
    is_send(&disk);
    fs::remove_dir_all(&rt, "cache_send")?;
    Ok(())
}
