use super::*;
use std::os::unix::fs::symlink;
use vfs_names::Fingerprint;

type Folder = FolderRemote<HostRuntime>;

/// A stage with these bytes, appended in two pieces.
fn staged(
    remote: &mut Folder,
    alloc: Global,
    bytes: &[u8],
) -> Result<FolderStage<HostRuntime>, RemoteError> {
    let (first, rest) = bytes.split_at(bytes.len() / 2);
    let mut stage = remote.stage(alloc)?;
    remote.append(&mut stage, first)?;
    remote.append(&mut stage, rest)?;
    Ok(stage)
}

fn commit(
    remote: &mut Folder,
    alloc: Global,
    stage: FolderStage<HostRuntime>,
    path: &str,
) -> Result<Fingerprint, RemoteError> {
    let Ok(path) = VPath::parse(alloc, path) else {
        return Err(RemoteError::NoMemory);
    };
    if path.is_root() {
        return Err(RemoteError::NoMemory);
    }
    remote.commit(alloc, stage, &path, 77)
}

/// How many names of the folder begin as those of stages do.
fn stages_in(rt: &HostRuntime, folder: &str) -> Result<u64, Fail> {
    let mut count = 0u64;
    for entry in fs::read_dir(rt, folder)? {
        if entry?.file_name().starts_with(".vfs-stage-") {
            count = count.saturating_add(1);
        }
    }
    Ok(count)
}

fn content(rt: &HostRuntime, name: &str) -> Result<Vec<u8>, Fail> {
    Ok(fs::read(rt, name)?)
}

#[test]
fn a_commit_puts_a_file_whole_or_nothing(rt: HostRuntime) -> Result<(), Fail> {
    let alloc = rt.alloc();
    let mut remote = attached(&rt, "stages_commit")?;
    fs::create_dir_all(&rt, "stages_commit/d/e")?;
    put(&rt, "stages_commit/d/old", b"old content", 50)?;
    symlink(&rt, "d/old", "stages_commit/link")?;
    symlink(&rt, "d", "stages_commit/dir")?;
    let long = [b'n'; 300];
    let long = std::str::from_utf8(&long)?;
    let table = [
        ("new", None),
        ("new", None),
        ("d/old", None),
        ("d/e/deep", None),
        ("d", Some(RemoteError::Missing)),
        ("d/e", Some(RemoteError::Missing)),
        ("x/new", Some(RemoteError::Missing)),
        ("new/new", Some(RemoteError::Missing)),
        ("link", Some(RemoteError::Missing)),
        ("dir", Some(RemoteError::Missing)),
        ("dir/new", Some(RemoteError::Missing)),
        (long, Some(RemoteError::Failed)),
    ];
    for (round, (path, error)) in table.iter().enumerate() {
        let bytes = format!(in alloc; "content of round {round}")?;
        let stage = staged(&mut remote, alloc, bytes.as_bytes())?;
        assert_eq!(rt; stages_in(&rt, "stages_commit")?, 1);
        let answer = commit(&mut remote, alloc, stage, path);
        assert_eq!(rt; answer.err(), *error, "{path}");
        assert_eq!(rt; stages_in(&rt, "stages_commit")?, 0, "{path}");
        if let Ok(print) = answer {
            let name = format!(in alloc; "stages_commit/{path}")?;
            assert_eq!(rt; content(&rt, name.as_str())?.as_slice(), bytes.as_bytes());
            assert_eq!(rt; print.size, bytes.len() as u64);
            assert!(rt; print.mtime > 1_000_000_000_000 && print.rev == 0);
            let object = remote.open_object(alloc, &VPath::parse(alloc, path)?)?;
            assert_eq!(rt; object.print(), print);
        }
    }
    assert_eq!(rt;
        content(&rt, "stages_commit/link")?.as_slice(),
        b"content of round 2".as_slice()
    );
    fs::remove_dir_all(&rt, "stages_commit")?;
    Ok(())
}

#[test]
fn an_empty_stage_is_an_empty_object(rt: HostRuntime) -> Result<(), Fail> {
    let alloc = rt.alloc();
    let mut remote = attached(&rt, "stages_empty")?;
    let stage = remote.stage(alloc)?;
    let print = commit(&mut remote, alloc, stage, "a")?;
    assert_eq!(rt; print.size, 0);
    assert_eq!(rt; content(&rt, "stages_empty/a")?.len(), 0);
    fs::remove_dir_all(&rt, "stages_empty")?;
    Ok(())
}

#[test]
fn an_object_of_one_size_gets_another_fingerprint(rt: HostRuntime) -> Result<(), Fail> {
    let alloc = rt.alloc();
    let mut remote = attached(&rt, "stages_time")?;
    // the bytes, how many milliseconds the old file's time is later than the new one's, and that the new one then is
    let table = [
        (b"new".as_slice(), 0, 1),
        (b"new".as_slice(), 1, 2),
        (b"new".as_slice(), 5000, 0),
        (b"longer".as_slice(), 0, 0),
    ];
    for (bytes, ahead, later) in table {
        fs::write(&rt, "stages_time/a", b"old".as_slice())?;
        let stage = staged(&mut remote, alloc, bytes)?;
        let time = stage_time(&rt, "stages_time")?;
        put(&rt, "stages_time/a", b"old", time.saturating_add(ahead))?;
        let path = VPath::parse(alloc, "a")?;
        let before = remote.open_object(alloc, &path)?.print();
        let print = commit(&mut remote, alloc, stage, "a")?;
        assert_eq!(rt; print.mtime, time.saturating_add(later));
        assert!(rt; print != before);
        assert_eq!(rt; remote.open_object(alloc, &path)?.print(), print);
        assert_eq!(rt; content(&rt, "stages_time/a")?.as_slice(), bytes);
    }
    fs::remove_dir_all(&rt, "stages_time")?;
    Ok(())
}

/// The modification time in milliseconds of the one stage's file of a folder.
fn stage_time(rt: &HostRuntime, folder: &str) -> Result<u64, Fail> {
    for entry in fs::read_dir(rt, folder)? {
        let entry = entry?;
        if entry.file_name().starts_with(".vfs-stage-") {
            let since = entry.metadata()?.modified()?.duration_since(UNIX_EPOCH)?;
            let time = u64::try_from(since.as_millis())?;
            return Ok(time);
        }
    }
    Err(Fail::from("no stage"))
}

#[test]
fn a_stage_that_is_dropped_leaves_nothing(rt: HostRuntime) -> Result<(), Fail> {
    let alloc = rt.alloc();
    let mut remote = attached(&rt, "stages_dropped")?;
    {
        let first = staged(&mut remote, alloc, b"first")?;
        let _second = staged(&mut remote, alloc, b"second")?;
        assert_eq!(rt; stages_in(&rt, "stages_dropped")?, 2);
        assert_eq!(rt; listed(alloc, &mut remote, "")?.as_str(), "");
        let print = commit(&mut remote, alloc, first, "a")?;
        assert_eq!(rt; print.size, 5);
        assert_eq!(rt; stages_in(&rt, "stages_dropped")?, 1);
    }
    assert_eq!(rt; stages_in(&rt, "stages_dropped")?, 0);
    assert_eq!(rt;
        content(&rt, "stages_dropped/a")?.as_slice(),
        b"first".as_slice()
    );
    fs::remove_dir_all(&rt, "stages_dropped")?;
    Ok(())
}

#[test]
fn a_folder_that_is_renamed_away_and_back_loses_nothing(rt: HostRuntime) -> Result<(), Fail> {
    let alloc = rt.alloc();
    let _ = fs::remove_dir_all(&rt, "stages_away_now");
    let mut remote = attached(&rt, "stages_away")?;
    put(&rt, "stages_away/a", b"old", 50)?;
    let lost = staged(&mut remote, alloc, b"lost")?;
    let mut kept = staged(&mut remote, alloc, b"kept")?;
    fs::rename(&rt, "stages_away", "stages_away_now")?;
    assert_eq!(rt; remote.stage(alloc).err(), Some(RemoteError::Failed));
    let missing = commit(&mut remote, alloc, lost, "a");
    assert_eq!(rt; missing, Err(RemoteError::Missing));
    assert_eq!(rt; remote.append(&mut kept, b" on"), Ok(()));
    fs::rename(&rt, "stages_away_now", "stages_away")?;
    assert_eq!(rt;
        content(&rt, "stages_away/a")?.as_slice(),
        b"old".as_slice()
    );
    assert_eq!(rt; commit(&mut remote, alloc, kept, "a")?.size, 7);
    assert_eq!(rt;
        content(&rt, "stages_away/a")?.as_slice(),
        b"kept on".as_slice()
    );
    assert_eq!(rt; stages_in(&rt, "stages_away")?, 1);
    remote.attach("stages_away")?;
    assert_eq!(rt; stages_in(&rt, "stages_away")?, 0);
    fs::remove_dir_all(&rt, "stages_away")?;
    Ok(())
}

#[test]
fn what_a_dead_run_left_is_removed_at_attach(rt: HostRuntime) -> Result<(), Fail> {
    let alloc = rt.alloc();
    let mut remote = attached(&rt, "stages_dead")?;
    put(&rt, "stages_dead/.vfs-stage-0", b"dead", 50)?;
    put(&rt, "stages_dead/.vfs-stage-12", b"dead", 50)?;
    put(&rt, "stages_dead/.vfs-stage-007", b"other", 50)?;
    put(&rt, "stages_dead/.vfs-stage-x", b"other", 50)?;
    put(&rt, "stages_dead/a", b"object", 50)?;
    fs::create_dir(&rt, "stages_dead/.vfs-stage-3")?;
    symlink(&rt, "a", "stages_dead/.vfs-stage-4")?;
    let held = staged(&mut remote, alloc, b"held")?;
    assert_eq!(rt; stages_in(&rt, "stages_dead")?, 7);
    let mut other = FolderRemote::new(alloc, rt);
    other.attach("stages_dead")?;
    assert_eq!(rt; stages_in(&rt, "stages_dead")?, 5);
    assert_eq!(rt;
        content(&rt, "stages_dead/a")?.as_slice(),
        b"object".as_slice()
    );
    let second = staged(&mut other, alloc, b"second")?;
    assert_eq!(rt; commit(&mut remote, alloc, held, "a")?.size, 4);
    assert_eq!(rt; commit(&mut other, alloc, second, "a")?.size, 6);
    assert_eq!(rt;
        content(&rt, "stages_dead/a")?.as_slice(),
        b"second".as_slice()
    );
    fs::remove_dir_all(&rt, "stages_dead")?;
    Ok(())
}

#[test]
fn a_stage_that_others_changed_is_not_committed(rt: HostRuntime) -> Result<(), Fail> {
    let alloc = rt.alloc();
    let mut remote = attached(&rt, "stages_changed")?;
    put(&rt, "stages_changed/a", b"old", 50)?;
    for round in 0..3u64 {
        let stage = staged(&mut remote, alloc, b"new")?;
        let name = format!(in alloc; "stages_changed/.vfs-stage-{round}")?;
        match round {
            0 => fs::write(&rt, name.as_str(), b"more than that".as_slice())?,
            1 => fs::remove_file(&rt, name.as_str())?,
            _ => {
                fs::remove_file(&rt, name.as_str())?;
                fs::write(&rt, name.as_str(), b"bad".as_slice())?;
            }
        }
        let answer = commit(&mut remote, alloc, stage, "a");
        assert_eq!(rt; answer, Err(RemoteError::Failed), "{round}");
        assert_eq!(rt;
            content(&rt, "stages_changed/a")?.as_slice(),
            b"old".as_slice()
        );
    }
    assert_eq!(rt;
        content(&rt, "stages_changed/.vfs-stage-2")?.as_slice(),
        b"bad".as_slice()
    );
    fs::remove_dir_all(&rt, "stages_changed")?;
    Ok(())
}

#[test]
fn a_store_without_a_folder_has_no_stages(rt: HostRuntime) {
    let mut remote = FolderRemote::new(rt.alloc(), rt);
    assert_eq!(rt; remote.stage(rt.alloc()).err(), Some(RemoteError::Failed));
}
