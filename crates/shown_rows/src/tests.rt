ghost use Rattle.std.specs.Prelude.{◌≡◌, IsTrue};
ghost use Rattle.std.specs.List.{list_any};
ghost use Rattle.vfs_names.specs.Path.{same_text};
ghost use Rattle.vfs_outside.specs.Outside.{HasNames};
ghost use Rattle.vfs_outside.specs.declared.listing.Row.{Row};

use crate::*;
use std::alloc::Global;
use std::test::Fail;
use vfs_names::{Blob, Fingerprint, VPath};
use vfs_outside::{Kind, Row, is_row_name};

fn print(rev: u64) -> Fingerprint {
    Fingerprint {
        size: 7,
        mtime: 8,
        rev,
    }
}

fn row(alloc: Global, name: &str, kind: Kind, rev: u64) -> Result<Row, Fail> {
    let name = Blob::from_slice(alloc, name.as_bytes())?;
    Ok(Row {
        name,
        kind,
        print: print(rev),
    })
}

fn has_name(rows: &[Row], name: &[u8]) -> bool
    ensures { result ≡ list_any (λ (row : Row). same_text row.name name.now) rows.now }
{
    rows.iter().any(|row| row.name.as_slice() == name)
}

/// Whether the rows have names, and no two the same. Compares each with each.
fn have_names(rows: &[Row]) -> bool
    ensures { IsTrue result → HasNames rows.now }
{
    let Some((row, later)) = rows.split_first() else {
        return true;
    };
    let name = row.name.as_slice();
    let named = is_row_name(name);
    let again = has_name(later, name);
    if again || !named {
        return false;
    }
    have_names(later)
}

fn shown_of(alloc: Global, rows: &[Row]) -> Result<ShownRows, Fail> {
    if !have_names(rows) {
        return Err(Fail::from("two rows have one name"));
    }
    Ok(ShownRows::of(alloc, rows)?)
}

fn get(shown: &ShownRows, alloc: Global, name: &str) -> Result<Option<Shown>, Fail> {
    let path = VPath::parse(alloc, name)?;
    Ok(shown.get(&path))
}

fn remove(shown: &mut ShownRows, alloc: Global, name: &str) -> Result<(), Fail> {
    let path = VPath::parse(alloc, name)?;
    shown.remove(&path);
    Ok(())
}

fn set_print(shown: &mut ShownRows, alloc: Global, name: &str, rev: u64) -> Result<(), Fail> {
    let path = VPath::parse(alloc, name)?;
    let Some(_) = shown.get(&path) else {
        return Err(Fail::from("not shown"));
    };
    shown.set_print(&path, print(rev));
    Ok(())
}

fn listed(alloc: Global) -> Result<Vec<Row>, Fail> {
    let mut rows = Vec::new(alloc);
    rows.push(row(alloc, "ab", Kind::Dir, 1)?)?;
    rows.push(row(alloc, "a", Kind::File, 2)?)?;
    rows.push(row(alloc, "b.txt", Kind::File, 3)?)?;
    rows.push(row(alloc, "été", Kind::File, 4)?)?;
    Ok(rows)
}

fn change(shown: &mut ShownRows, alloc: Global) -> Result<(), Fail> {
    set_print(shown, alloc, "a", 9)?;
    set_print(shown, alloc, "b.txt", 8)?;
    remove(shown, alloc, "ab")?;
    remove(shown, alloc, "b.txt")?;
    remove(shown, alloc, "c")
}

#[test]
fn names_are_shown_until_they_are_removed(rt: HostRuntime) -> Result<(), Fail> {
    let rows = listed(rt.alloc())?;
    let before = shown_of(rt.alloc(), rows.as_slice())?;
    let mut after = shown_of(rt.alloc(), rows.as_slice())?;
    change(&mut after, rt.alloc())?;
    let object = |rev| Some(Shown::Object(print(rev)));
    let table = [
        ("ab", Some(Shown::Dir), None),
        ("a", object(2), object(9)),
        ("b.txt", object(3), None),
        ("été", object(4), object(4)),
        ("b", None, None),
        ("a/b", None, None),
        ("", None, None),
    ];
    for (name, first, then) in table {
        assert_eq!(rt; get(&before, rt.alloc(), name)?, first, "{name}");
        assert_eq!(rt; get(&after, rt.alloc(), name)?, then, "{name}");
    }
    Ok(())
}

fn put_object(shown: &mut ShownRows, alloc: Global, name: &str, rev: u64) -> Result<(), Fail> {
    let text = String::from_str(alloc, name)?;
    shown.reserve()?;
    shown.put_object(text, print(rev));
    Ok(())
}

#[test]
fn making_room_changes_nothing(rt: HostRuntime) -> Result<(), Fail> {
    let rows = listed(rt.alloc())?;
    let mut shown = shown_of(rt.alloc(), rows.as_slice())?;
    let mut none = ShownRows::new(rt.alloc());
    for _ in 0..100 {
        shown.reserve()?;
        none.reserve()?;
    }
    let object = |rev| Some(Shown::Object(print(rev)));
    let table = [
        ("ab", Some(Shown::Dir)),
        ("a", object(2)),
        ("b.txt", object(3)),
        ("été", object(4)),
        ("b", None),
        ("", None),
    ];
    for (name, expected) in table {
        assert_eq!(rt; get(&shown, rt.alloc(), name)?, expected, "{name}");
        assert_eq!(rt; get(&none, rt.alloc(), name)?, None, "{name}");
    }
    Ok(())
}

fn put_objects(shown: &mut ShownRows, alloc: Global) -> Result<(), Fail> {
    put_object(shown, alloc, "b", 5)?;
    put_object(shown, alloc, "a", 6)?;
    put_object(shown, alloc, "ab", 7)?;
    put_object(shown, alloc, "c/d", 8)?;
    put_object(shown, alloc, "c", 9)?;
    put_object(shown, alloc, "c", 10)?;
    remove(shown, alloc, "c/d")
}

#[test]
fn objects_are_put_over_what_is_shown(rt: HostRuntime) -> Result<(), Fail> {
    let rows = listed(rt.alloc())?;
    let mut shown = shown_of(rt.alloc(), rows.as_slice())?;
    put_objects(&mut shown, rt.alloc())?;
    let object = |rev| Some(Shown::Object(print(rev)));
    let table = [
        ("ab", object(7)),
        ("a", object(6)),
        ("b.txt", object(3)),
        ("été", object(4)),
        ("b", object(5)),
        ("c", object(10)),
        ("c/d", None),
        ("abc", None),
        ("", None),
    ];
    for (name, expected) in table {
        assert_eq!(rt; get(&shown, rt.alloc(), name)?, expected, "{name}");
    }
    Ok(())
}

fn put_many(shown: &mut ShownRows, alloc: Global) -> Result<(), Fail> {
    for rev in 0..10_000u64 {
        let name = format!(in alloc; "name-{rev}")?;
        let row = row(alloc, name.as_str(), Kind::File, rev)?;
        if !is_row_name(row.name.as_slice()) {
            return Err(Fail::from("not a name"));
        }
        shown.put(alloc, &row)?;
    }
    Ok(())
}

#[test]
fn many_names_are_shown(rt: HostRuntime) -> Result<(), Fail> {
    let mut shown = ShownRows::new(rt.alloc());
    put_many(&mut shown, rt.alloc())?;
    for rev in 0..10_000u64 {
        let name = format!(in rt.alloc(); "name-{rev}")?;
        let found = get(&shown, rt.alloc(), name.as_str())?;
        assert_eq!(rt; found, Some(Shown::Object(print(rev))));
        if rev % 3 == 0 {
            remove(&mut shown, rt.alloc(), name.as_str())?;
        }
    }
    Ok(())
}
