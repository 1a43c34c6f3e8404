ghost use Rattle.std.specs.Prelude.{◌<◌};

use crate::{CleanRow, ListedPins, PinRule, choose};
use std::alloc::Global;
use std::test::Fail;
use vfs_names::{ItemId, VPath};

const HOUR: u64 = 3_600_000;

#[test]
fn a_pin_covers_what_lies_below_it(rt: HostRuntime) -> Result<(), Fail> {
    let pins = vec![in rt.alloc();
        VPath::parse(rt.alloc(), "a")?,
        VPath::parse(rt.alloc(), "b/c")?,
    ]?;
    let rule = PinRule::new(pins.as_slice(), ListedPins(pins.as_slice()));
    for (path, pinned) in [
        ("a", true),
        ("a/b", true),
        ("ab", false),
        ("b", false),
        ("b/c/d", true),
    ] {
        assert_eq!(rt;
            rule.pinned(&VPath::parse(rt.alloc(), path)?),
            pinned,
            "{path}"
        );
    }
    Ok(())
}

fn row(alloc: Global, item: u32, path: &str, atime: u64, kept: u64) -> Result<CleanRow, Fail> {
    Ok(CleanRow {
        item: ItemId(item),
        path: VPath::parse(alloc, path)?,
        atime,
        kept,
        dirty: false,
        is_open: false,
    })
}

/// What is chosen of the rows with these pins, and the bytes that stay.
fn chosen(
    alloc: Global,
    rows: &[CleanRow],
    pins: &[VPath],
    now: u64,
    quota: Option<u64>,
) -> Result<(Vec<ItemId>, u64), Fail> {
    let rule = PinRule::new(pins, ListedPins(pins));
    let Ok(items) = choose(alloc, rows, now, HOUR, quota, &rule) else {
        return Err(Fail::from("no memory"));
    };
    let mut stays: u64 = 0;
    for row in rows {
        if !items.as_slice().contains(&row.item) {
            stays = stays.saturating_add(row.kept);
        }
    }
    Ok((items, stays))
}

#[test]
fn neither_dirty_nor_open_nor_pinned_files_go(rt: HostRuntime) -> Result<(), Fail> {
    let mut dirty = row(rt.alloc(), 1, "b", 5, 60)?;
    dirty.dirty = true;
    let mut open = row(rt.alloc(), 2, "c", 1, 60)?;
    open.is_open = true;
    let rows = vec![in rt.alloc(); row(rt.alloc(), 0, "a", 10, 60)?, dirty, open]?;
    let pin = vec![in rt.alloc(); VPath::parse(rt.alloc(), "a")?]?;
    let (items, stays) = chosen(rt.alloc(), &rows, &[], 20, Some(100))?;
    assert_eq!(rt; items.as_slice(), [ItemId(0)].as_slice());
    assert_eq!(rt; stays, 120);
    let (items, _) = chosen(rt.alloc(), &rows, &pin, 20, Some(100))?;
    assert_eq!(rt; items.len(), 0);
    let (items, _) = chosen(rt.alloc(), &rows, &[], 9 + HOUR, None)?;
    assert_eq!(rt; items.len(), 0);
    let (items, _) = chosen(rt.alloc(), &rows, &[], 10 + HOUR, None)?;
    assert_eq!(rt; items.as_slice(), [ItemId(0)].as_slice());
    Ok(())
}

/// A seeded source of numbers.
#[derive(Drop)]
struct Random(u64);

impl Random {
    fn below(&mut self, n: u64) -> u64
        requires { 0 < n }
        ensures { result < n }
    {
        self.0 = self
            .0
            .wrapping_mul(6_364_136_223_846_793_005)
            .wrapping_add(1_442_695_040_888_963_407);
        (self.0 >> 33) % n
    }
}

fn some_rows(alloc: Global, random: &mut Random) -> Result<Vec<CleanRow>, Fail> {
    let mut rows = Vec::new(alloc);
    for item in 0u32..24 {
        let mut row = row(
            alloc,
            item,
            "x",
            random.below(12) * 500_000,
            random.below(50),
        )?;
        row.dirty = random.below(5) == 0;
        row.is_open = random.below(6) == 0;
        rows.push(row)?;
    }
    Ok(rows)
}

/// The same by the rule as it is read: the list is searched whole for each file that goes.
fn plain(alloc: Global, rows: &[CleanRow], now: u64, quota: u64) -> Result<Vec<ItemId>, Fail> {
    let mut items: Vec<ItemId> = Vec::new(alloc);
    for row in rows {
        if !row.dirty && !row.is_open && row.atime.saturating_add(HOUR) <= now {
            items.push(row.item)?;
        }
    }
    for _ in rows {
        let mut stays: u64 = 0;
        let mut least: Option<(u64, u32)> = None;
        for row in rows {
            if items.as_slice().contains(&row.item) {
                continue;
            }
            stays = stays.saturating_add(row.kept);
            let first = least.is_none_or(|least| (row.atime, row.item.0) < least);
            if !row.dirty && !row.is_open && first {
                least = Some((row.atime, row.item.0));
            }
        }
        if stays > quota {
            if let Some((_, item)) = least {
                items.push(ItemId(item))?;
            }
        }
    }
    Ok(items)
}

#[test]
fn chooses_what_a_plain_search_chooses(rt: HostRuntime) -> Result<(), Fail> {
    let mut random = Random(11);
    let mut all = 0usize;
    for turn in 0u32..200 {
        let rows = some_rows(rt.alloc(), &mut random)?;
        let now = 3 * HOUR / 2 + random.below(HOUR);
        let quota = random.below(700);
        let (items, _) = chosen(rt.alloc(), &rows, &[], now, Some(quota))?;
        let want = plain(rt.alloc(), &rows, now, quota)?;
        assert!(rt; items.as_slice() == want.as_slice(), "at {turn}");
        all = all.saturating_add(items.len());
    }
    assert!(rt; all > 1_000);
    Ok(())
}
