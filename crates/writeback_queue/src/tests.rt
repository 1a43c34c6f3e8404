ghost use Rattle.std.specs.Prelude.{◌≡◌, ◌<◌, ◌≤◌, ◌^◌};

use crate::{QueueBook, QueueEntry, QueueKind};
use std::alloc::Global;
use std::test::Fail;
use vfs_names::{Actor, By, ItemId, Who};

fn by(pass: u64, now: u64) -> By
    ensures pass { result.pass ≡ pass }
    ensures now { result.now ≡ now }
{
    let who = Who {
        epoch: 0,
        phase: 0,
        actor: Actor::Main,
    };
    By {
        who,
        pass,
        tree: false,
        now,
    }
}

/// A queue with these items, each due at its moment.
fn filled(
    alloc: Global,
    write_back: u64,
    transfers: u32,
    items: &[(u32, u64)],
) -> Result<QueueBook, Fail> {
    let mut queue = QueueBook::new(alloc, write_back, transfers);
    for (item, due) in items {
        let item = ItemId(*item);
        queue.reserve(2)?;
        if queue.due(item).is_none() {
            queue.add(by(u64::from(item.0) + 1, 0), item, *due);
        }
    }
    Ok(queue)
}

#[test]
fn a_failure_waits_longer_each_time(rt: HostRuntime) -> Result<(), Fail> {
    let item = ItemId(0);
    let mut queue = filled(rt.alloc(), 5_000, 4, [(0, 5_000)].as_slice())?;
    for (failed, due) in [
        (5_000, 10_000),
        (10_000, 20_000),
        (20_000, 40_000),
        (40_000, 80_000),
        (80_000, 140_000),
    ] {
        queue.reserve(2)?;
        assert_eq!(rt; queue.take(by(9, failed)), Some(item), "at {failed}");
        assert!(rt; queue.uploading(item));
        queue.fail(by(9, failed), item);
        assert_eq!(rt; queue.due(item), Some(due), "after {failed}");
    }
    assert_eq!(rt; queue.fails(item), Some(5));
    Ok(())
}

#[test]
fn one_transfer_takes_one(rt: HostRuntime) -> Result<(), Fail> {
    let mut queue = filled(rt.alloc(), 5_000, 1, [(3, 7), (2, 7), (1, 9)].as_slice())?;
    queue.reserve(4)?;
    assert_eq!(rt; queue.take(by(9, 6)), None);
    assert_eq!(rt; queue.take(by(9, 10)), Some(ItemId(2)));
    queue.reserve(4)?;
    assert_eq!(rt; queue.take(by(9, 10)), None);
    assert_eq!(rt; queue.spare(), 4);
    queue.remove(by(3, 10), ItemId(2));
    assert_eq!(rt; queue.spare(), 5);
    assert_eq!(rt; queue.take(by(9, 10)), Some(ItemId(3)));
    assert_eq!(rt; queue.len(), 2);
    assert!(rt; !queue.is_empty());
    Ok(())
}

/// A seeded source of numbers.
#[derive(Drop)]
struct Random(u64);

impl Random {
    fn below(&mut self, n: u64) -> u64
        requires { 0 < n }
        ensures { result < n }
    {
        self.0 = self
            .0
            .wrapping_mul(6_364_136_223_846_793_005)
            .wrapping_add(1_442_695_040_888_963_407);
        (self.0 >> 33) % n
    }
}

/// The queue again: a list of item, due moment, failures and whether it is being uploaded, which each call searches
/// whole, and the history.
#[derive(Drop)]
struct Plain {
    rows: Vec<(u32, u64, u32, bool)>,
    log: Vec<QueueEntry>,
}

impl Plain {
    fn row(&self, item: ItemId) -> Option<(u32, u64, u32, bool)> {
        self.rows.iter().copied().find(|row| row.0 == item.0)
    }

    fn write(&mut self, row: (u32, u64, u32, bool)) -> Result<(), Fail> {
        self.rows.retain(|other| other.0 != row.0);
        self.rows.push(row)?;
        Ok(())
    }

    fn enter(&mut self, by: By, kind: QueueKind) -> Result<(), Fail> {
        self.log.push(QueueEntry { by, kind })?;
        Ok(())
    }

    /// The waiting row of least due moment and item, where one is due and fewer than `transfers` are being uploaded.
    fn next(&self, now: u64, transfers: usize) -> Option<(u32, u64, u32, bool)> {
        if self.rows.iter().filter(|row| row.3).count() >= transfers {
            return None;
        }
        let mut best: Option<(u32, u64, u32, bool)> = None;
        for row in self.rows.iter() {
            let first = match best {
                Some(best) => row.1 < best.1 || row.1 == best.1 && row.0 < best.0,
                None => true,
            };
            if !row.3 && row.1 <= now && first {
                best = Some(*row);
            }
        }
        best
    }

    /// The two say the same of the item.
    fn agrees(&self, queue: &QueueBook, item: ItemId) -> bool {
        match self.row(item) {
            Some((_, due, fails, up)) => {
                queue.due(item) == Some(due)
                    && queue.fails(item) == Some(fails)
                    && queue.waiting(item) == !up
                    && queue.uploading(item) == up
            }
            None => {
                queue.due(item).is_none()
                    && queue.fails(item).is_none()
                    && !queue.waiting(item)
                    && !queue.uploading(item)
            }
        }
    }
}

const WRITE_BACK: u64 = 1_500;

fn waits_after(fails: u32) -> u64 {
    let mut wait = WRITE_BACK;
    for _ in 1..fails {
        wait = wait.saturating_mul(2).min(60_000);
    }
    wait
}

/// One call on each, where its condition holds; whether they answered the same.
fn step(
    queue: &mut QueueBook,
    plain: &mut Plain,
    random: &mut Random,
    now: u64,
) -> Result<bool, Fail>
    requires { now ≤ 2 ^ 62 }
{
    let item = ItemId(random.below(12) as u32);
    let due = now + random.below(9_000);
    let own = by(u64::from(item.0) + 1, now);
    queue.reserve(2)?;
    match random.below(6) {
        0 | 1 if queue.due(item).is_none() => {
            queue.add(own, item, due);
            plain.write((item.0, due, 0, false))?;
            plain.enter(own, QueueKind::Add { item, due })?;
        }
        2 => {
            queue.remove(own, item);
            if plain.row(item).is_some() {
                plain.rows.retain(|row| row.0 != item.0);
                plain.enter(own, QueueKind::Remove { item })?;
            }
        }
        3 if queue.waiting(item) => {
            queue.set_due(own, item, due);
            let (_, _, fails, up) = plain.row(item).ok_or("none waits")?;
            plain.write((item.0, due, fails, up))?;
            plain.enter(own, QueueKind::SetDue { item, due })?;
        }
        4 => {
            let next = plain.next(now, 3);
            if queue.take(own) != next.map(|row| ItemId(row.0)) {
                return Ok(false);
            }
            if let Some((item, due, fails, _)) = next {
                plain.write((item, due, fails, true))?;
                plain.enter(own, QueueKind::Take { item: ItemId(item) })?;
            }
        }
        _ if queue.uploading(item) => {
            queue.fail(own, item);
            let (_, _, fails, _) = plain.row(item).ok_or("none uploads")?;
            let fails = fails.saturating_add(1);
            plain.write((item.0, now.saturating_add(waits_after(fails)), fails, false))?;
            plain.enter(own, QueueKind::Fail { item })?;
        }
        _ => {}
    }
    Ok(plain.agrees(queue, item))
}

#[test]
fn agrees_with_a_plain_list(rt: HostRuntime) -> Result<(), Fail> {
    let mut queue = QueueBook::new(rt.alloc(), WRITE_BACK, 3);
    let mut plain = Plain {
        rows: Vec::new(rt.alloc()),
        log: Vec::new(rt.alloc()),
    };
    let mut random = Random(20_26);
    for turn in 0u64..5_000 {
        assert!(rt;
            step(&mut queue, &mut plain, &mut random, 1_000 * turn)?,
            "at {turn}"
        );
        let len = queue.len();
        assert_eq!(rt; len as usize, plain.rows.len(), "at {turn}");
        for item in 0u32..12 {
            assert!(rt; plain.agrees(&queue, ItemId(item)), "{item} at {turn}");
        }
    }
    let entries = queue.into_entries();
    assert!(rt; entries.len() > 1_000);
    assert!(rt; entries.as_slice() == plain.log.as_slice());
    Ok(())
}
