use crate::{RangeSet, Span, is_canonical};
use std::process::Abort;
use std::test::Fail;

#[derive(Clone, Copy)]
enum Step {
    Insert(u64, u64),
    Remove(u64, u64),
    Cut(u64),
}

// The plain set: whether each byte below its length is there.
fn put(plain: &mut [bool], start: u64, end: u64, here: bool) {
    for (p, byte) in plain.iter_mut().enumerate() {
        if start <= p as u64 && (p as u64) < end {
            *byte = here;
        }
    }
}

fn first(plain: &[bool], start: u64, end: u64, here: bool) -> Option<Span> {
    let mut run: Option<Span> = None;
    for (p, byte) in plain.iter().enumerate() {
        let p = p as u64;
        if start <= p && p < end && *byte == here {
            match run {
                None => run = Some(Span {
                    start: p,
                    end: p + 1,
                }),
                Some(found) if found.end == p => run = Some(Span {
                    start: found.start,
                    end: p + 1,
                }),
                Some(_) => {}
            }
        }
    }
    run
}

fn compare(rt: &impl Abort, set: &RangeSet, plain: &[bool]) {
    assert!(rt; is_canonical(set.spans()));
    assert_eq!(rt;
        set.count(),
        plain.iter().filter(|byte| **byte).count() as u64
    );
    for start in 0..9 {
        for end in start + 1..10 {
            let missing = first(plain, start, end, false);
            assert_eq!(rt;
                set.first_missing(Span { start, end }),
                missing,
                "{start}-{end}"
            );
            assert_eq!(rt;
                set.covers(Span { start, end }),
                missing.is_none(),
                "{start}-{end}"
            );
            assert_eq!(rt;
                set.first_present(Span { start, end }),
                first(plain, start, end, true)
            );
        }
    }
}

#[test]
fn runs_beside_a_plain_set(rt: HostRuntime) -> Result<(), Fail> {
    let mut set = RangeSet::new(rt.alloc());
    let mut plain = [false; 10];
    let steps = [
        Step::Insert(2, 4),
        Step::Insert(6, 7),
        Step::Remove(4, 6),
        Step::Insert(4, 5),
        Step::Insert(8, 9),
        Step::Remove(3, 4),
        Step::Insert(1, 8),
        Step::Remove(0, 1),
        Step::Remove(2, 5),
        Step::Remove(1, 9),
        Step::Insert(0, 3),
        Step::Insert(4, 6),
        Step::Insert(7, 9),
        Step::Remove(1, 8),
        Step::Insert(3, 4),
        Step::Insert(2, 7),
        Step::Cut(9),
        Step::Cut(5),
        Step::Cut(2),
        Step::Cut(1),
        Step::Cut(0),
    ];
    for step in steps {
        match step {
            Step::Insert(start, end) if start < end => {
                set.insert(Span { start, end })?;
                put(&mut plain, start, end, true);
            }
            Step::Remove(start, end) if start < end => {
                set.remove(Span { start, end })?;
                put(&mut plain, start, end, false);
            }
            Step::Cut(n) => {
                set.cut(n);
                put(&mut plain, n, 10, false);
            }
            _ => assert!(rt; false, "an empty span"),
        }
        compare(&rt, &set, &plain);
    }
    Ok(())
}

#[test]
fn joins_splits_and_cuts(rt: HostRuntime) -> Result<(), Fail> {
    let mut set = RangeSet::new(rt.alloc());
    set.insert(Span { start: 0, end: 5 })?;
    set.insert(Span { start: 5, end: 9 })?;
    assert_eq!(rt; set.spans(), [Span { start: 0, end: 9 }].as_slice());
    set.remove(Span { start: 3, end: 4 })?;
    let left = [Span { start: 0, end: 3 }, Span { start: 4, end: 9 }];
    assert_eq!(rt; set.spans(), left.as_slice());
    let gap = set.first_missing(Span { start: 0, end: 9 });
    assert_eq!(rt; gap, Some(Span { start: 3, end: 4 }));
    let copy = set.copy()?;
    set.cut(6);
    assert_eq!(rt;
        set.spans(),
        [Span { start: 0, end: 3 }, Span { start: 4, end: 6 }].as_slice()
    );
    assert_eq!(rt; set.count(), 5);
    assert_eq!(rt; copy.spans(), left.as_slice());
    Ok(())
}

#[test]
fn takes_a_list_that_is_in_order(rt: HostRuntime) -> Result<(), Fail> {
    let cases = [
        ((0, 3), (4, 9), true),
        ((0, 3), (3, 9), false),
        ((0, 5), (3, 9), false),
        ((4, 9), (0, 3), false),
        ((0, 3), (4, 4), false),
        ((0, u64::MAX), (u64::MAX, u64::MAX), false),
    ];
    for (a, b, wanted) in cases {
        let spans = [
            Span {
                start: a.0,
                end: a.1,
            },
            Span {
                start: b.0,
                end: b.1,
            },
        ];
        let list = Vec::from_slice(rt.alloc(), &spans)?;
        assert_eq!(rt; is_canonical(&list), wanted, "{a:?} {b:?}");
        if is_canonical(&list) {
            assert_eq!(rt; RangeSet::from_spans(list).spans(), spans.as_slice());
        }
    }
    Ok(())
}
