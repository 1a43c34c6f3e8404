// Locks round a state that is generic, in a `Vec`.
ghost use Rattle.std.specs.Prelude.{◌≡◌, ◌==◌, ℕ, ◌<◌, [], ◌∷◌, ◌++◌, length, if◌then◌else◌, slice_index_or};
ghost use Rattle.pass_lock.specs.Passes.{lock_id, number_of, mine_of, IsPassOf};

use crate::{Logged, Pass, PassLock};
use std::alloc::Global;
use std::sync::Wait;
use std::test::Fail;

pub trait File: Drop {
    type Name;

    ghost name: { Self → Self.Name };

    fn touch(&mut self)
        ensures { name self.new ≡ name self.old };
}

// A file, beside the numbers of those that touched it. Its name stays.
#[derive(Drop)]
pub struct Kept<F: File> {
    file: F,
    touches: Vec<u64>,
}

impl<F: File> Logged for Kept<F> {
    type Entry = u64;

    type Terms = F::Name;

    ghost entries = { λ s. s.touches.items };

    ghost belongs = { λ e n. e == n };

    ghost terms = { λ s. F.name s.file };

    fn count(&self) -> u64 {
        self.touches.len() as u64
    }
}

impl<F: File> Kept<F> {
    fn touch(&mut self, by: u64) -> bool
        ensures name { F.name self.new.file ≡ F.name self.old.file }
        ensures touches { self.new.touches.items ≡ self.old.touches.items ++ (if result then (by ∷ []) else []) }
    {
        if self.touches.push(by).is_err() {
            return false;
        }
        self.file.touch();
        true
    }
}

// Touches the file at k by a pass of its lock, where there is memory.
fn touch_at<F: File>(
    rt: &impl Wait,
    locks: &[PassLock<Kept<F>>],
    k: usize,
    pass: &mut Pass<Kept<F>>,
) -> bool
    requires inside { k < length locks.now }
    requires pass { (l : _) → IsPassOf (lock_id (slice_index_or locks.now k l)) (number_of pass.old) pass.old }
    ensures pass { (l : _) → IsPassOf (lock_id (slice_index_or locks.now k l)) (number_of pass.old) pass.new }
    ensures mine { mine_of (λ e n. e == n) pass.new (number_of pass.old)
        ≡ mine_of (λ e n. e == n) pass.old (number_of pass.old)
        ++ (if result then (number_of pass.old ∷ []) else []) }
{
    let lock = &locks[k];
    let by = pass.number();
    let mut held = lock.lock(rt, pass);
    let done = held.state().touch(by);
    lock.unlock(held, pass);
    done
}

// A file that counts how often it was touched.
#[derive(Drop)]
struct Counted {
    name: u64,
    touched: u64,
}

impl File for Counted {
    type Name = u64;

    ghost name = { λ f. f.name };

    fn touch(&mut self) {
        self.touched = self.touched.wrapping_add(1);
    }
}

#[test]
fn a_generic_state_lies_in_a_vec_of_locks(rt: HostRuntime) -> Result<(), Fail> {
    let mut locks = Vec::new(rt.alloc());
    let file = Counted {
        name: 5,
        touched: 0,
    };
    let kept = Kept {
        file,
        touches: Vec::new(rt.alloc()),
    };
    let Ok((lock, mut pass)) = PassLock::new(rt.alloc(), kept) else {
        panic!(rt; "no memory")
    };
    locks.push(lock)?;
    assert!(rt; touch_at(&rt, locks.as_slice(), 0, &mut pass));
    assert!(rt; touch_at(&rt, locks.as_slice(), 0, &mut pass));
    let lock = &locks[0];
    let mut held = lock.lock(&rt, &mut pass);
    let state = held.state();
    assert_eq!(rt; (state.file.name, state.file.touched), (5, 2));
    assert_eq!(rt; state.touches.as_slice(), [0, 0].as_slice());
    lock.unlock(held, &mut pass);
    Ok(())
}
