// A state that holds a pass of another lock, which is locked while the first one is.
ghost use Rattle.std.specs.Prelude.{◌≡◌, ◌==◌, ℕ, [], ◌∷◌, ◌++◌, if◌then◌else◌, Some, IfSome};
ghost use Rattle.pass_lock.specs.Passes.{lock_id, lock_of, number_of, numbers_of, mine_of, made_by, terms_of, IsFree, IsPassOf, entries_of};
ghost use Rattle.pass_lock.specs.declared.name.LockName.{LockName};

use super::notes::{Note, Notes, add};
use crate::{LockName, Logged, Pass, PassLock};
use std::alloc::Global;
use std::sync::Wait;
use std::test::Fail;

// Its calls, each by the number of the pass that made it, and a pass of the notes.
#[derive(Drop)]
pub struct Desk {
    calls: Vec<u64>,
    notes: Pass<Notes>,
    ghost free: { IsFree notes },
    ghost number: { number_of notes ≡ 1 },
    ghost numbers: { numbers_of notes ≡ 1 ∷ [] },
    ghost made: { made_by notes ≡ 0 },
}

impl Logged for Desk {
    type Entry = u64;

    type Terms = LockName;

    ghost entries = { λ s. s.calls.items };

    ghost belongs = { λ e n. e == n };

    ghost terms = { λ s. record { id = lock_of s.notes } };

    fn count(&self) -> u64 {
        self.calls.len() as u64
    }
}

impl Desk {
    // Notes the word, and the call, where there is memory.
    fn note(&mut self, rt: &impl Wait, notes: &PassLock<Notes>, by: u64, word: u64) -> bool
        requires { lock_of self.old.notes ≡ lock_id notes.now }
        ensures lock { lock_of self.new.notes ≡ lock_of self.old.notes }
        ensures calls { self.new.calls.items ≡ self.old.calls.items ++ (if result then (by ∷ []) else []) }
    {
        if self.calls.reserve(1).is_err() || !add(rt, notes, &mut self.notes, word) {
            return false;
        }
        self.calls.push_reserved(by);
        true
    }
}

// The same, in the lock of the desk.
fn call(
    rt: &impl Wait,
    desk: &PassLock<Desk>,
    notes: &PassLock<Notes>,
    pass: &mut Pass<Desk>,
    word: u64,
) -> bool
    requires pass { IsPassOf (lock_id desk.now) (number_of pass.old) pass.old }
    requires terms { terms_of pass.old ≡ Some record { id = lock_id notes.now } }
    ensures pass { IsPassOf (lock_id desk.now) (number_of pass.old) pass.new }
    ensures terms { terms_of pass.new ≡ terms_of pass.old }
    ensures made { made_by pass.new ≡ made_by pass.old }
    ensures mine { mine_of (λ e n. e == n) pass.new (number_of pass.old)
        ≡ mine_of (λ e n. e == n) pass.old (number_of pass.old)
        ++ (if result then (number_of pass.old ∷ []) else []) }
{
    let by = pass.number();
    let mut held = desk.lock(rt, pass);
    let done = held.state().note(rt, notes, by, word);
    desk.unlock(held, pass);
    done
}

// Two calls under the desk's lock, each of which locks the notes. Then both are closed, the outer first.
fn two_calls(rt: &impl Wait, alloc: Global) -> Option<(Vec<u64>, Vec<Note>)>
    ensures { IfSome result (λ r. entries_of (λ e n. e == n) 0 r.0.items ≡ 0 ∷ 0 ∷ []) }
{
    let empty = Notes {
        notes: Vec::new(alloc),
    };
    let Ok((notes, mut first)) = PassLock::new(alloc, empty) else {
        return None;
    };
    let state = Desk {
        calls: Vec::new(alloc),
        notes: notes.split(&mut first),
    };
    let Ok((desk, mut pass)) = PassLock::new(alloc, state) else {
        return None;
    };
    if !call(rt, &desk, &notes, &mut pass, 7) || !call(rt, &desk, &notes, &mut pass, 8) {
        return None;
    }
    let Desk {
        calls,
        notes: second,
    } = desk.close(pass);
    notes.absorb(&mut first, second);
    Some((calls, notes.close(first).notes))
}

#[test]
fn a_lock_is_taken_inside_another(rt: HostRuntime) -> Result<(), Fail> {
    let (calls, notes) = two_calls(&rt, rt.alloc()).ok_or("no memory")?;
    assert_eq!(rt; calls.as_slice(), [0, 0].as_slice());
    let words = [Note { by: 1, word: 7 }, Note { by: 1, word: 8 }];
    assert_eq!(rt; notes.as_slice(), words.as_slice());
    Ok(())
}
