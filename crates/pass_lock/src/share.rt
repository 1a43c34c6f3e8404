// How passes come from one another, hear of one another, and become one.
ghost use Rattle.std.specs.Prelude.{◌≡◌};

use crate::lock::PassLock;
use crate::logged::Logged;
use crate::pass::{Pass, PassOf};
use crate::plays::{Both, Chosen, Fresh, Look, Merge, Note, Out};
use std::marker::Brand;

impl<S: Logged + Drop> PassLock<S> {
    ghost use Rattle.std.specs.Prelude.{ℕ, ◌≢◌, ◌+◌, ◌<◌, ◌≤◌, ◌^◌, ◌==◌, if◌then◌else◌, max, [], ◌++◌};
    ghost use Rattle.pass_lock.specs.Lists.{Has, without, longer, StartsWith};
    ghost use Rattle.pass_lock.specs.Passes.{lock_id, lock_of, number_of, numbers_of, seen_by, mine_of, KeepsMine, made_by, terms_of, IsFree, IsSamePass, IsPassOf};

    /// A pass of a new number, which has seen as much. The pass whose own number is 0 makes it.
    pub fn split(&self, pass: &mut Pass<S>) -> Pass<S>
        requires own { lock_of pass.old ≡ lock_id self.now }
        requires free { IsFree pass.old }
        requires first { number_of pass.old ≡ 0 }
        requires room { made_by pass.old + 1 < 2 ^ 64 }
        ensures lock { lock_of pass.new ≡ lock_of pass.old }
        ensures free { IsFree pass.new }
        ensures number { number_of pass.new ≡ number_of pass.old }
        ensures numbers { numbers_of pass.new ≡ numbers_of pass.old }
        ensures terms { terms_of pass.new ≡ terms_of pass.old }
        ensures seen { seen_by pass.new ≡ seen_by pass.old }
        ensures made { made_by pass.new ≡ made_by pass.old + 1 }
        ensures new { IsPassOf (lock_of pass.old) (made_by pass.old) result }
        ensures new_seen { seen_by result ≡ seen_by pass.old }
        ensures new_mine { mine_of S.belongs result (number_of result) ≡ [] }
        ensures new_terms { terms_of result ≡ terms_of pass.old }
        ensures new_made { made_by result ≡ 0 }
    {
        let shared = &self.table.shared;
        shared.load::<Look>(&mut pass.seat, 1);
        let seat = shared.split_seat::<Fresh>(&mut pass.seat);
        let number = pass.made;
        pass.made += 1;
        PassOf {
            seat,
            number,
            made: 0,
        }
    }

    /// A number that the pass holds, but its own, goes to a pass that has seen as much.
    pub fn part(&self, pass: &mut Pass<S>, number: u64) -> Pass<S>
        requires own { lock_of pass.old ≡ lock_id self.now }
        requires free { IsFree pass.old }
        requires held { Has (numbers_of pass.old) number }
        requires other { number ≢ number_of pass.old }
        ensures lock { lock_of pass.new ≡ lock_of pass.old }
        ensures free { IsFree pass.new }
        ensures number { number_of pass.new ≡ number_of pass.old }
        ensures numbers { numbers_of pass.new ≡ without number (numbers_of pass.old) }
        ensures terms { terms_of pass.new ≡ terms_of pass.old }
        ensures made { made_by pass.new ≡ made_by pass.old }
        ensures seen { seen_by pass.new ≡ seen_by pass.old }
        ensures new { IsPassOf (lock_of pass.old) number result }
        ensures new_seen { seen_by result ≡ seen_by pass.old }
        ensures new_terms { terms_of result ≡ terms_of pass.old }
        ensures new_made { made_by result ≡ (if number == 0 then made_by pass.old else 0) }
    {
        self.part_at::<Brand>(pass, number)
    }

    fn part_at<J: Chosen>(&self, pass: &mut Pass<S>, number: u64) -> Pass<S>
        requires chosen { number ≡ J.number }
        requires own { lock_of pass.old ≡ lock_id self.now }
        requires free { IsFree pass.old }
        requires held { Has (numbers_of pass.old) number }
        requires other { number ≢ number_of pass.old }
        ensures lock { lock_of pass.new ≡ lock_of pass.old }
        ensures free { IsFree pass.new }
        ensures number { number_of pass.new ≡ number_of pass.old }
        ensures numbers { numbers_of pass.new ≡ without number (numbers_of pass.old) }
        ensures terms { terms_of pass.new ≡ terms_of pass.old }
        ensures made { made_by pass.new ≡ made_by pass.old }
        ensures seen { seen_by pass.new ≡ seen_by pass.old }
        ensures new { IsPassOf (lock_of pass.old) number result }
        ensures new_seen { seen_by result ≡ seen_by pass.old }
        ensures new_terms { terms_of result ≡ terms_of pass.old }
        ensures new_made { made_by result ≡ (if number == 0 then made_by pass.old else 0) }
    {
        let seat = self.table.shared.split_seat::<Out<J>>(&mut pass.seat);
        let made = if number == 0 { pass.made } else { 0 };
        PassOf { seat, number, made }
    }

    /// The second pass has seen what the first has.
    pub fn tell(&self, from: &mut Pass<S>, to: &mut Pass<S>)
        requires from_own { lock_of from.old ≡ lock_id self.now }
        requires from_free { IsFree from.old }
        requires own { lock_of to.old ≡ lock_id self.now }
        requires free { IsFree to.old }
        ensures from { IsSamePass from.old from.new }
        ensures from_free { IsFree from.new }
        ensures from_seen { seen_by from.new ≡ seen_by from.old }
        ensures to { IsSamePass to.old to.new }
        ensures to_free { IsFree to.new }
        ensures to_seen { seen_by to.new ≡ longer (seen_by to.old) (seen_by from.old) }
        ensures to_begins { StartsWith (seen_by to.new) (seen_by to.old) }
        ensures from_begins { StartsWith (seen_by to.new) (seen_by from.old) }
        ensures mine { KeepsMine S.belongs to.old to.new }
    {
        let shared = &self.table.shared;
        let note = shared.split_seat::<Note>(&mut from.seat);
        shared.join_seat::<Both>(&mut to.seat, note);
        shared.load::<Merge>(&mut to.seat, 1);
    }

    /// The pass takes in another, with its numbers and with what it has seen.
    pub fn absorb(&self, pass: &mut Pass<S>, other: Pass<S>)
        requires own { lock_of pass.old ≡ lock_id self.now }
        requires free { IsFree pass.old }
        requires other_own { lock_of other ≡ lock_id self.now }
        requires other_free { IsFree other }
        ensures lock { lock_of pass.new ≡ lock_of pass.old }
        ensures free { IsFree pass.new }
        ensures number { number_of pass.new ≡ number_of pass.old }
        ensures numbers { numbers_of pass.new ≡ numbers_of pass.old ++ numbers_of other }
        ensures terms { terms_of pass.new ≡ terms_of pass.old }
        ensures made { made_by pass.new ≡ max (made_by pass.old) (made_by other) }
        ensures seen { seen_by pass.new ≡ longer (seen_by pass.old) (seen_by other) }
        ensures begins { StartsWith (seen_by pass.new) (seen_by pass.old) }
        ensures other_begins { StartsWith (seen_by pass.new) (seen_by other) }
        ensures mine { KeepsMine S.belongs pass.old pass.new }
        ensures other_mine { KeepsMine S.belongs other pass.new }
    {
        let shared = &self.table.shared;
        let PassOf {
            seat,
            number: _,
            made,
        } = other;
        shared.join_seat::<Both>(&mut pass.seat, seat);
        shared.load::<Merge>(&mut pass.seat, 1);
        pass.made = pass.made.max(made);
    }

    /// The pass of number 0 learns that it has seen no entry of a number that was never made.
    pub fn audit(&self, pass: &mut Pass<S>)
        requires own { lock_of pass.old ≡ lock_id self.now }
        requires free { IsFree pass.old }
        requires first { number_of pass.old ≡ 0 }
        ensures pass { IsSamePass pass.old pass.new }
        ensures free { IsFree pass.new }
        ensures seen { seen_by pass.new ≡ seen_by pass.old }
        ensures unmade { (n : ℕ) → made_by pass.new ≤ n → mine_of S.belongs pass.new n ≡ [] }
    {
        self.table.shared.load::<Look>(&mut pass.seat, 1);
    }
}
