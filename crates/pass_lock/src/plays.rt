// What each step on a lock's table tells, and how passes are cut and joined.
ghost use Rattle.std.specs.Prelude.{ℕ};
ghost use Rattle.pass_lock.specs.Rule.{took, raised, released, looked, merged, counted_up, fresh, left_without, only, note, beside, spent};

use crate::logged::Logged;
use crate::view::View;
use atomic_table::{Join, Play, Split};
use std::marker::{Brand, PhantomData};

// Word 0 goes from 0 to 1, and the state leaves its slot.
pub struct Take;

impl<S: Logged> Play<Option<S>, View<S::Entry, S::Terms>> for Take {
    ghost then = { took S.entries S.belongs S.terms };
}

// Word 1 becomes the length of the list that goes home.
pub struct Raise;

impl<S: Logged> Play<Option<S>, View<S::Entry, S::Terms>> for Raise {
    ghost then = { raised S.entries };
}

// Word 0 goes back to 0, and the state to its slot.
pub struct Release;

impl<S: Logged> Play<Option<S>, View<S::Entry, S::Terms>> for Release {
    ghost then = { released };
}

pub struct Look;

impl<S: Logged> Play<Option<S>, View<S::Entry, S::Terms>> for Look {
    ghost then = { looked S.belongs };
}

pub struct Merge;

impl<S: Logged> Play<Option<S>, View<S::Entry, S::Terms>> for Merge {
    ghost then = { merged S.belongs };
}

// A new number is cut off.
pub struct Fresh;

impl<E, T> Split<View<E, T>> for Fresh {
    ghost left = { counted_up };

    ghost right = { fresh };
}

// Which number is cut off. Each call picks it.
pub trait Chosen {
    ghost number: { ℕ };
}

impl Chosen for Brand {
    ghost number = { 0 };
}

pub struct Out<J: Chosen>(PhantomData<J>);

impl<E, T, J: Chosen> Split<View<E, T>> for Out<J> {
    ghost left = { left_without J.number };

    ghost right = { only J.number };
}

// What was seen, with no number.
pub struct Note;

impl<E, T> Split<View<E, T>> for Note {
    ghost left = { λ v. v };

    ghost right = { note };
}

pub struct Both;

impl<E, T> Join<View<E, T>> for Both {
    ghost both = { beside };

    ghost spent = { spent };
}
