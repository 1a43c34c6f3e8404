// The rule of a lock's table.
ghost use Rattle.pass_lock.specs.Rule.{Kept, first_view};

use crate::logged::Logged;
use crate::view::View;
use atomic_table::TableRule;
use std::snapshot::Snapshot;

pub struct Law;

impl<S: Logged> TableRule<Option<S>, View<S::Entry, S::Terms>, Snapshot<S>> for Law {
    ghost holds = { λ _. Kept S.entries S.belongs S.terms };

    ghost first = { λ key. first_view S.entries S.belongs S.terms key.value };
}
