use crate::files::Files;
use std::marker::Model;
use std::snapshot::Snapshot;
use vfs_outside::{CacheFile, Object};

/// What one call found of the files, and what it left: two snapshots, which take no memory.
#[derive(Drop)]
pub struct Step<O: Object, F: CacheFile> {
    pub(crate) before: Snapshot<Files<O, F>>,
    pub(crate) after: Snapshot<Files<O, F>>,
}

impl<O: Object, F: CacheFile> Model for Step<O, F> {
    ghost use Rattle.one_session.specs.State as state;

    ghost Value = { state.Step };

    ghost view = { λ s. record {
      before = s.before.value.items;
      after = s.after.value.items;
    } };
}
