ghost use base.Fml.{ftrue};
ghost use Rattle.atomic_table.specs.Seated.{TableId, table_id_coded};

use std::marker::Model;

/// Which lock it is, for the terms of a state that holds a pass of another lock. It has no bytes.
#[derive(Drop)]
pub struct LockName {
    pub ghost id: { TableId } by { table_id_coded },
}

impl Model for LockName {
    ghost also_owns = { λ _. ftrue };
}
