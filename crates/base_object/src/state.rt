ghost use Rattle.std.specs.Prelude.{◌≡◌};
ghost use Rattle.base_object.specs.Base.{held_by};

use vfs_names::{Fingerprint, Found};

/// Which object a kept file has behind it. The fingerprint is that of the object that the file
/// holds.
#[derive(Clone, Copy, Debug, PartialEq, Eq)]
pub enum BaseState {
    /// The file holds no object.
    Absent,
    /// The object is there.
    Bound(Fingerprint),
    /// The object wasn't opened yet.
    Unbound(Fingerprint),
    /// The object can't be had, since this was found in its place.
    Lost { held: Fingerprint, found: Found },
}

impl BaseState {
    /// The fingerprint of the object that the file holds.
    pub fn held(&self) -> Option<Fingerprint>
        ensures { result ≡ held_by self.now }
    {
        match *self {
            BaseState::Absent => None,
            BaseState::Bound(held) => Some(held),
            BaseState::Unbound(held) => Some(held),
            BaseState::Lost { held, found: _ } => Some(held),
        }
    }
}
