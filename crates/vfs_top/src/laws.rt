//! A law on the lines of a script. It holds whatever was done.
ghost use Rattle.std.specs.Prelude.{◌∷◌, ℕ, List, reverse, true};
ghost use Rattle.one_session.specs.State.{Step};
ghost use Rattle.one_session.specs.Steps.{Upload, queue_after};
ghost use Rattle.vfs_top.specs.Due.{HasUpload, IsDue};
ghost use Rattle.vfs_top.specs.Event.{AreTicked, Event, Ticked, deeds_of};

/// Each file that is due where a tick comes has an upload in it, if the tick comes to its end.
pub fn each_file_that_is_due_is_uploaded()
    ensures { (write_back n moment : ℕ) (uploads : List Upload) (older : List Event) (steps : List Step)
        → AreTicked write_back (Ticked n moment uploads true ∷ older) steps
        → (item : ℕ) → IsDue write_back (reverse (queue_after write_back (deeds_of older) steps)) item moment
        → HasUpload item uploads }
{}
