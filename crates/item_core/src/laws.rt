//! Laws of legal histories. They hold whatever was stored.
ghost use Rattle.std.specs.Prelude.{◌≡◌, ℕ, true, false, List, ◌∷◌, ◌++◌, ◌<◌, ◌≤◌, length, slice_index};
ghost use Rattle.item_core.specs.declared.entry.Entry.{Entry};
ghost use Rattle.item_core.specs.declared.entry.FileKind.TheVariants as kinds;
ghost use Rattle.item_core.specs.History.{is_dirty, is_kept, opens_of, size_of};
ghost use Rattle.item_core.specs.Content.{Known, byte_at, IsFitting, IsSavedWhole};
ghost use Rattle.item_core.specs.Legal.{IsLegal};
ghost use Rattle.item_core.specs.Laws.{IsWhole, ends_dirt, is_quiet};
ghost use Rattle.vfs_names.specs.declared.fingerprint.Fingerprint.{Fingerprint};

/// Between the start of an upload and its end no version began and nothing ended the content: what was uploaded is
/// the content that stood as the upload began.
pub fn an_upload_is_of_its_start()
    ensures whole { (mid older : List Entry) (start end : Entry) (version : ℕ) (print : Fingerprint)
        → start.kind ≡ kinds.UploadStart version → end.kind ≡ kinds.Uploaded (length older) print
        → IsLegal (end ∷ (mid ++ start ∷ older)) → IsWhole mid start older }
    ensures content { (known : Known) (mid older : List Entry) (start end : Entry) (version : ℕ) (print : Fingerprint)
        → start.kind ≡ kinds.UploadStart version → end.kind ≡ kinds.Uploaded (length older) print
        → IsLegal (end ∷ (mid ++ start ∷ older)) → IsSavedWhole known (end ∷ (mid ++ start ∷ older))
        → (p : ℕ) → p < size_of older → slice_index (known.content print) p ≡ byte_at known older p }
{}

/// Dirty data ends only by an upload or a discard.
pub fn dirt_ends_by_upload_or_discard()
    ensures { (past : List Entry) (e : Entry) → IsLegal (e ∷ past) → is_dirty past ≡ true
        → is_dirty (e ∷ past) ≡ false → ends_dirt e.kind ≡ true }
{}

/// A read, a stat, an open, a close and the like change no byte and no size.
pub fn quiet_entries_change_nothing()
    ensures size { (past : List Entry) (e : Entry) → is_quiet e.kind ≡ true → size_of (e ∷ past) ≡ size_of past }
    ensures bytes { (known : Known) (past : List Entry) (e : Entry) (p : ℕ) → is_quiet e.kind ≡ true
        → byte_at known (e ∷ past) p ≡ byte_at known past p }
{}

/// At and past the size every byte is 0, so that a growth shows zeros, whatever a cut took away.
pub fn a_growth_shows_zeros()
    ensures { (known : Known) (past : List Entry) (p : ℕ) → IsLegal past → IsFitting known past
        → size_of past ≤ p → byte_at known past p ≡ 0 }
{}

/// What is dirty or open is in the cache.
pub fn changed_files_are_kept()
    ensures dirty { (past : List Entry) → IsLegal past → is_dirty past ≡ true → is_kept past ≡ true }
    ensures open { (past : List Entry) → IsLegal past → 0 < opens_of past → is_kept past ≡ true }
{}
