//! Laws of images: which calls leave an image that stands for a history, and what a restart finds.
ghost use Rattle.std.specs.Prelude.{◌≡◌, ◌≤◌, ℕ, Bool, true, false, Option, Some, List, ◌∷◌, length, ⊤};
ghost use Rattle.byte_ranges.specs.Ranges.{has};
ghost use Rattle.vfs_names.specs.declared.who.By.{By};
ghost use Rattle.vfs_outside.specs.Image.{Image, data_in, is_within, meta_in};
ghost use Rattle.vfs_outside.specs.Slot.{Slot, image_after};
ghost use Rattle.vfs_outside.specs.declared.file_call.FileCall.TheVariants.{Quiet, Saved, Wrote, Cleared};
ghost use Rattle.item_core.specs.declared.entry.Entry.{Entry};
ghost use Rattle.item_core.specs.Content.{Known, byte_at};
ghost use Rattle.item_core.specs.History.{is_kept, place};
ghost use Rattle.item_core.specs.Names.{names_at};
ghost use Rattle.item_meta.specs.declared.meta.Intent.{Intent as TheIntent};
ghost use Rattle.item_meta.specs.declared.meta.Meta.{Meta as TheMeta};
ghost use Rattle.item_image.specs.Book.{Book};
ghost use Rattle.item_image.specs.Facts.{facts_of};
ghost use Rattle.item_image.specs.Premise.{Fits, IsOfImage, Pairs};
ghost use Rattle.item_image.specs.Restart.{IsFound};
ghost use Rattle.item_image.specs.Stands.{Means, StandsFor, Tells};

/// A read, and a save or a clear that failed, leave an image of the same history.
pub fn a_quiet_call_changes_nothing()
    ensures { (known : Known) (saved : ℕ) (image : Image)
        (past : List Entry) (names : List (List ℕ))
        → StandsFor known saved image past names
        → StandsFor known saved (Quiet ∷ image) past names }
{}

/// So does a write, done or failed, of bytes that are all outside the saved ranges, or all in the
/// saved intent.
pub fn a_write_beside_the_ranges_or_in_the_intent_changes_nothing()
    ensures beside { (known : Known) (saved : ℕ) (image : Image)
        (past : List Entry) (names : List (List ℕ))
        (text : List ℕ) (meta : TheMeta) (pos : ℕ) (left : List ℕ)
        → StandsFor known saved image past names → meta_in image ≡ Some text → Means text meta
        → ((p : ℕ) → is_within pos (length left) p ≡ true → has meta.ranges p ≡ false)
        → StandsFor known saved (Wrote pos left ∷ image) past names }
    ensures intent { (known : Known) (saved : ℕ) (image : Image)
        (past : List Entry) (names : List (List ℕ))
        (text : List ℕ) (meta : TheMeta) (i : TheIntent) (pos : ℕ) (left : List ℕ)
        → StandsFor known saved image past names → meta_in image ≡ Some text → Means text meta
        → meta.intent ≡ Some i
        → ((p : ℕ) → is_within pos (length left) p ≡ true
        → is_within i.pos (length i.bytes) p ≡ true)
        → StandsFor known saved (Wrote pos left ∷ image) past names }
{}

/// A save of metadata that tell a kept file's facts and, with the data, its bytes leaves an image of
/// that file's history.
pub fn a_save_brings_the_history_that_it_tells()
    ensures { (known : Known) (saved : ℕ) (image : Image)
        (past : List Entry) (names : List (List ℕ))
        (text : List ℕ) (meta : TheMeta) → is_kept past ≡ true → Means text meta
        → Tells known (facts_of saved past names)
        (λ p. byte_at known past p) meta (λ p. data_in image p)
        → StandsFor known saved (Saved text ∷ image) past names }
{}

/// A clear leaves an image of every history of a file that isn't kept.
pub fn a_clear_brings_each_history_that_is_not_kept()
    ensures { (known : Known) (saved : ℕ) (image : Image)
        (past : List Entry) (names : List (List ℕ))
        (keep : Bool) → is_kept past ≡ false
        → StandsFor known saved (Cleared keep ∷ image) past names }
{}

/// The image after each number of calls on a book's file, which tells, stands for the part of its
/// history that was made by then.
pub fn each_image_stands_for_what_was_made_by_then()
    ensures { (past : List Entry) (names : List (List ℕ)) (saved : ℕ) (pairs : Pairs)
        (meta : Option TheMeta) (slot : Slot) → Book ⊤ ⊤ past names saved pairs meta slot
        → (known : Known) → Fits ⊤ known past pairs → IsOfImage known slot.told.first
        → (k : ℕ) → k ≤ slot.calls
        → StandsFor known saved (image_after slot.told k) (place past k) (names_at past k names) }
{}

/// What a restart finds in an image that stands for a history is that history's file: its path, its
/// size and the other facts, and each of its bytes.
pub fn a_restart_finds_the_file()
    ensures { (known : Known) (saved : ℕ) (image : Image)
        (past : List Entry) (names : List (List ℕ))
        (text : List ℕ) (meta : TheMeta) (by : By)
        → StandsFor known saved image past names → meta_in image ≡ Some text → Means text meta
        → IsFound known saved image past names meta by }
{}
