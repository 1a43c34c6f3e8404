ghost use Rattle.std.specs.Prelude.{◌≡◌, ◌≢◌, ℕ, ◌<◌, ◌^◌, IfNone, IfOk, IfSome, decimal, string_bytes};
ghost use Rattle.vfs_outside.specs.RowName.{IsRowName};
ghost use Rattle.remote_folder.specs.Names.{stage_name, stage_path};

use itoa::Buffer;
use std::alloc::{AllocError, Global};

/// The path of a stage's file, whose name no row of a listing has.
pub fn stage_path(alloc: Global, folder: &str, number: u64) -> Result<String, AllocError>
    ensures path { IfOk result (λ path. string_bytes path ≡ stage_path folder.now number) }
    ensures hidden { IfOk result (λ path. ¬ (IsRowName (stage_name number))) }
{
    let mut buffer = Buffer::new();
    let mut path = String::from_str(alloc, folder)?;
    path.push('/')?;
    path.push_str(".vfs-stage-")?;
    path.push_str(buffer.format(number))?;
    Ok(path)
}

/// The number below 2^64 that the word is, in digits without a leading zero.
fn number_of(word: &str) -> Option<u64>
    ensures found { IfSome result (λ n. (n < 2 ^ 64) × (word.now ≡ decimal n)) }
    ensures none { IfNone result ((n : ℕ) → n < 2 ^ 64 → word.now ≢ decimal n) }
{
    let Ok(n) = word.parse::<u64>() else {
        return None;
    };
    let mut buffer = Buffer::new();
    if buffer.format(n) == word {
        Some(n)
    } else {
        None
    }
}

/// The number of the stage whose file has this name; None where the name is that of another file.
pub fn stage_of_name(name: &str) -> Option<u64>
    ensures found { IfSome result (λ number. (number < 2 ^ 64) × (name.now ≡ stage_name number)) }
    ensures none { IfNone result ((number : ℕ) → number < 2 ^ 64 → name.now ≢ stage_name number) }
{
    match name.strip_prefix(".vfs-stage-") {
        Some(number) => number_of(number),
        None => None,
    }
}
