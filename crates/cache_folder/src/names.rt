ghost use Rattle.std.specs.Prelude.{◌≡◌, ◌≢◌, ℕ, ◌<◌, ◌^◌, ◌++◌, ◌∷◌, codes, decimal, IfNone, IfOk, IfSome, string_bytes};
ghost use Rattle.cache_folder.specs.Names.{ending, name_of, path_of};
ghost use Rattle.cache_folder.specs.declared.names.Part.TheVariants.{Meta};

use itoa::Buffer;
use std::alloc::{AllocError, Global};

/// Which of a slot's files.
#[derive(Clone, Copy, Debug, PartialEq, Eq)]
pub enum Part {
    /// The text of the metadata.
    Meta,
    /// The text that is about to take the place of the metadata.
    NewMeta,
    Data,
}

impl Part {
    fn ending(self) -> &'static str
        ensures { result.now ≡ ending self }
    {
        match self {
            Part::Meta => ".meta",
            Part::NewMeta => ".meta.new",
            Part::Data => ".data",
        }
    }
}

/// The path of a slot's file.
pub fn slot_path(alloc: Global, folder: &str, slot: u32, part: Part) -> Result<String, AllocError>
    ensures { IfOk result (λ path. string_bytes path ≡ path_of folder.now slot part) }
{
    let mut number = Buffer::new();
    let mut path = String::from_str(alloc, folder)?;
    path.push('/')?;
    path.push_str(number.format(slot))?;
    path.push_str(part.ending())?;
    Ok(path)
}

/// The path of the file whose lock says that the folder is in use.
pub fn lock_path(alloc: Global, folder: &str) -> Result<String, AllocError>
    ensures { IfOk result (λ path. string_bytes path ≡ folder.now ++ codes "/lock") }
{
    let mut path = String::from_str(alloc, folder)?;
    path.push_str("/lock")?;
    Ok(path)
}

/// The number below 2^32 that the word is, in digits without a leading zero.
fn number_of(word: &str) -> Option<u32>
    ensures found { IfSome result (λ n. (n < 2 ^ 32) × (word.now ≡ decimal n)) }
    ensures none { IfNone result ((n : ℕ) → n < 2 ^ 32 → word.now ≢ decimal n) }
{
    let Ok(n) = word.parse::<u32>() else {
        return None;
    };
    let mut buffer = Buffer::new();
    if buffer.format(n) == word {
        Some(n)
    } else {
        None
    }
}

/// The slot whose metadata has this name; None where the name is that of another file.
pub fn slot_of_name(name: &str) -> Option<u32>
    ensures found { IfSome result (λ slot. (slot < 2 ^ 32) × (name.now ≡ name_of slot Meta)) }
    ensures none { IfNone result ((slot : ℕ) → slot < 2 ^ 32 → name.now ≢ name_of slot Meta) }
{
    match name.strip_suffix(".meta") {
        Some(number) => number_of(number),
        None => None,
    }
}
