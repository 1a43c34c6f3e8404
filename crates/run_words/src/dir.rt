ghost use Rattle.std.specs.Prelude.{◌↔◌, IsTrue};
ghost use Rattle.run_words.specs.Words.{IsDir};

/// The word names a directory.
pub(crate) fn is_dir(word: &[u8]) -> bool
    ensures { IsTrue result ↔ IsDir word.now }
{
    !word.is_empty() && word.len() <= 1024 && !word.contains(&0) && !word.starts_with(b"-")
}
