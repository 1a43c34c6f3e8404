ghost use Rattle.std.specs.Prelude.{◌≡◌, List, ℕ, IfOk, IfSome, IfNone};
ghost use Rattle.session_script.specs.Words.{IsPathWord};

use crate::escape::unescape;
use std::alloc::Global;
use vfs_names::{NameError, NoMemory, VPath};

/// The path that the word spells.
pub(crate) fn path_of(alloc: Global, word: &[u8]) -> Result<Option<VPath>, NoMemory>
    ensures found { IfOk result (λ r. IfSome r (λ path. IsPathWord word.now path)) }
    ensures none { IfOk result (λ r. IfNone r ((path : List ℕ) → ¬ (IsPathWord word.now path))) }
{
    if word == b"/".as_slice() {
        return Ok(Some(VPath::root(alloc)));
    }
    if word.is_empty() {
        return Ok(None);
    }
    let Some(bytes) = unescape(alloc, word)? else {
        return Ok(None);
    };
    let Ok(text) = std::str::from_utf8(&bytes) else {
        return Ok(None);
    };
    match VPath::parse(alloc, text) {
        Ok(path) => Ok(Some(path)),
        Err(NameError::BadName) => Ok(None),
        Err(NameError::NoMemory) => Err(NoMemory),
    }
}
