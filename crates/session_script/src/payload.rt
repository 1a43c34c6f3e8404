ghost use Rattle.std.specs.Prelude.{◌≡◌, ◌≢◌, ℕ, ◌<◌, ◌≤◌, ◌^◌, List, IfOk, IfSome, IfNone};
ghost use Rattle.std.specs.Str.{IsUtf8};
ghost use Rattle.hex.specs.Hex.{encode_lower, IsBytes};
ghost use Rattle.session_script.specs.Escape.{escape};
ghost use Rattle.session_script.specs.Words.{counted, IsPayloadWord};
ghost use Rattle.vfs_names.specs.declared.payload.Payload.{Payload};

use crate::escape::unescape;
use crate::number::number_of;
use crate::words::{behind, cut};
use hex::FromHexError;
use std::alloc::Global;
use vfs_names::{Blob, NoMemory, Payload};

/// The text that the letters spell.
fn text_of(alloc: Global, letters: &[u8]) -> Result<Option<Vec<u8>>, NoMemory>
    ensures found { IfOk result (λ r. IfSome r
        (λ v. IsUtf8 v.items × (letters.now ≡ escape v.items))) }
    ensures none { IfOk result (λ r. IfNone r
        ((bytes : List ℕ) → IsUtf8 bytes → letters.now ≢ escape bytes)) }
{
    let Some(bytes) = unescape(alloc, letters)? else {
        return Ok(None);
    };
    let Ok(_) = std::str::from_utf8(&bytes) else {
        return Ok(None);
    };
    Ok(Some(bytes))
}

/// The bytes that the digits spell, in lower case.
fn bytes_of(alloc: Global, digits: &[u8]) -> Result<Option<Vec<u8>>, NoMemory>
    ensures found { IfOk result (λ r. IfSome r
        (λ v. IsBytes v.items × (digits.now ≡ encode_lower v.items))) }
    ensures none { IfOk result (λ r. IfNone r
        ((bytes : List ℕ) → IsBytes bytes → digits.now ≢ encode_lower bytes)) }
{
    let bytes = match hex::decode(alloc, digits) {
        Ok(bytes) => bytes,
        Err(error) => {
            return match error {
                FromHexError::OutOfMemory => Err(NoMemory),
                _ => Ok(None),
            };
        }
    };
    let spelled = hex::encode(alloc, bytes.as_slice())?;
    if spelled.as_bytes() == digits {
        Ok(Some(bytes))
    } else {
        Ok(None)
    }
}

/// A number of at most `most`, and a length after a colon.
fn counted(text: &[u8], most: u8) -> Option<(u8, u64)>
    ensures found { IfSome result (λ r. (r.0 ≤ most) × (r.1 < 2 ^ 64)
        × (text.now ≡ counted r.0 r.1)) }
    ensures none { IfNone result ((byte len : ℕ) → byte ≤ most → len < 2 ^ 64
        → text.now ≢ counted byte len) }
{
    let (byte, rest) = cut(text, b':');
    let Some(len) = rest else {
        return None;
    };
    let Some(byte) = number_of(byte) else {
        return None;
    };
    let Some(len) = number_of(len) else {
        return None;
    };
    if byte <= u64::from(most) {
        Some((byte as u8, len))
    } else {
        None
    }
}

/// The payload that the word spells.
pub(crate) fn payload_of(alloc: Global, word: &[u8]) -> Result<Option<Payload>, NoMemory>
    ensures found { IfOk result (λ r. IfSome r (λ payload. IsPayloadWord word.now payload)) }
    ensures none { IfOk result (λ r. IfNone r
        ((payload : Payload) → ¬ (IsPayloadWord word.now payload))) }
{
    if let Some(letters) = behind(word, b"text:") {
        let Some(bytes) = text_of(alloc, letters)? else {
            return Ok(None);
        };
        return Ok(Some(Payload::Bytes(Blob::from_vec(bytes))));
    }
    if let Some(digits) = behind(word, b"hex:") {
        let Some(bytes) = bytes_of(alloc, digits)? else {
            return Ok(None);
        };
        return Ok(Some(Payload::Bytes(Blob::from_vec(bytes))));
    }
    if let Some(rest) = behind(word, b"fill:") {
        let Some((byte, len)) = counted(rest, 255) else {
            return Ok(None);
        };
        return Ok(Some(Payload::Fill { byte, len }));
    }
    if let Some(rest) = behind(word, b"pat:") {
        let Some((seed, len)) = counted(rest, 250) else {
            return Ok(None);
        };
        return Ok(Some(Payload::Pattern { seed, len }));
    }
    Ok(None)
}
