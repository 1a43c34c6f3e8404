// The intent of metadata: a write whose bytes may not stand in the file yet.
ghost use Rattle.std.specs.Prelude.{◌≡◌, ◌≢◌, ◌↔◌, ℕ, List, Some, IfOk, IfSome, IfNone, IsTrue, length};
ghost use Rattle.hex.specs.Hex.{encode_lower, IsBytes};
ghost use Rattle.serde_json.specs.View.{view};
ghost use Rattle.item_meta.specs.InRange.{IsIntent};
ghost use Rattle.item_meta.specs.Object.{IsWriteIn};
ghost use Rattle.item_meta.specs.Rows.{IsIntentRow};
ghost use Rattle.item_meta.specs.Value.{IsRead};
ghost use Rattle.item_meta.specs.declared.meta.Intent.{Intent as TheIntent};

use crate::object::{has_only, number_at, text_at};
use crate::{Field, Intent, MetaError};
use byte_ranges::{RangeSet, Span};
use hex::FromHexError;
use serde_json::Value;
use std::alloc::Global;
use vfs_names::{Blob, NoMemory};

/// The most bytes of one intent.
const MAX_BYTES: u64 = 131_072;

pub(crate) fn intent_of(
    alloc: Global,
    value: &Value,
    size: u64,
    ranges: &RangeSet,
    dirty: bool,
) -> Result<Option<Intent>, MetaError>
    ensures { IsRead Field.Intent
        (IsIntentRow (Some (view value.now)) size ranges.now dirty) result }
{
    let Some(found) = value.get("intent") else {
        return Err(MetaError::BadMeta(Field::Intent));
    };
    if found.is_null() {
        return Ok(None);
    }
    let Ok(write) = write_of(alloc, found) else {
        return Err(MetaError::NoMemory);
    };
    let Some(intent) = write else {
        return Err(MetaError::BadMeta(Field::Intent));
    };
    if !is_intent(&intent, size, ranges, dirty) {
        return Err(MetaError::BadMeta(Field::Intent));
    }
    Ok(Some(intent))
}

/// The write that the object tells, or None where it tells none.
fn write_of(alloc: Global, value: &Value) -> Result<Option<Intent>, NoMemory>
    ensures found { IfOk result (λ found. IfSome found (IsWriteIn (Some (view value.now)))) }
    ensures none { IfOk result (λ found. IfNone found
        ((intent : TheIntent) → ¬ IsWriteIn (Some (view value.now)) intent)) }
{
    if !has_only(value, &["bytes", "pos"]) {
        return Ok(None);
    }
    let Some(pos) = number_at(value, "pos") else {
        return Ok(None);
    };
    let Some(digits) = text_at(value, "bytes") else {
        return Ok(None);
    };
    let Ok(found) = bytes_of(alloc, digits) else {
        return Err(NoMemory);
    };
    match found {
        Some(bytes) => Ok(Some(Intent { pos, bytes })),
        None => Ok(None),
    }
}

/// The bytes that the small hexadecimal digits spell, or None where they spell none.
fn bytes_of(alloc: Global, digits: &str) -> Result<Option<Blob>, NoMemory>
    ensures found { IfOk result (λ r. IfSome r
        (λ bytes. IsBytes bytes × (digits.now ≡ encode_lower bytes))) }
    ensures none { IfOk result (λ r. IfNone r
        ((bytes : List ℕ) → IsBytes bytes → digits.now ≢ encode_lower bytes)) }
{
    let bytes = match hex::decode(alloc, digits) {
        Ok(bytes) => bytes,
        Err(error) => {
            return match error {
                FromHexError::OutOfMemory => Err(NoMemory),
                _ => Ok(None),
            };
        }
    };
    let spelled = hex::encode(alloc, bytes.as_slice())?;
    if spelled.as_str() == digits {
        Ok(Some(Blob::from_vec(bytes)))
    } else {
        Ok(None)
    }
}

/// Whether the intent has bytes, within the file and present, and the file is dirty.
fn is_intent(intent: &Intent, size: u64, ranges: &RangeSet, dirty: bool) -> bool
    ensures { IsTrue result ↔ IsIntent size ranges.now dirty intent.now }
{
    let len = intent.bytes.as_slice().len() as u64;
    if !dirty || len == 0 || len > MAX_BYTES || len > size || intent.pos > size - len {
        return false;
    }
    ranges.covers(Span {
        start: intent.pos,
        end: intent.pos + len,
    })
}
