ghost use Rattle.std.specs.Prelude.{◌≡◌, Some, IfOk, OnOk, IsUtf8, string_bytes};
ghost use Rattle.hex.specs.Hex.{encode_lower, IsBytes};
ghost use Rattle.serde_json.specs.Data.{array};
ghost use Rattle.serde_json.specs.Read.{read};
ghost use Rattle.serde_json.specs.View.{view};
ghost use Rattle.item_meta.specs.Grammar.{IsTextOf};
ghost use Rattle.item_meta.specs.InRange.{IsMeta, FitsTypes, FitsBase, FitsIntent};
ghost use Rattle.item_meta.specs.Text.{meta_text};
ghost use Rattle.item_meta.specs.Value.{base_data, intent_data, spans_items, span_data, meta_data};

use crate::{Intent, Meta};
use byte_ranges::Span;
use serde_json::{Value, json};
use std::alloc::{AllocError, Global};
use vfs_names::{Blob, Fingerprint, NoMemory};

/// The one text of these metadata, or `NoMemory`. Takes time and memory linear in the text.
pub fn write_meta(alloc: Global, meta: &Meta) -> Result<Blob, NoMemory>
    requires { IsMeta meta.now }
    ensures text { IfOk result (λ text. text ≡ meta_text meta.now) }
    ensures grammar { IfOk result (IsTextOf meta.now) }
{
    text_of(alloc, meta)
}

pub(crate) fn text_of(alloc: Global, meta: &Meta) -> Result<Blob, NoMemory>
    ensures text { IfOk result (λ text. text ≡ meta_text meta.now) }
    ensures utf8 { IfOk result IsUtf8 }
    ensures reads { IfOk result (λ text. read text ≡ Some (meta_data meta.now)) }
    ensures fits { OnOk result (FitsTypes meta.now) }
{
    let Ok(value) = meta_value(alloc, meta) else {
        return Err(NoMemory);
    };
    match value.to_vec(alloc) {
        Ok(text) => Ok(Blob::from_vec(text)),
        Err(_) => Err(NoMemory),
    }
}

fn meta_value(alloc: Global, meta: &Meta) -> Result<Value, AllocError>
    ensures value { IfOk result (λ value. view value ≡ meta_data meta.now) }
    ensures fits { OnOk result (FitsTypes meta.now) }
{
    let base = base_value(alloc, meta.base)?;
    let intent = intent_value(alloc, &meta.intent)?;
    let ranges = ranges_value(alloc, meta.ranges.spans())?;
    json!(in alloc; {
        "atime": meta.atime,
        "base": base,
        "base_end": meta.base_end,
        "dirty": meta.dirty,
        "intent": intent,
        "mtime": meta.mtime,
        "path": meta.path.as_str(),
        "ranges": ranges,
        "size": meta.size,
        "v": 1u64
    })
}

fn base_value(alloc: Global, base: Option<Fingerprint>) -> Result<Value, AllocError>
    ensures value { IfOk result (λ value. view value ≡ base_data base) }
    ensures fits { OnOk result (FitsBase base) }
{
    match base {
        None => Ok(Value::Null),
        Some(print) => {
            json!(in alloc; {"mtime": print.mtime, "rev": print.rev, "size": print.size})
        }
    }
}

fn intent_value(alloc: Global, intent: &Option<Intent>) -> Result<Value, AllocError>
    ensures value { IfOk result (λ value. view value ≡ intent_data intent.now) }
    ensures fits { OnOk result (FitsIntent intent.now) }
{
    match intent {
        None => Ok(Value::Null),
        Some(intent) => {
            let bytes = digits_of(alloc, intent.bytes.as_slice())?;
            json!(in alloc; {"bytes": bytes, "pos": intent.pos})
        }
    }
}

/// The bytes in small hexadecimal digits.
fn digits_of(alloc: Global, bytes: &[u8]) -> Result<String, AllocError>
    ensures text { IfOk result (λ text. string_bytes text ≡ encode_lower bytes.now) }
    ensures fits { IsBytes bytes.now }
{
    hex::encode(alloc, bytes)
}

fn ranges_value(alloc: Global, spans: &[Span]) -> Result<Value, AllocError>
    ensures { IfOk result (λ value. view value ≡ array (spans_items spans.now)) }
{
    let mut list = Vec::new(alloc);
    for span in spans {
        let pair = span_value(alloc, *span)?;
        serde_json::push(&mut list, pair)?;
    }
    Ok(Value::Array(list))
}

fn span_value(alloc: Global, span: Span) -> Result<Value, AllocError>
    ensures { IfOk result (λ value. view value ≡ span_data span) }
{
    json!(in alloc; [span.start, span.end])
}
