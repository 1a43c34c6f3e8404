ghost use Rattle.std.specs.Prelude.{◌≡◌, ℕ, List, Some, None, Err, IfOk, IfErr, IsErrAnd, ◌⊎◌, IsTrue, ◌↔◌, codes};
ghost use Rattle.serde_json.specs.Read.{read};
ghost use Rattle.serde_json.specs.View.{view};
ghost use Rattle.item_meta.specs.declared.field.Field.{Field as TheField};
ghost use Rattle.item_meta.specs.declared.meta.Meta.{Meta as TheMeta};
ghost use Rattle.item_meta.specs.Grammar.{IsTextOf};
ghost use Rattle.item_meta.specs.Object.{number_in, value_at};
ghost use Rattle.item_meta.specs.Rows.{IsFirstWrong, IsShapeRow};
ghost use Rattle.item_meta.specs.Value.{IsHead, IsReadFrom};

use crate::fields::{base_end_of, base_of, dirty_of, moment_of, path_of, ranges_of, size_of};
use crate::intent::intent_of;
use crate::object::{has_only, number_at};
use crate::write::text_of;
use crate::{Field, Meta, MetaError};
use serde_json::Value;
use std::alloc::Global;

/// The keys of metadata.
const KEYS: [&str; 10] = [
    "atime", "base", "base_end", "dirty", "intent", "mtime", "path", "ranges", "size", "v",
];

/// The metadata that the text is of, or the first of its fields that is wrong, or `NoMemory`. Of a key that comes twice
/// the last value counts. Takes time and memory linear in the text, and writes the text a second time to compare.
pub fn read_meta(alloc: Global, text: &[u8]) -> Result<Meta, MetaError>
    ensures ok { IfOk result (λ meta. IsTextOf meta text.now) }
    ensures one { IfOk result (λ meta. (other : TheMeta) → IsTextOf other text.now → other ≡ meta) }
    // A text of metadata is refused for memory alone.
    ensures exact { (meta : TheMeta) → IsTextOf meta text.now
        → IfErr result (λ error. error ≡ MetaError.NoMemory) }
    ensures bad { (field : TheField) → result ≡ Err (MetaError.BadMeta field)
        → IsFirstWrong text.now field }
    // A text with a wrong field is refused by the first, or for memory.
    ensures first { (field : TheField) → IsFirstWrong text.now field
        → IsErrAnd result
        (λ error. (error ≡ MetaError.BadMeta field) ⊎ (error ≡ MetaError.NoMemory)) }
{
    let value = match object_of(alloc, text) {
        Ok(value) => value,
        Err(error) => return Err(error),
    };
    let meta = match meta_of(alloc, &value) {
        Ok(meta) => meta,
        Err(error) => return Err(error),
    };
    let Ok(written) = text_of(alloc, &meta) else {
        return Err(MetaError::NoMemory);
    };
    if written.as_slice() != text {
        return Err(MetaError::BadMeta(Field::Spelling));
    }
    Ok(meta)
}

/// The object that the text is, with no foreign key and of the one version.
fn object_of(alloc: Global, text: &[u8]) -> Result<Value, MetaError>
    ensures reads { IfOk result (λ value. read text.now ≡ Some (view value)) }
    ensures head { IfOk result (λ value. IsHead text.now (Some (view value))) }
    ensures bad { (field : TheField) → result ≡ Err (MetaError.BadMeta field)
        → IsFirstWrong text.now field }
{
    let value = match parse(alloc, text) {
        Ok(value) => value,
        Err(error) => return Err(error),
    };
    if !has_only(&value, &KEYS) {
        return Err(MetaError::BadMeta(Field::Extra));
    }
    if !has_version(&value) {
        return Err(MetaError::BadMeta(Field::V));
    }
    Ok(value)
}

/// The object that the text is.
fn parse(alloc: Global, text: &[u8]) -> Result<Value, MetaError>
    ensures reads { IfOk result (λ value. read text.now ≡ Some (view value)) }
    ensures shape { IfOk result (λ value. IsShapeRow text.now (Some (view value))) }
    ensures bad { (field : TheField) → result ≡ Err (MetaError.BadMeta field)
        → (field ≡ Field.Shape) × ¬ IsShapeRow text.now (read text.now) }
{
    let value = match Value::from_slice(alloc, text) {
        Ok(value) => value,
        Err(error) => {
            return if error.is_memory() {
                Err(MetaError::NoMemory)
            } else {
                Err(MetaError::BadMeta(Field::Shape))
            };
        }
    };
    if !value.is_object() {
        return Err(MetaError::BadMeta(Field::Shape));
    }
    Ok(value)
}

/// Whether the object tells the one version that there is.
fn has_version(value: &Value) -> bool
    ensures { IsTrue result ↔ (number_in (value_at (codes "v") (Some (view value.now))) ≡ Some 1) }
{
    number_at(value, "v") == Some(1)
}

/// What the object's values tell, each field looked at in its turn.
fn meta_of(alloc: Global, value: &Value) -> Result<Meta, MetaError>
    ensures { (text : List ℕ) → IsHead text (Some (view value.now))
        → IsReadFrom text (Some (view value.now)) result }
{
    let path = path_of(alloc, value)?;
    let size = size_of(value)?;
    let base = base_of(value)?;
    let base_end = base_end_of(value, size, base)?;
    let ranges = ranges_of(alloc, value, size)?;
    let dirty = dirty_of(value, size, base, base_end)?;
    let intent = intent_of(alloc, value, size, &ranges, dirty)?;
    let mtime = moment_of(value, "mtime", Field::Mtime)?;
    let atime = moment_of(value, "atime", Field::Atime)?;
    Ok(Meta {
        path,
        size,
        base_end,
        ranges,
        base,
        dirty,
        mtime,
        atime,
        intent,
    })
}
