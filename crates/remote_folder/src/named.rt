ghost use Rattle.std.specs.Prelude.{◌≡◌, IfNone, IfOk, IfSome, Some, nat_eq, refl};
ghost use Rattle.std.specs.Cmp.{on_equiv, on_per, on_po, on_total, partial_equiv_from_equiv};
ghost use Rattle.std.specs.Cmp.Lexicographic.{nat_list_cmp_total, nat_list_eq_equiv, pointwise, slice_cmp, texts_po};
ghost use Rattle.std.specs.Fs.{IsDir, IsFile, file_type, metadata_len};
ghost use Rattle.std.specs.Ordering.{nat_cmp};
ghost use Rattle.std.proofs.Common.{rules};
ghost use Rattle.std.proofs.Props.{props};
ghost use Rattle.std.specs.Cmp.Rules.{comparing};
ghost use Rattle.vfs_outside.specs.RowName.{IsRowName};

use crate::stamp::Stamp;
use std::alloc::Global;
use std::cmp::Ordering;
use std::fs::Metadata;
use vfs_names::{Blob, Fingerprint, NoMemory};
use vfs_outside::{Kind, Row, is_row_name};

/// A row whose name is one of a path. Such rows are in the order of their names' bytes.
#[derive(Debug, Drop)]
pub struct NamedRow {
    pub row: Row,
    ghost named: { IsRowName row.name } by { Prim.hlevel props },
}

impl PartialEq for NamedRow {
    ghost use Rattle.remote_folder.specs.declared.named.NamedRow.{NamedRow};

    ghost eq = { λ a b. pointwise nat_eq a.row.name b.row.name };

    ghost laws = { on_per (λ (a : NamedRow). a.row.name) (partial_equiv_from_equiv nat_list_eq_equiv) };

    fn eq(&self, other: &NamedRow) -> bool {
        self.row.name == other.row.name
    }
}

impl Eq for NamedRow {
    ghost use Rattle.remote_folder.specs.declared.named.NamedRow.{NamedRow};

    ghost laws = { on_equiv (λ (a : NamedRow). a.row.name) nat_list_eq_equiv };
}

impl PartialOrd for NamedRow {
    ghost use Rattle.remote_folder.specs.declared.named.NamedRow.{NamedRow};

    ghost partial_cmp = { λ a b. Some (slice_cmp nat_cmp a.row.name b.row.name) };

    ghost laws = { on_po (λ (a : NamedRow). a.row.name) texts_po };

    fn partial_cmp(&self, other: &NamedRow) -> Option<Ordering> {
        Some(self.cmp(other))
    }
}

impl Ord for NamedRow {
    ghost use Rattle.remote_folder.specs.declared.named.NamedRow.{NamedRow};

    ghost cmp = { λ a b. slice_cmp nat_cmp a.row.name b.row.name };

    ghost total = { on_total (λ (a : NamedRow). a.row.name) nat_list_cmp_total };

    ghost matches_partial_cmp = { λ a b. refl };

    ghost matches_eq = { Prim.search (comparing, rules) };

    fn cmp(&self, other: &NamedRow) -> Ordering {
        self.row.name.as_slice().cmp(other.row.name.as_slice())
    }
}

/// The kind and the fingerprint that a listing shows; None for what is neither a directory nor a plain file.
fn shown(metadata: &Metadata) -> Option<(Kind, Fingerprint)>
    ensures dir { IsDir (file_type metadata.now) → result ≡ Some (Kind.Dir, record { size = 0; mtime = 0; rev = 0 }) }
    ensures file { IsFile (file_type metadata.now) →
        IfSome result (λ s. (s.0 ≡ Kind.File) × (s.1.size ≡ metadata_len metadata.now) × (s.1.rev ≡ 0)) }
    ensures none { IfNone result ((¬ (IsDir (file_type metadata.now))) × (¬ (IsFile (file_type metadata.now)))) }
{
    if metadata.is_dir() {
        let none = Fingerprint {
            size: 0,
            mtime: 0,
            rev: 0,
        };
        return Some((Kind::Dir, none));
    }
    match Stamp::of(metadata) {
        Some(stamp) => Some((Kind::File, stamp.print())),
        None => None,
    }
}

/// The row of this name; None where the name is none of a path, or what has it is neither a directory nor a plain file.
pub fn named_row(
    alloc: Global,
    name: &str,
    metadata: &Metadata,
) -> Result<Option<NamedRow>, NoMemory>
    ensures { IfOk result (λ found. IfSome found (λ named. named.row.name ≡ name.now)) }
{
    if !is_row_name(name.as_bytes()) {
        return Ok(None);
    }
    let Some((kind, print)) = shown(metadata) else {
        return Ok(None);
    };
    let Ok(name) = Blob::from_slice(alloc, name.as_bytes()) else {
        return Err(NoMemory);
    };
    let row = Row { name, kind, print };
    Ok(Some(NamedRow { row }))
}
