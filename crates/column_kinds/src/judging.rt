// The table of a run.
ghost use Rattle.std.specs.Prelude.{◌≡◌, ◌∷◌, ◌++◌, [], length, map, slice_index_or, IfOk, OnOk, Some};
ghost use Rattle.lp_values.specs.declared.kind.Kind.TheVariants.{Any};
ghost use Rattle.column_kinds.specs.Fields.{field_in, place_for, text_of, texts_under};
ghost use Rattle.column_kinds.specs.Judged.{judged, kinds_under, named_kinds, table_of};
ghost use Rattle.column_kinds.specs.Kept.{found_in};

use crate::fields::{field_in, place_for, text_of};
use crate::{FirstLog, KeptRow, KeptRows};
use delimited_input::{KindList, KindSampler};
use line_input::Columns;
use lp_outside::Name;
use lp_time::Pattern;
use lp_values::{Kind, Text, TextList};
use query_types::{NamedKind, NamedKinds, TableColumns};
use std::alloc::{AllocError, Global};

/// What a run's first log and first records tell: that log, if one has columns, and the names and kinds of its columns.
#[derive(Drop)]
pub struct Judged {
    pub log: Option<Name>,
    pub columns: NamedKinds,
}

// The text of a record in a column.
fn text_under(
    alloc: Global,
    is_of_first: bool,
    row: &KeptRow,
    at: usize,
    name: &str,
) -> Result<Text, AllocError>
    ensures { IfOk result (λ text. text ≡ text_of (field_in (found_in row.now).row.slots (place_for is_of_first row.now.columns at name.now))) }
{
    let place = place_for(is_of_first, &row.columns, at, name);
    text_of(alloc, field_in(row.line.as_slice(), &row.fields, place))
}

// The texts of a record.
fn texts_under(alloc: Global, first: &FirstLog, row: &KeptRow) -> Result<TextList, AllocError>
    ensures { IfOk result (λ texts. texts ≡ texts_under first.now (found_in row.now)) }
{
    let is_of_first = first.identity.is(&row.identity);
    let mut texts = TextList::new(alloc);
    let mut at = 0;
    for column in first.columns.as_slice() {
        let text = text_under(alloc, is_of_first, row, at, column.name())?;
        texts.push(text)?;
        at += 1;
    }
    Ok(texts)
}

// The kinds of the first log's columns.
fn kinds_under(
    alloc: Global,
    limit: u32,
    pattern: &Pattern,
    first: &FirstLog,
    rows: &KeptRows,
) -> Result<KindList, AllocError>
    ensures { IfOk result (λ kinds. kinds ≡ kinds_under limit pattern.now first.now (map found_in rows.now)) }
{
    let mut sampler = KindSampler::new(alloc, first.columns.len(), limit, pattern)?;
    for row in rows.as_slice() {
        let texts = texts_under(alloc, first, row)?;
        sampler.add(&texts)?;
    }
    sampler.kinds(alloc)
}

// The kind at a place.
fn kind_at(kinds: &KindList, at: usize) -> Kind
    ensures { result ≡ slice_index_or kinds.now at Any }
{
    kinds.get(at).copied().unwrap_or(Kind::Any)
}

// The columns of these names and kinds.
fn named_kinds(alloc: Global, kinds: &KindList, names: &Columns) -> Result<NamedKinds, AllocError>
    ensures { IfOk result (λ columns. columns ≡ named_kinds kinds.now names.now) }
{
    let mut columns = NamedKinds::new(alloc);
    let mut at = 0;
    for column in names.as_slice() {
        let name = Text::from_str(alloc, column.name())?;
        let kind = kind_at(kinds, at);
        columns.push(NamedKind { name, kind })?;
        at += 1;
    }
    Ok(columns)
}

/// What a run's first log and first records tell.
pub fn judge(
    alloc: Global,
    limit: u32,
    pattern: &Pattern,
    first: &Option<FirstLog>,
    rows: &KeptRows,
) -> Result<Judged, AllocError>
    ensures { IfOk result (λ told. told ≡ judged limit pattern.now first.now (map found_in rows.now)) }
{
    match first {
        None => Ok(Judged {
            log: None,
            columns: NamedKinds::new(alloc),
        }),
        Some(first) => {
            let kinds = kinds_under(alloc, limit, pattern, first, rows)?;
            let columns = named_kinds(alloc, &kinds, &first.columns)?;
            Ok(Judged {
                log: Some(first.identity.copy()),
                columns,
            })
        }
    }
}

// Adds a column.
fn add_column(
    alloc: Global,
    columns: &mut NamedKinds,
    name: &str,
    kind: Kind,
) -> Result<(), AllocError>
    ensures { OnOk result (columns.new ≡ columns.old ++ record { name = name.now; kind = kind } ∷ []) }
{
    let name = Text::from_str(alloc, name)?;
    columns.push(NamedKind { name, kind })?;
    Ok(())
}

// Adds copies of columns.
fn add_columns(alloc: Global, columns: &mut NamedKinds, more: &NamedKinds) -> Result<(), AllocError>
    ensures { OnOk result (columns.new ≡ columns.old ++ more.now) }
{
    for column in more.as_slice() {
        add_column(alloc, columns, column.name.as_str(), column.kind)?;
    }
    Ok(())
}

/// The table of a run: the log, the record's number, and the columns.
pub fn table_of(alloc: Global, told: &Judged) -> Result<TableColumns, AllocError>
    ensures { IfOk result (λ table. table ≡ table_of told.now) }
{
    let mut columns = NamedKinds::new(alloc);
    add_column(alloc, &mut columns, "Filename", Kind::Text)?;
    add_column(alloc, &mut columns, "RowNumber", Kind::Integer)?;
    add_columns(alloc, &mut columns, &told.columns)?;
    Ok(TableColumns {
        columns,
        others: told.log.is_none(),
    })
}
