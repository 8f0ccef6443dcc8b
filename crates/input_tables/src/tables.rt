// The table of each format.
ghost use Rattle.std.specs.Prelude.{◌≡◌, ◌++◌, ◌∷◌, [], map, IfOk, OnOk};
ghost use Rattle.input_tables.specs.Known.{known};
ghost use Rattle.input_tables.specs.Tables.{column_of, fields_of, number_name, reading_in, readings_of, table_of};

use crate::TableFormat;
use crate::field::{How, Known};
use crate::known::{iis_known, ncsa_known, text_known};
use lp_values::{ListOf, Text};
use query_types::{NamedKind, NamedKinds, TableColumns};
use slot_reading::SlotReading;
use std::alloc::{AllocError, Global};

// The name of the number of a record.
fn number_name(format: TableFormat) -> &'static str
    ensures { result.now ≡ number_name format }
{
    match format {
        TableFormat::IisW3c | TableFormat::Ncsa => "LogRow",
        TableFormat::TextLine | TableFormat::TextWord => "Index",
    }
}

// Adds the column of a field.
fn add_column(alloc: Global, columns: &mut NamedKinds, field: Known) -> Result<(), AllocError>
    ensures { OnOk result (columns.new ≡ columns.old ++ column_of (known field) ∷ []) }
{
    let name = Text::from_str(alloc, field.name)?;
    let kind = field.how.kind();
    columns.push(NamedKind { name, kind })
}

// Adds the columns of fields.
fn add_columns(alloc: Global, columns: &mut NamedKinds, fields: &[Known]) -> Result<(), AllocError>
    ensures { OnOk result (columns.new ≡ columns.old ++ map column_of (map known fields.now)) }
{
    for field in fields {
        add_column(alloc, columns, *field)?;
    }
    Ok(())
}

// Adds how fields are read.
fn readings(alloc: Global, fields: &[Known]) -> Result<ListOf<SlotReading>, AllocError>
    ensures { IfOk result (λ list. list ≡ map reading_in (map known fields.now)) }
{
    let mut list = ListOf::new(alloc);
    for field in fields {
        list.push(field.how.reading())?;
    }
    Ok(list)
}

// Adds the columns of a format's fields.
fn add_fields(
    alloc: Global,
    columns: &mut NamedKinds,
    format: TableFormat,
) -> Result<(), AllocError>
    ensures { OnOk result (columns.new ≡ columns.old ++ map column_of (fields_of format)) }
{
    match format {
        TableFormat::IisW3c => add_columns(alloc, columns, &iis_known()),
        TableFormat::Ncsa => add_columns(alloc, columns, &ncsa_known()),
        TableFormat::TextLine | TableFormat::TextWord => {
            add_columns(alloc, columns, &text_known())
        }
    }
}

/// The columns of a format: the log's name, the record's number, and its fields.
pub fn table_of(alloc: Global, format: TableFormat) -> Result<TableColumns, AllocError>
    ensures { IfOk result (λ table. table ≡ table_of format) }
{
    let mut columns = NamedKinds::new(alloc);
    let log = Known {
        name: "LogFilename",
        how: How::Text,
    };
    add_column(alloc, &mut columns, log)?;
    let number = Known {
        name: number_name(format),
        how: How::Integer,
    };
    add_column(alloc, &mut columns, number)?;
    add_fields(alloc, &mut columns, format)?;
    Ok(TableColumns {
        columns,
        others: false,
    })
}

/// How the fields of a format's records are read.
pub fn readings_of(alloc: Global, format: TableFormat) -> Result<ListOf<SlotReading>, AllocError>
    ensures { IfOk result (λ list. list ≡ readings_of format) }
{
    match format {
        TableFormat::IisW3c => readings(alloc, &iis_known()),
        TableFormat::Ncsa => readings(alloc, &ncsa_known()),
        TableFormat::TextLine | TableFormat::TextWord => readings(alloc, &text_known()),
    }
}
