// The names of columns.
ghost use Rattle.std.specs.Prelude.{◌≡◌, ◌++◌, ◌∷◌, [], ℕ, List, OnOk, IfOk};
ghost use Rattle.std.specs.List.{list_any};
ghost use Rattle.slot_reading.specs.Names.{is_same_name};
ghost use Rattle.delimited_input.specs.Names.{made_name, made_names, header_name, header_names};
ghost use Rattle.delimited_input.specs.Kept.{text_of, texts_of};
ghost use Rattle.delimited_input.specs.Noted.{AreNoted};

use crate::folded::FoldedName;
use indexmap::IndexSet;
use line_input::{Column, Columns, Fields, Slot};
use lp_values::Text;
use std::alloc::{AllocError, Global};

/// The most columns that a line may set.
pub(crate) const MOST_COLUMNS: usize = 1024;

// The name of a column that has none of its own.
fn made_name(alloc: Global, position: usize) -> Result<Text, AllocError>
    ensures { IfOk result (λ name. name ≡ made_name position) }
{
    Ok(Text::from_string(format!(in alloc; "Field{position}")?))
}

/// The names of so many columns that have none of their own.
pub(crate) fn made_names(alloc: Global, many: usize) -> Result<Columns, AllocError>
    ensures { IfOk result (λ names. names ≡ made_names many) }
{
    let mut names = Columns::new(alloc);
    for place in 0..many {
        names.push(Column::new(made_name(alloc, place + 1)?))?;
    }
    Ok(names)
}

// The bytes of a field; none where it is empty.
fn text_of<'a>(slot: &'a Slot, line: &'a [u8]) -> &'a [u8]
    ensures { result.now ≡ text_of line.now slot.now }
{
    slot.bytes(line).unwrap_or(b"")
}

// Notes a name among earlier ones, and tells whether it is one of them.
fn is_repeated(
    alloc: Global,
    earlier: &mut IndexSet<FoldedName>,
    name: &[u8],
) -> Result<bool, AllocError>
    ensures told { IfOk result (λ repeated. (names : List (List ℕ)) → AreNoted earlier.old.keys names → repeated ≡ list_any (is_same_name name.now) names) }
    ensures noted { OnOk result ((names : List (List ℕ)) → AreNoted earlier.old.keys names → AreNoted earlier.new.keys (names ++ name.now ∷ [])) }
{
    let is_new = earlier.insert(FoldedName::of(alloc, name)?)?;
    Ok(!is_new)
}

// The name that a header's field gives, at a position from 1.
fn header_name(
    alloc: Global,
    name: &[u8],
    position: usize,
    is_repeated: bool,
) -> Result<Text, AllocError>
    ensures { IfOk result (λ found. (earlier : List (List ℕ)) → is_repeated ≡ list_any (is_same_name name.now) earlier → found ≡ header_name earlier position name.now) }
{
    if name.is_empty() || is_repeated {
        made_name(alloc, position)
    } else {
        Text::read(alloc, name)
    }
}

// Adds the name that a header's field gives.
fn add_name(
    alloc: Global,
    earlier: &mut IndexSet<FoldedName>,
    names: &mut Columns,
    name: &[u8],
    position: usize,
) -> Result<(), AllocError>
    ensures noted { OnOk result ((before : List (List ℕ)) → AreNoted earlier.old.keys before → AreNoted earlier.new.keys (before ++ name.now ∷ [])) }
    ensures added { OnOk result ((before : List (List ℕ)) → AreNoted earlier.old.keys before → names.new ≡ names.old ++ header_name before position name.now ∷ []) }
{
    let repeated = is_repeated(alloc, earlier, name)?;
    names.push(Column::new(header_name(alloc, name, position, repeated)?))?;
    Ok(())
}

/// The names that a header's fields give.
pub(crate) fn header_names(
    alloc: Global,
    line: &[u8],
    fields: &Fields,
) -> Result<Columns, AllocError>
    ensures { IfOk result (λ names. names ≡ header_names (texts_of line.now fields.now)) }
{
    let slots = fields.as_slice();
    let mut earlier = IndexSet::new(alloc);
    let mut names = Columns::new(alloc);
    for place in 0..slots.len() {
        let name = text_of(&slots[place], line);
        add_name(alloc, &mut earlier, &mut names, name, place + 1)?;
    }
    Ok(names)
}
