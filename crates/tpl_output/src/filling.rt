// A section with its marks replaced, but for the values of a row.
ghost use Rattle.std.specs.Prelude.{◌≡◌, ◌≤◌, ◌∷◌, ◌++◌, [], ℕ, List, length, decimal, flat_map, IfOk, OnOk, OnErr};
ghost use Rattle.lp_model.specs.Outside.{GrowsIn};
ghost use Rattle.lp_values.specs.Civil.{civil_of};
ghost use Rattle.lp_values.specs.Printed.{printed_stamp};
ghost use Rattle.lp_values.specs.Stamps.{IsInYears};
ghost use Rattle.lp_values.specs.declared.part.Part.TheVariants.{Both};
ghost use Rattle.lp_values.specs.declared.value.Value.{Value};
ghost use Rattle.tpl_output.specs.Marks.{filled, mark_at, mark_text, name_text, shown, size_of, value_text};
ghost use Rattle.tpl_output.specs.Tpl.{part_text, rendered};

use crate::Mark;
use crate::marking::mark_at;
use itoa::Buffer;
use lp_values::{
    Bytes, ListOf, Part as StampPart, Stamp, TextList, Value, ValueList, bytes_from, print,
};
use std::alloc::{AllocError, Global};
use std::mem;

/// A text, and the column whose value stands behind it.
#[derive(Drop)]
pub struct Part {
    pub before: Bytes,
    pub column: usize,
}

/// What is always the same, and the columns between.
#[derive(Drop)]
pub struct Filling {
    pub parts: ListOf<Part>,
    pub tail: Bytes,
}

impl Filling {
    pub(crate) fn new(alloc: Global) -> Self
        ensures parts { result.parts ≡ [] }
        ensures tail { result.tail ≡ [] }
    {
        Filling {
            parts: ListOf::new(alloc),
            tail: Bytes::new(alloc),
        }
    }

    // Puts a column's value behind what stands there.
    fn add_column(&mut self, alloc: Global, column: usize) -> Result<(), AllocError>
        ensures parts { OnOk result (self.new.parts ≡ self.old.parts ++ record { before = self.old.tail; column = column } ∷ []) }
        ensures tail { OnOk result (self.new.tail ≡ []) }
    {
        let before = mem::replace(&mut self.tail, Bytes::new(alloc));
        self.parts.push(Part { before, column })
    }
}

// Appends a moment as a date and a time.
fn add_moment(moment: i64, to: &mut Bytes) -> Result<(), AllocError>
    requires { IsInYears moment }
    ensures ok { OnOk result (to.new ≡ to.old ++ printed_stamp (civil_of moment) Both) }
    ensures err { OnErr result (to.new ≡ to.old) }
{
    print(
        &Value::Stamp(Stamp {
            seconds: moment,
            part: StampPart::Both,
        }),
        to,
    )
}

fn add_count(count: usize, to: &mut Bytes) -> Result<(), AllocError>
    ensures { OnOk result (to.new ≡ to.old ++ decimal count) }
{
    let mut buffer = Buffer::new();
    to.add(buffer.format(count).as_bytes())
}

fn add_name(names: &TextList, column: usize, to: &mut Bytes) -> Result<(), AllocError>
    ensures { OnOk result (to.new ≡ to.old ++ name_text names.now column) }
{
    match names.get(column) {
        Some(name) => to.add(name.as_str().as_bytes()),
        None => Ok(()),
    }
}

fn add_mark(
    alloc: Global,
    names: &TextList,
    moment: i64,
    mark: Mark,
    filling: &mut Filling,
) -> Result<(), AllocError>
    requires { IsInYears moment }
    ensures { OnOk result ((values : List Value) → rendered filling.new values ≡ rendered filling.old values ++ mark_text names.now moment values mark) }
{
    match mark {
        Mark::Value(column) => filling.add_column(alloc, column),
        Mark::Name(column) => add_name(names, column, &mut filling.tail),
        Mark::Count => add_count(names.len(), &mut filling.tail),
        Mark::Moment => add_moment(moment, &mut filling.tail),
    }
}

// Takes a byte, and the mark that it begins: how many more bytes that has.
fn take_byte(
    alloc: Global,
    names: &TextList,
    moment: i64,
    body: bool,
    byte: u8,
    behind: &[u8],
    filling: &mut Filling,
) -> Result<usize, AllocError>
    requires { IsInYears moment }
    ensures size { IfOk result (λ size. size ≡ size_of (mark_at names.now body byte behind.now)) }
    ensures within { IfOk result (λ size. size ≤ length behind.now) }
    ensures text { OnOk result ((values : List Value) → rendered filling.new values ≡ rendered filling.old values ++ shown names.now moment values byte (mark_at names.now body byte behind.now)) }
{
    match mark_at(names, body, byte, behind) {
        Some(found) => {
            add_mark(alloc, names, moment, found.mark, filling)?;
            Ok(found.size)
        }
        None => {
            filling.tail.push(byte)?;
            Ok(0)
        }
    }
}

/// A section with its marks replaced, but for the values of a row.
pub(crate) fn fill(
    alloc: Global,
    names: &TextList,
    moment: i64,
    body: bool,
    text: &[u8],
) -> Result<Filling, AllocError>
    requires { IsInYears moment }
    ensures { IfOk result (λ filling. (values : List Value) → rendered filling values ≡ filled names.now moment body values text.now) }
{
    let mut filling = Filling::new(alloc);
    let mut at = 0;
    'bytes: while at < text.len() {
        let byte = text[at];
        let size = take_byte(
            alloc,
            names,
            moment,
            body,
            byte,
            bytes_from(text, at + 1),
            &mut filling,
        )?;
        at += 1 + size;
    }
    Ok(filling)
}

fn add_value(values: &ValueList, column: usize, to: &mut Bytes) -> Result<(), AllocError>
    ensures ok { OnOk result (to.new ≡ to.old ++ value_text values.now column) }
    ensures err { OnErr result (to.new ≡ to.old) }
{
    match values.get(column) {
        Some(value) => print(value, to),
        None => Ok(()),
    }
}

fn add_part(part: &Part, values: &ValueList, to: &mut Bytes) -> Result<(), AllocError>
    ensures ok { OnOk result (to.new ≡ to.old ++ part_text values.now part.now) }
    ensures err { OnErr result (GrowsIn to.old to.new (part_text values.now part.now)) }
{
    to.add(part.before.as_slice())?;
    add_value(values, part.column, to)?;
    Ok(())
}

/// Appends a section with the values of a row.
pub(crate) fn add_filling(
    filling: &Filling,
    values: &ValueList,
    to: &mut Bytes,
) -> Result<(), AllocError>
    ensures ok { OnOk result (to.new ≡ to.old ++ rendered filling.now values.now) }
    ensures err { OnErr result (GrowsIn to.old to.new (rendered filling.now values.now)) }
{
    for part in filling.parts.as_slice() {
        add_part(part, values, to)?;
    }
    to.add(filling.tail.as_slice())?;
    Ok(())
}
