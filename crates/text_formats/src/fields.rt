// Lines of fields.
ghost use Rattle.std.specs.Prelude.{◌≡◌, ◌==◌, ◌∷◌, ◌++◌, [], map, OnOk, OnErr, if◌then◌else◌};
ghost use Rattle.std.specs.List.{list_any};
ghost use Rattle.memchr.specs.Find.{is_byte, is_byte3};
ghost use Rattle.lp_model.specs.Outside.{GrowsIn};
ghost use Rattle.lp_values.specs.Printed.{printed};
ghost use Rattle.text_formats.specs.Styles.{breaks, kept_byte, field_of, line_of};

use crate::Style;
use lp_values::{Bytes, TextList, Value, ValueList, print};
use memchr::{memchr, memchr3};
use std::alloc::AllocError;

fn has_mark(style: Style, field: &[u8]) -> bool
    ensures { result ≡ list_any (is_byte3 style.separator style.blank 10) field.now }
{
    memchr3(style.separator, style.blank, b'\n', field).is_some()
}

fn has_return(field: &[u8]) -> bool
    ensures { result ≡ list_any (is_byte 13) field.now }
{
    memchr(b'\r', field).is_some()
}

fn is_broken(style: Style, field: &[u8]) -> bool
    ensures { result ≡ list_any (breaks style) field.now }
{
    has_mark(style, field) || has_return(field)
}

fn breaks(style: Style, byte: u8) -> bool
    ensures { result ≡ breaks style byte }
{
    byte == style.separator || byte == style.blank || byte == b'\n' || byte == b'\r'
}

fn kept_byte(style: Style, byte: u8) -> u8
    ensures { result ≡ kept_byte style byte }
{
    if breaks(style, byte) {
        style.instead
    } else {
        byte
    }
}

// Appends a field with its breaking bytes replaced.
fn add_kept(style: Style, field: &[u8], to: &mut Bytes) -> Result<(), AllocError>
    ensures ok { OnOk result (to.new ≡ to.old ++ map (kept_byte style) field.now) }
    ensures err { OnErr result (GrowsIn to.old to.new (map (kept_byte style) field.now)) }
{
    for byte in field {
        to.push(kept_byte(style, *byte))?;
    }
    Ok(())
}

// Appends a field that isn't empty.
fn add_whole(style: Style, field: &[u8], to: &mut Bytes) -> Result<(), AllocError>
    ensures ok { OnOk result (to.new ≡ to.old ++ map (kept_byte style) field.now) }
    ensures err { OnErr result (GrowsIn to.old to.new (map (kept_byte style) field.now)) }
{
    if is_broken(style, field) {
        add_kept(style, field, to)
    } else {
        to.add(field)?;
        Ok(())
    }
}

fn add_field(style: Style, field: &[u8], to: &mut Bytes) -> Result<(), AllocError>
    ensures ok { OnOk result (to.new ≡ to.old ++ field_of style field.now) }
    ensures err { OnErr result (GrowsIn to.old to.new (field_of style field.now)) }
{
    if style.dashed && field.is_empty() {
        to.push(b'-')?;
        Ok(())
    } else {
        add_whole(style, field, to)
    }
}

// Appends a value as a field.
fn add_value(
    style: Style,
    scratch: &mut Bytes,
    value: &Value,
    to: &mut Bytes,
) -> Result<(), AllocError>
    ensures ok { OnOk result (to.new ≡ to.old ++ field_of style (printed value.now)) }
    ensures err { OnErr result (GrowsIn to.old to.new (field_of style (printed value.now))) }
{
    if let Value::Text(text) = value {
        return add_field(style, text.as_str().as_bytes(), to);
    }
    scratch.clear();
    print(value, scratch)?;
    add_field(style, scratch.as_slice(), to)
}

// Appends a separator before each field but the first.
fn add_separator(style: Style, index: usize, to: &mut Bytes) -> Result<(), AllocError>
    ensures ok { OnOk result (to.new ≡ to.old ++ (if index == 0 then [] else style.separator ∷ [])) }
    ensures err { OnErr result (to.new ≡ to.old) }
{
    if index == 0 {
        Ok(())
    } else {
        to.push(style.separator)
    }
}

pub(crate) fn add_names(style: Style, names: &TextList, to: &mut Bytes) -> Result<(), AllocError>
    ensures ok { OnOk result (to.new ≡ to.old ++ line_of style names.now) }
    ensures err { OnErr result (GrowsIn to.old to.new (line_of style names.now)) }
{
    for (index, name) in names.as_slice().iter().enumerate() {
        add_separator(style, index, to)?;
        add_field(style, name.as_str().as_bytes(), to)?;
    }
    to.push(b'\n')?;
    Ok(())
}

pub(crate) fn add_values(
    style: Style,
    scratch: &mut Bytes,
    values: &ValueList,
    to: &mut Bytes,
) -> Result<(), AllocError>
    ensures ok { OnOk result (to.new ≡ to.old ++ line_of style (map printed values.now)) }
    ensures err { OnErr result (GrowsIn to.old to.new (line_of style (map printed values.now))) }
{
    for (index, value) in values.as_slice().iter().enumerate() {
        add_separator(style, index, to)?;
        add_value(style, scratch, value, to)?;
    }
    to.push(b'\n')?;
    Ok(())
}
