// The bytes of a standing: its lines, and the columns in force.
ghost use Rattle.std.specs.Prelude.{◌≡◌, ◌++◌, ◌∷◌, ◌<◌, ◌^◌, ℕ, List, [], length, map, flat_map, OnOk, OnErr, IfOk, IfErr, MatchOption, MatchResult};
ghost use Rattle.std.specs.Str.{IsUtf8};
ghost use Rattle.lp_model.specs.Outside.{GrowsIn};
ghost use Rattle.lp_model.specs.Reading.{Standing as State};
ghost use Rattle.ledger_model.specs.Layouts.{listed, field};
ghost use Rattle.ledger_model.specs.Numbers.{number, u16_bytes, u32_bytes, u64_bytes, text_bytes, text_of};
ghost use Rattle.ledger_model.specs.Standings.{names_layout, columns_bytes, columns_field};
ghost use Rattle.line_input.specs.Fronts.{IsFront, HasBreak, any_standing, IsMalformed};

use crate::Standing;
use iis_fields::{Column, Columns};
use lp_values::{Bytes, Text};
use std::alloc::{AllocError, AllocFailed, Global};
use std::str;

/// The most columns that a standing keeps.
const MOST: u16 = 1024;

/// How many bytes the number of lines has.
const LINES: u64 = 8;

/// The byte of a standing without columns.
const NONE: u8 = 0;

/// The byte before columns.
const SOME: u8 = 1;

/// Why bytes are no standing.
#[derive(Drop)]
pub enum StandingFault {
    /// A field doesn't fit, by the place where it begins.
    Malformed { at: u64 },
    Memory,
}

// Adds a text behind the low 32 bits of its length.
fn add_text(text: &str, to: &mut Bytes) -> Result<(), AllocError>
    ensures ok { OnOk result (to.new ≡ to.old ++ text_bytes text.now) }
    ensures err { OnErr result (GrowsIn to.old to.new (text_bytes text.now)) }
{
    let length = (text.len() as u64 % (1 << 32)) as u32;
    to.add(&length.to_le_bytes())?;
    to.add(text.as_bytes())
}

// Adds the names of columns.
fn add_names(columns: &[Column], to: &mut Bytes) -> Result<(), AllocError>
    ensures ok { OnOk result (to.new ≡ to.old ++ flat_map text_bytes columns.now) }
    ensures err { OnErr result (GrowsIn to.old to.new (flat_map text_bytes columns.now)) }
{
    for column in columns {
        add_text(column.name(), to)?;
    }
    Ok(())
}

// Adds the columns in force behind the low 16 bits of their number.
fn add_columns(columns: &[Column], to: &mut Bytes) -> Result<(), AllocError>
    ensures ok { OnOk result (to.new ≡ to.old ++ names_layout.spell columns.now) }
    ensures err { OnErr result (GrowsIn to.old to.new (names_layout.spell columns.now)) }
{
    let count = (columns.len() as u64 % (1 << 16)) as u16;
    to.add(&count.to_le_bytes())?;
    add_names(columns, to)
}

// Adds the columns in force, or their absence.
fn add_in_force(columns: &Option<Columns>, to: &mut Bytes) -> Result<(), AllocError>
    ensures ok { OnOk result (to.new ≡ to.old ++ columns_bytes columns.now) }
    ensures err { OnErr result (GrowsIn to.old to.new (columns_bytes columns.now)) }
{
    match columns {
        None => to.push(NONE),
        Some(columns) => {
            to.push(SOME)?;
            add_columns(columns.as_slice(), to)
        }
    }
}

// Takes a number of 64 bits.
fn take_u64(bytes: &[u8]) -> Option<(u64, &[u8])>
    ensures { MatchOption result (length bytes.now < 8) (λ p. IsFront number bytes.now p.0 p.1.now) }
{
    let (front, rest) = bytes.split_first_chunk::<8>()?;
    Some((u64::from_le_bytes(*front), rest))
}

// Takes a number of 32 bits.
fn take_u32(bytes: &[u8]) -> Option<(u32, &[u8])>
    ensures { MatchOption result (length bytes.now < 4) (λ p. IsFront (field (λ n. n < 2 ^ 32) u32_bytes) bytes.now p.0 p.1.now) }
{
    let (front, rest) = bytes.split_first_chunk::<4>()?;
    Some((u32::from_le_bytes(*front), rest))
}

// Takes a number of 16 bits.
fn take_u16(bytes: &[u8]) -> Option<(u16, &[u8])>
    ensures { MatchOption result (length bytes.now < 2) (λ p. IsFront (field (λ n. n < 2 ^ 16) u16_bytes) bytes.now p.0 p.1.now) }
{
    let (front, rest) = bytes.split_first_chunk::<2>()?;
    Some((u16::from_le_bytes(*front), rest))
}

// Takes a byte.
fn take_u8(bytes: &[u8]) -> Option<(u8, &[u8])>
    ensures { MatchOption result (length bytes.now < 1) (λ p. bytes.now ≡ p.0 ∷ p.1.now) }
{
    let (first, rest) = bytes.split_first()?;
    Some((*first, rest))
}

// Takes a text behind its length.
fn take_text(bytes: &[u8]) -> Option<(&str, &[u8])>
    ensures { MatchOption result (HasBreak (text_of IsUtf8) bytes.now) (λ p. IsFront (text_of IsUtf8) bytes.now p.0.now p.1.now) }
{
    match take_u32(bytes) {
        Some((size, behind)) => match behind.split_at_checked(size as usize) {
            Some((front, rest)) => match str::from_utf8(front) {
                Ok(text) => Some((text, rest)),
                Err(_) => None,
            },
            None => None,
        },
        None => None,
    }
}

// Takes so many names.
fn take_texts(
    alloc: Global,
    count: u16,
    bytes: &[u8],
) -> Result<Option<(Columns, &[u8])>, AllocError>
    ensures { IfOk result (λ found. MatchOption found (HasBreak (listed (λ before. text_of IsUtf8) count) bytes.now) (λ p. IsFront (listed (λ before. text_of IsUtf8) count) bytes.now p.0 p.1.now)) }
{
    let mut names = Columns::new(alloc);
    let mut rest = bytes;
    for _index in 0..count {
        match take_text(rest) {
            Some((name, behind)) => {
                names.push(Column::new(Text::from_str(alloc, name)?))?;
                rest = behind;
            }
            None => return Ok(None),
        }
    }
    Ok(Some((names, rest)))
}

// Takes the names of columns behind their number.
fn take_names(alloc: Global, bytes: &[u8]) -> Result<Option<(Columns, &[u8])>, AllocError>
    ensures { IfOk result (λ found. MatchOption found (HasBreak names_layout bytes.now) (λ p. IsFront names_layout bytes.now p.0 p.1.now)) }
{
    match take_u16(bytes) {
        Some((count, behind)) => {
            if count > MOST {
                return Ok(None);
            }
            take_texts(alloc, count, behind)
        }
        None => Ok(None),
    }
}

// Takes the columns in force, or their absence.
fn take_columns(alloc: Global, bytes: &[u8]) -> Result<Option<(Option<Columns>, &[u8])>, AllocError>
    ensures { IfOk result (λ found. MatchOption found (HasBreak columns_field bytes.now) (λ p. IsFront columns_field bytes.now p.0 p.1.now)) }
{
    match take_u8(bytes) {
        Some((tag, behind)) => {
            if tag == NONE {
                return Ok(Some((None, behind)));
            }
            if tag != SOME {
                return Ok(None);
            }
            match take_names(alloc, behind) {
                Ok(Some((names, rest))) => Ok(Some((Some(names), rest))),
                Ok(None) => Ok(None),
                Err(refused) => Err(refused),
            }
        }
        None => Ok(None),
    }
}

impl Standing {
    /// Adds the bytes of the standing; after an `Err` some of them may be added.
    pub fn to_bytes(&self, to: &mut Bytes) -> Result<(), AllocError>
        ensures ok { OnOk result (to.new ≡ to.old ++ any_standing.spell self.now) }
        ensures err { OnErr result (GrowsIn to.old to.new (any_standing.spell self.now)) }
    {
        to.add(&self.lines.to_le_bytes())?;
        add_in_force(&self.columns, to)
    }

    /// The standing that some bytes are; `Malformed` names the first field that doesn't fit.
    pub fn from_bytes(alloc: Global, bytes: &[u8]) -> Result<Standing, StandingFault>
        ensures ok { IfOk result (λ standing. any_standing.Fits standing × (bytes.now ≡ any_standing.spell standing)) }
        ensures refused { IfErr result (IsMalformed bytes.now) }
        ensures inverse { (standing : State) → any_standing.Fits standing → bytes.now ≡ any_standing.spell standing
            → MatchResult result (λ found. found ≡ standing) (λ fault. fault ≡ StandingFault.Memory) }
    {
        match take_u64(bytes) {
            Some((lines, behind)) => match take_columns(alloc, behind) {
                Ok(Some((columns, rest))) => {
                    if rest.is_empty() {
                        Ok(Standing { lines, columns })
                    } else {
                        Err(StandingFault::Malformed {
                            at: (bytes.len() - rest.len()) as u64,
                        })
                    }
                }
                Ok(None) => Err(StandingFault::Malformed { at: LINES }),
                Err(_) => Err(StandingFault::Memory),
            },
            None => Err(StandingFault::Malformed { at: 0 }),
        }
    }
}
