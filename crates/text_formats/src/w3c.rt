// The W3C extended log file format.
ghost use Rattle.std.specs.Prelude.{◌≡◌, ◌++◌, true, pos, ◌≤ℤ◌, ◌<ℤ◌, OnOk, OnErr};
ghost use Rattle.lp_model.specs.Outside.{GrowsIn};
ghost use Rattle.lp_values.specs.Civil.{civil_of};
ghost use Rattle.lp_values.specs.Printed.{printed_stamp};
ghost use Rattle.lp_values.specs.Stamps.{IsInYears};
ghost use Rattle.lp_values.specs.declared.part.Part.TheVariants.{Both};
ghost use Rattle.text_formats.specs.Lined.{lined_begins};
ghost use Rattle.text_formats.specs.W3c.{w3c_of, w3c_head, w3c_line, w3c_style};

use crate::Style;
use crate::fields::{add_names, add_values};
use lp_values::{Bytes, Part, Stamp, TextList, Value, ValueList, print};
use output_formats::Shape;
use std::alloc::{AllocError, Global};
use std::marker::Model;

const W3C: Style = Style {
    separator: b' ',
    blank: b'\t',
    instead: b'+',
    dashed: true,
};

const BEFORE_DATE: &[u8] = b"#Software: Log Parser\n#Version: 1.0\n#Date: ";

const BEFORE_NAMES: &[u8] = b"\n#Fields: ";

/// The directives of the format, and one space between fields: space, tab, CR and LF in a field become `+`, and an empty
/// field is `-`. The directives stand before the rows of each run.
#[derive(Drop)]
pub struct W3cOut {
    moment: i64,
    // What a value prints as.
    printed: Bytes,
}

impl Model for W3cOut {
    ghost use Rattle.std.specs.Prelude.{ℤ};
    ghost use Rattle.lp_values.specs.Stamps.{IsInYears};

    ghost Value = { ℤ };

    ghost view = { λ s. s.moment };

    ghost invariant = { λ s. IsInYears s.moment };
}

impl W3cOut {
    /// `moment` is in Unix seconds, from 1970 to the end of 9999.
    pub fn new(alloc: Global, moment: i64) -> Self
        requires first { pos 0 ≤ℤ moment }
        requires last { moment <ℤ pos 253_402_300_800 }
        ensures { result ≡ moment }
    {
        W3cOut {
            moment,
            printed: Bytes::new(alloc),
        }
    }
}

// Appends a moment as a date and a time.
fn add_moment(moment: i64, to: &mut Bytes) -> Result<(), AllocError>
    requires { IsInYears moment }
    ensures ok { OnOk result (to.new ≡ to.old ++ printed_stamp (civil_of moment) Both) }
    ensures err { OnErr result (to.new ≡ to.old) }
{
    print(
        &Value::Stamp(Stamp {
            seconds: moment,
            part: Part::Both,
        }),
        to,
    )
}

// Appends the directives.
fn add_head(moment: i64, names: &TextList, to: &mut Bytes) -> Result<(), AllocError>
    requires { IsInYears moment }
    ensures ok { OnOk result (to.new ≡ to.old ++ w3c_head moment names.now) }
    ensures err { OnErr result (GrowsIn to.old to.new (w3c_head moment names.now)) }
{
    to.add(BEFORE_DATE)?;
    add_moment(moment, to)?;
    to.add(BEFORE_NAMES)?;
    add_names(W3C, names, to)
}

impl Shape for W3cOut {
    ghost text = { λ s. w3c_of s };

    ghost has_text = { λ s fresh names rows so_far. so_far ≡ w3c_of s fresh names rows };

    ghost shown = { λ s rows. rows };

    ghost at_once = { λ s. true };

    fn begin(&mut self, names: &TextList, fresh: bool, to: &mut Bytes) -> Result<(), AllocError> {
        add_head(self.moment, names, to)
    }

    fn row(&mut self, values: &ValueList, to: &mut Bytes) -> Result<(), AllocError> {
        add_values(W3C, &mut self.printed, values, to)
    }

    fn count(&self, put: u64) -> u64 {
        put
    }

    fn end(&mut self, to: &mut Bytes) -> Result<(), AllocError> {
        Ok(())
    }

    ghost begins = { λ s fresh names rows more so_far is. lined_begins (w3c_head s names) w3c_line rows more so_far is };

    ghost whole = { λ s fresh names rows so_far once is. is };
}
