// Output by a template.
ghost use Rattle.std.specs.Prelude.{◌≡◌, ◌++◌, [], false, pos, ◌≤ℤ◌, ◌<ℤ◌, OnOk, OnErr};
ghost use Rattle.std.proofs.lemmas.Bool.{false≢true};
ghost use Rattle.lp_model.specs.Outside.{GrowsIn};
ghost use Rattle.lp_values.specs.Stamps.{IsInYears};
ghost use Rattle.tpl_output.specs.Marks.{filled};
ghost use Rattle.tpl_output.specs.Tpl.{tpl_of, IsTplText};
ghost use Rattle.tpl_output.specs.TplBeginning.{tpl_begins};

use crate::Template;
use crate::filling::{Filling, add_filling, fill};
use lp_values::{Bytes, TextList, ValueList};
use output_formats::Shape;
use std::alloc::{AllocError, Global};
use std::marker::Model;
use std::rc::Rc;

/// The header, the body for each row, and the footer of a template. The header and the footer stand in each run.
#[derive(Drop)]
pub struct Tpl {
    alloc: Global,
    template: Rc<Template>,
    moment: i64,
    // The body and the footer as they are filled for the names.
    body: Filling,
    footer: Filling,
}

impl Model for Tpl {
    ghost use Rattle.lp_values.specs.Stamps.{IsInYears};
    ghost use Rattle.tpl_output.specs.Tpl.{TplState};

    ghost Value = { TplState };

    ghost view = { λ s. record { sections = s.template.value; moment = s.moment; body = s.body; footer = s.footer } };

    ghost invariant = { λ s. IsInYears s.moment };
}

impl Tpl {
    /// `moment` is in Unix seconds, from 1970 to the end of 9999.
    pub fn new(alloc: Global, template: Rc<Template>, moment: i64) -> Self
        requires first { pos 0 ≤ℤ moment }
        requires last { moment <ℤ pos 253_402_300_800 }
        ensures sections { result.sections ≡ template.value }
        ensures moment { result.moment ≡ moment }
    {
        Tpl {
            alloc,
            template,
            moment,
            body: Filling::new(alloc),
            footer: Filling::new(alloc),
        }
    }
}

// Appends a section that has no values.
fn add_filled(
    alloc: Global,
    names: &TextList,
    moment: i64,
    text: &[u8],
    to: &mut Bytes,
) -> Result<(), AllocError>
    requires { IsInYears moment }
    ensures ok { OnOk result (to.new ≡ to.old ++ filled names.now moment false [] text.now) }
    ensures err { OnErr result (GrowsIn to.old to.new (filled names.now moment false [] text.now)) }
{
    let filling = fill(alloc, names, moment, false, text)?;
    add_filling(&filling, &ValueList::new(alloc), to)
}

impl Shape for Tpl {
    ghost text = { λ s. tpl_of s.sections s.moment };

    ghost has_text = { λ s fresh names rows so_far. IsTplText s names rows so_far };

    ghost shown = { λ s rows. rows };

    ghost at_once = { λ s. false };

    fn begin(&mut self, names: &TextList, fresh: bool, to: &mut Bytes) -> Result<(), AllocError> {
        let body = fill(self.alloc, names, self.moment, true, self.template.body())?;
        let footer = fill(
            self.alloc,
            names,
            self.moment,
            false,
            self.template.footer(),
        )?;
        add_filled(self.alloc, names, self.moment, self.template.header(), to)?;
        self.body = body;
        self.footer = footer;
        Ok(())
    }

    fn row(&mut self, values: &ValueList, to: &mut Bytes) -> Result<(), AllocError> {
        add_filling(&self.body, values, to)
    }

    fn count(&self, put: u64) -> u64 {
        put
    }

    fn end(&mut self, to: &mut Bytes) -> Result<(), AllocError> {
        add_filling(&self.footer, &ValueList::new(self.alloc), to)
    }

    ghost begins = { λ s fresh names rows more so_far is. tpl_begins s fresh names rows more so_far is };

    ghost whole = { λ s fresh names rows so_far once is. absurd (false≢true once) };
}
