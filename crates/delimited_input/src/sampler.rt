// The kinds of columns, judged from the first rows.
ghost use Rattle.std.specs.Prelude.{◌≡◌, ◌∷◌, ◌++◌, [], List, IfOk, OnOk, OnErr, map, replicate};
ghost use Rattle.std.specs.List.{enumerate_from};
ghost use Rattle.delimited_input.specs.Kinds.{Row, column_text, kinds_of};
ghost use Rattle.delimited_input.specs.Sampled.{new_tally, tally_with, kind_seen, StandsFor};

use crate::tally::Tally;
use lp_time::Pattern;
use lp_values::{Kind, ListOf, TextList};
use std::alloc::{AllocError, Global};
use std::marker::Model;

pub type KindList = ListOf<Kind>;

/// Judges the kinds of columns from the first rows.
#[derive(Drop)]
pub struct KindSampler<'a> {
    limit: u32,
    pattern: &'a Pattern,
    met: bool,
    left: u32,
    tallies: Vec<Tally>,
}

impl<'a> Model for KindSampler<'a> {
    ghost use Rattle.std.specs.Prelude.{length};
    ghost use Rattle.delimited_input.specs.Sampled.{Sampled};

    ghost Value = { Sampled };

    ghost view = { λ s. record { columns = length s.tallies.items; limit = s.limit; pattern = s.pattern.now; met = s.met; left = s.left; tallies = s.tallies.items } };
}

// What no text tells of so many columns.
fn new_tallies(alloc: Global, columns: usize) -> Result<Vec<Tally>, AllocError>
    ensures { IfOk result (λ tallies. tallies.items ≡ replicate columns new_tally) }
{
    let mut tallies = Vec::new(alloc);
    for _ in 0..columns {
        tallies.push(Tally::new())?;
    }
    Ok(tallies)
}

// A row's text in a column.
fn column_text(row: &TextList, column: usize) -> &str
    ensures { result.now ≡ column_text column row.now }
{
    match row.get(column) {
        Some(text) => text.as_str(),
        None => "",
    }
}

// Takes a row into the tallies.
fn take_row(tallies: &mut [Tally], pattern: &Pattern, row: &TextList)
    ensures { tallies.new ≡ map (λ column. tally_with pattern.now column.1 (column_text column.0 row.now)) (enumerate_from 0 tallies.old) }
{
    for column in 0..tallies.len() {
        tallies[column] = tallies[column].with(pattern, column_text(row, column));
    }
}

// The kind of a column, which is any where no row was met.
fn kind_of(met: bool, tally: Tally) -> Kind
    ensures { result ≡ kind_seen met tally }
{
    if met { tally.kind() } else { Kind::Any }
}

impl<'a> KindSampler<'a> {
    /// Judges from at most `limit` rows; times are read by the pattern.
    pub fn new(
        alloc: Global,
        columns: usize,
        limit: u32,
        pattern: &'a Pattern,
    ) -> Result<KindSampler<'a>, AllocError>
        ensures columns { IfOk result (λ sampler. sampler.columns ≡ columns) }
        ensures limit { IfOk result (λ sampler. sampler.limit ≡ limit) }
        ensures pattern { IfOk result (λ sampler. sampler.pattern ≡ pattern.now) }
        ensures stands { IfOk result (λ sampler. StandsFor sampler []) }
    {
        let tallies = new_tallies(alloc, columns)?;
        Ok(KindSampler {
            limit,
            pattern,
            met: false,
            left: limit,
            tallies,
        })
    }

    /// Takes the next row; an empty text is a missing field.
    pub fn add(&mut self, row: &TextList) -> Result<(), AllocError>
        ensures columns { self.new.columns ≡ self.old.columns }
        ensures limit { self.new.limit ≡ self.old.limit }
        ensures pattern { self.new.pattern ≡ self.old.pattern }
        ensures stands { OnOk result ((rows : List Row) → StandsFor self.old rows → StandsFor self.new (rows ++ row.now ∷ [])) }
        ensures err { OnErr result (self.new ≡ self.old) }
    {
        self.met = true;
        if self.left == 0 {
            return Ok(());
        }
        self.left -= 1;
        take_row(self.tallies.as_mut_slice(), self.pattern, row);
        Ok(())
    }

    /// The kind of each column.
    pub fn kinds(&self, alloc: Global) -> Result<KindList, AllocError>
        ensures { IfOk result (λ kinds. (rows : List Row) → StandsFor self.now rows → kinds ≡ kinds_of self.now.columns self.now.pattern self.now.limit rows) }
    {
        let mut kinds = KindList::new(alloc);
        for tally in &self.tallies {
            kinds.push(kind_of(self.met, *tally))?;
        }
        Ok(kinds)
    }
}
