// What subqueries gave.
ghost use Rattle.std.specs.Prelude.{◌≡◌, ◌==◌, ◌+◌, ◌++◌, IfOk, OnOk, map, option_map};
ghost use Rattle.std.specs.List.{find};
ghost use Rattle.grammar.specs.Filled.{bad_in, given_at, logs_in};
ghost use Rattle.query_tree.specs.Views.{given_of, placed_given};

use in_set::InSet;
use lp_values::{Kind, ListOf, TextList};
use std::alloc::{AllocError, Global};
use std::rc::Rc;

/// What a subquery gave, once it was run.
#[derive(Drop)]
pub struct Given {
    /// The place of the subquery's expression, in bytes.
    pub place: u32,
    /// The kind of that expression.
    pub kind: Kind,
    /// Its values in the records that the subquery keeps.
    pub values: Rc<InSet>,
    /// The names of the logs that the subquery read.
    pub logs: Rc<TextList>,
    /// How many bad lines these have.
    pub bad: u64,
}

/// What was given for the IN at a place.
#[derive(Drop)]
pub struct PlacedGiven {
    pub at: u32,
    pub given: Given,
}

pub type GivenList = ListOf<PlacedGiven>;

/// Places in a query, in bytes.
pub type PlaceList = ListOf<u32>;

impl Given {
    /// The same again. Its values stay where they are.
    pub fn share(&self) -> Result<Given, AllocError>
        ensures { IfOk result (λ given. given_of given ≡ given_of self.now) }
    {
        Ok(Given {
            place: self.place,
            kind: self.kind,
            values: Rc::clone(&self.values)?,
            logs: Rc::clone(&self.logs)?,
            bad: self.bad,
        })
    }
}

/// What was given for the IN at a place, or none.
pub(crate) fn given_at(givens: &[PlacedGiven], at: u32) -> Result<Option<Given>, AllocError>
    ensures { IfOk result (λ given. option_map given_of given ≡ given_at (map placed_given givens.now) at) }
{
    match find_given(givens, at) {
        None => Ok(None),
        Some(one) => Ok(Some(one.given.share()?)),
    }
}

// The first for this place.
fn find_given(givens: &[PlacedGiven], at: u32) -> Option<&PlacedGiven>
    ensures { option_map (λ one. one.now) result ≡ find (λ one. one.at == at) givens.now }
{
    givens.iter().find(|one| one.at == at)
}

/// Adds the names of the logs that a subquery read.
pub(crate) fn add_logs_in(
    alloc: Global,
    given: &Option<Given>,
    names: &mut TextList,
) -> Result<(), AllocError>
    ensures { OnOk result (names.new ≡ names.old ++ logs_in (option_map given_of given.now)) }
{
    match given {
        None => Ok(()),
        Some(given) => add_texts(alloc, &given.logs, names),
    }
}

// Adds copies of texts.
fn add_texts(alloc: Global, texts: &TextList, to: &mut TextList) -> Result<(), AllocError>
    ensures { OnOk result (to.new ≡ to.old ++ texts.now) }
{
    for text in texts.as_slice() {
        to.push(text.copy(alloc)?)?;
    }
    Ok(())
}

/// How many bad lines the logs of a subquery have.
pub(crate) fn bad_in(given: &Option<Given>) -> u64
    ensures { result ≡ bad_in (option_map given_of given.now) }
{
    match given {
        None => 0,
        Some(given) => given.bad,
    }
}

/// The sum of two numbers, where it is one of 64 bits.
pub(crate) fn sum(left: u64, right: u64) -> Result<u64, AllocError>
    ensures { IfOk result (λ sum. sum ≡ left + right) }
{
    match left.checked_add(right) {
        Some(sum) => Ok(sum),
        None => Err(AllocError),
    }
}
