// The place of a row among the first ones.
ghost use Rattle.std.specs.Prelude.{◌≡◌};
ghost use Rattle.order_top.specs.Ranks.{rank_of, is_before};

use crate::comparing::compare_keys;
use lp_values::{Value, ValueList};
use std::cmp::{Ordering, Reverse};

/// The keys of a row, in the direction of the order.
#[derive(Debug, Drop, PartialEq, Eq, PartialOrd, Ord)]
pub enum Keys {
    Up(ValueList),
    Down(Reverse<ValueList>),
}

/// Keys, and behind them the place of arrival.
#[derive(Debug, Drop, PartialEq, Eq, PartialOrd, Ord)]
pub struct Rank {
    pub keys: Keys,
    pub place: u64,
}

impl Rank {
    pub fn new(descending: bool, keys: ValueList, place: u64) -> Rank
        ensures { result ≡ rank_of descending keys place }
    {
        let keys = if descending {
            Keys::Down(Reverse(keys))
        } else {
            Keys::Up(keys)
        };
        Rank { keys, place }
    }

    /// Whether a row with these keys goes before that of the rank.
    pub fn is_after(&self, keys: &[Value]) -> bool
        ensures { result ≡ is_before keys.now self.now.keys }
    {
        match &self.keys {
            Keys::Up(own) => compare_keys(keys, own.as_slice()).is_lt(),
            Keys::Down(Reverse(own)) => compare_keys(own.as_slice(), keys).is_lt(),
        }
    }
}
