// The places of pairs of bytes, in order.
ghost use Rattle.std.specs.Prelude.{◌≡◌, ◌+◌, ◌-◌, ◌≤◌, ◌<◌, ℕ, List, length, take, drop, MatchOption, None};
ghost use Rattle.std.specs.List.{position_or_len};
ghost use Rattle.byte_masks.specs.Places.{are_in, pairs_of, mask_of, IsNextPlace};

use crate::ByteSet;
use crate::block::{LANES, block};
use std::marker::Model;

/// A search for a byte of a set and one of another set so far behind it.
#[derive(Drop)]
pub struct Pairs<'a> {
    first: ByteSet,
    second: ByteSet,
    apart: usize,
    bytes: &'a [u8],
    // From where the search goes on.
    at: usize,
    // Where the block begins that the mask is of.
    base: usize,
    // The hits of that block from `at` on.
    mask: u64,
}

impl<'a> Model for Pairs<'a> {
    ghost use Rattle.byte_masks.specs.Search.{PairSearch, LooksForPairs};

    ghost Value = { PairSearch };

    ghost view = { λ s. record { first = s.first; second = s.second; apart = s.apart; bytes = s.bytes.now; at = s.at } };

    ghost invariant = { λ s. LooksForPairs s.first s.second s.apart s.bytes.now s.at s.base s.mask };
}

// The mask of the pairs from a place on, 64 at most.
#[inline(always)]
fn pair_block(first: ByteSet, second: ByteSet, apart: usize, bytes: &[u8], at: usize) -> u64
    requires { at + apart ≤ length bytes.now }
    ensures { result ≡ mask_of (are_in first second) (take 64 (drop at (pairs_of apart bytes.now))) }
{
    block(first, bytes, at) & block(second, bytes, at + apart)
}

impl<'a> Pairs<'a> {
    /// A search from a place on.
    #[inline(always)]
    pub fn new(first: ByteSet, second: ByteSet, apart: usize, bytes: &'a [u8], at: usize) -> Self
        requires { at + apart ≤ length bytes.now }
        ensures first { result.first ≡ first }
        ensures second { result.second ≡ second }
        ensures apart { result.apart ≡ apart }
        ensures bytes { result.bytes ≡ bytes.now }
        ensures at { result.at ≡ at }
    {
        Pairs {
            first,
            second,
            apart,
            bytes,
            at,
            base: at,
            mask: pair_block(first, second, apart, bytes, at),
        }
    }

    /// The next place at which a byte of the first set stands, and one of the second set so far behind it.
    #[inline(always)]
    pub fn next_place(&mut self) -> Option<usize>
        ensures place { MatchOption result
            (length (drop self.old.at (pairs_of self.old.apart self.old.bytes)) ≤ position_or_len (are_in self.old.first self.old.second) (drop self.old.at (pairs_of self.old.apart self.old.bytes)))
            (λ place. IsNextPlace (are_in self.old.first self.old.second) (pairs_of self.old.apart self.old.bytes) self.old.at place × (self.new.at ≡ place + 1)) }
        ensures none { result ≡ None → self.new ≡ self.old }
        ensures first { self.new.first ≡ self.old.first }
        ensures second { self.new.second ≡ self.old.second }
        ensures apart { self.new.apart ≡ self.old.apart }
        ensures bytes { self.new.bytes ≡ self.old.bytes }
    {
        let first = self.first;
        let second = self.second;
        let apart = self.apart;
        let bytes = self.bytes;
        let mut at = self.at;
        let mut base = self.base;
        let mut mask = self.mask;
        while mask == 0 {
            if bytes.len() - apart - base <= LANES {
                return None;
            }
            base += LANES;
            at = base;
            mask = pair_block(first, second, apart, bytes, base);
        }
        let place = base + mask.trailing_zeros() as usize;
        self.at = place + 1;
        self.base = base;
        self.mask = mask & (mask - 1);
        Some(place)
    }
}
