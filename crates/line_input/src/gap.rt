// The parts of a line that stand apart.
ghost use Rattle.std.specs.Prelude.{◌≡◌, ◌≤◌, MatchOption, length, drop, []};
ghost use Rattle.std.specs.List.{position_or_len, prefix_len};
ghost use Rattle.line_input.specs.Words.{is_word_gap};
ghost use Rattle.line_input.specs.Parts.{is_gap, parts_by, IsNextPart};

use crate::Extent;
use lp_values::bytes_from;

/// The bytes that part a line.
#[derive(Clone, Copy, Debug, PartialEq, Eq)]
pub enum Gap {
    /// Spaces.
    Spaces,
    /// Spaces and tabs.
    Blanks,
    /// What parts words: tabs, vertical tabs, form feeds, carriage returns and spaces.
    Words,
}

fn is_word_gap(byte: u8) -> bool
    ensures { result ≡ is_word_gap byte }
{
    matches!(byte, b'\t' | 0x0B | 0x0C | b'\r' | b' ')
}

impl Gap {
    /// Whether a byte parts a line.
    #[inline]
    pub fn is_gap(self, byte: u8) -> bool
        ensures { result ≡ is_gap self byte }
    {
        match self {
            Gap::Spaces => byte == b' ',
            Gap::Blanks => byte == b' ' || byte == b'\t',
            Gap::Words => is_word_gap(byte),
        }
    }

    /// How many bytes at the front part a line.
    #[inline]
    pub fn gap_length(self, bytes: &[u8]) -> usize
        ensures length { result ≡ prefix_len (is_gap self) bytes.now }
        ensures fits { result ≤ length bytes.now }
    {
        let mut count = 0;
        for byte in bytes {
            if !self.is_gap(*byte) {
                return count;
            }
            count += 1;
        }
        count
    }

    /// How many bytes at the front part no line.
    #[inline]
    pub fn part_length(self, bytes: &[u8]) -> usize
        ensures length { result ≡ position_or_len (is_gap self) bytes.now }
        ensures fits { result ≤ length bytes.now }
    {
        let mut count = 0;
        for byte in bytes {
            if self.is_gap(*byte) {
                return count;
            }
            count += 1;
        }
        count
    }

    /// The next part of a line from a place on.
    #[inline]
    pub fn next_part(self, line: &[u8], at: usize) -> Option<Extent>
        requires { at ≤ length line.now }
        ensures { MatchOption result (parts_by (is_gap self) (drop at line.now) ≡ []) (IsNextPart (is_gap self) line.now at) }
    {
        let from = at + self.gap_length(bytes_from(line, at));
        let length = self.part_length(bytes_from(line, from));
        if length == 0 {
            return None;
        }
        Some(Extent {
            from,
            to: from + length,
        })
    }
}
