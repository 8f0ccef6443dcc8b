// Runs of a pattern: characters without `%` and `_`, which are found by their bytes.
ghost use Rattle.std.specs.Prelude.{◌≡◌, ◌<◌, ◌≤◌, ◌↔◌, ℕ, IsTrue, length, take, map, MatchOption};
ghost use Rattle.std.specs.Char.{to_ascii_lowercase};
ghost use Rattle.byte_masks.specs.Places.{is_in};
ghost use Rattle.text_functions.specs.Runs.{StandsAt, StandsNowhere, IsFirstStand, IsRun, LacksRun, IsBehindFirst, EndsWithRun};

use byte_masks::{ByteSet, Pairs};
use lp_values::{bytes_from, bytes_to};
use memchr::{memchr2, memmem};

// A run of more bytes is searched for by its small letters, so that the time grows with the text alone.
const SHORT_RUN: usize = 256;

// The most bytes that such a run has.
const LONG_RUN: usize = 65_536;

// How many bytes of a text are searched at once for such a run.
const WINDOW: usize = 131_072;

// The characters of a pattern up to its first `%`.
#[derive(Drop)]
pub(crate) enum Run<'p> {
    // There is a `_` among them.
    Blank,
    // They are the whole pattern.
    Last(&'p str),
    // What stands before the `%`, and what stands behind it.
    Between(&'p str, &'p str),
}

pub(crate) fn first_run(pattern: &str) -> Run
    ensures { IsRun pattern.now result }
{
    match memchr2(b'%', b'_', pattern.as_bytes()) {
        None => Run::Last(pattern),
        Some(place) => {
            if pattern.as_bytes()[place] == b'_' {
                return Run::Blank;
            }
            Run::Between(pattern.split_at(place).0, pattern.split_at(place + 1).1)
        }
    }
}

/// What stands behind the first place at which a run stands, in either case of a letter of ASCII.
pub(crate) fn behind_run<'t>(text: &'t str, run: &str) -> Option<&'t str>
    requires { 0 < length run.now }
    ensures { MatchOption result (LacksRun run.now text.now) (λ behind. IsBehindFirst run.now text.now behind.now) }
{
    match find_stand(text.as_bytes(), run.as_bytes()) {
        Some(place) => Some(text.split_at(place + run.len()).1),
        None => None,
    }
}

/// Whether a run stands at the end of a text.
pub(crate) fn ends_with_run(text: &str, run: &str) -> bool
    ensures { IsTrue result ↔ EndsWithRun run.now text.now }
{
    if text.len() < run.len() {
        return false;
    }
    stands_at(text.as_bytes(), text.len() - run.len(), run.as_bytes())
}

// The first place at which a run stands.
fn find_stand(text: &[u8], run: &[u8]) -> Option<usize>
    requires { 0 < length run.now }
    ensures { MatchOption result (StandsNowhere run.now text.now) (IsFirstStand run.now text.now) }
{
    if run.len() > SHORT_RUN && run.len() <= LONG_RUN {
        find_long_run(text, run)
    } else {
        find_run(text, run)
    }
}

// Puts the small letters of some bytes into the front of a buffer.
fn put_small(bytes: &[u8], buffer: &mut [u8])
    requires { length bytes.now ≤ length buffer.old }
    ensures front { take (length bytes.now) buffer.new ≡ map to_ascii_lowercase bytes.now }
    ensures size { length buffer.new ≡ length buffer.old }
{
    let front = &mut buffer[..bytes.len()];
    front.copy_from_slice(bytes);
    front.make_ascii_lowercase();
}

// The first place at which a long run stands. The small letters of its bytes are searched for in those of the text, a part of it at
// a time, of which each begins where the run may stand first.
fn find_long_run(text: &[u8], run: &[u8]) -> Option<usize>
    requires some { 0 < length run.now }
    requires fits { length run.now ≤ 65_536 }
    ensures { MatchOption result (StandsNowhere run.now text.now) (IsFirstStand run.now text.now) }
{
    let mut small = [0u8; LONG_RUN];
    put_small(run, &mut small);
    let sought = bytes_to(&small, run.len());
    let mut window = [0u8; WINDOW];
    let mut at = 0;
    while at + run.len() <= text.len() {
        let size = (text.len() - at).min(WINDOW);
        put_small(bytes_to(bytes_from(text, at), size), &mut window);
        match memmem::find(bytes_to(&window, size), sought) {
            Some(place) => return Some(at + place),
            None => at += size - run.len() + 1,
        }
    }
    None
}

// The first place at which a run stands. It is found by two of its bytes, those that are likely to be met least.
fn find_run(text: &[u8], run: &[u8]) -> Option<usize>
    requires { 0 < length run.now }
    ensures { MatchOption result (StandsNowhere run.now text.now) (IsFirstStand run.now text.now) }
{
    if run.len() > text.len() {
        return None;
    }
    let (left, right) = rare_places(run);
    let mut pairs = Pairs::new(
        both_cases(run[left]),
        both_cases(run[right]),
        right - left,
        text,
        left,
    );
    while let Some(place) = pairs.next_place() {
        if stands_at(text, place - left, run) {
            return Some(place - left);
        }
    }
    None
}

// A byte in both cases, if it is a letter.
fn both_cases(byte: u8) -> ByteSet
    ensures { (other : ℕ) → (IsTrue (is_in result other) ↔ (to_ascii_lowercase other ≡ to_ascii_lowercase byte)) }
{
    ByteSet {
        first: byte.to_ascii_lowercase(),
        second: byte.to_ascii_uppercase(),
    }
}

// Whether a run stands at a place of a text, in either case of a letter of ASCII.
#[inline(always)]
fn stands_at(text: &[u8], at: usize, run: &[u8]) -> bool
    requires { at ≤ length text.now }
    ensures { IsTrue result ↔ StandsAt run.now text.now at }
{
    if text.len() - at < run.len() {
        return false;
    }
    text[at..at + run.len()].eq_ignore_ascii_case(run)
}

// The places of the two bytes of a run that are likely to be met least. Any two places would serve.
fn rare_places(run: &[u8]) -> (usize, usize)
    requires { 0 < length run.now }
    ensures order { result.0 ≤ result.1 }
    ensures within { result.1 < length run.now }
{
    let mut rarest = 0;
    let mut least = u8::MAX;
    let mut other = 0;
    let mut next = u8::MAX;
    for (place, byte) in run.iter().enumerate() {
        let here = frequency(*byte);
        if here < least {
            other = rarest;
            next = least;
            rarest = place;
            least = here;
        } else if here < next {
            other = place;
            next = here;
        }
    }
    if rarest < other {
        (rarest, other)
    } else {
        (other, rarest)
    }
}

// How often the letters are met, roughly, and what stands in their rows of ASCII.
const LETTERS: [u8; 32] = [
    3, 8, 5, 6, 6, 9, 5, 5, 5, 8, 1, 4, 6, 5, 8, 8, 5, 1, 7, 8, 8, 6, 4, 4, 2, 4, 1, 3, 3, 3, 3, 5,
];

// How often a byte is met in logs, roughly: blanks, digits and signs are as frequent as most letters.
#[inline(always)]
fn frequency(byte: u8) -> u8 {
    if byte < 64 {
        7
    } else {
        LETTERS[(byte % 32) as usize]
    }
}
