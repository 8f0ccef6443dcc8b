// Whether a text is like a pattern.
ghost use Rattle.std.specs.Prelude.{◌≡◌, ◌↔◌, IsTrue, ◌∷◌};
ghost use Rattle.std.specs.Str.{chars};
ghost use Rattle.text_functions.specs.Likes.{Likes, stands_for};
ghost use Rattle.text_functions.specs.Fronts.{IsBehindPercent, IsFront, IsShorter, IsText};

use crate::characters::first_character;
use crate::runs::{Run, behind_run, ends_with_run, first_run};

/// Whether a text is like a pattern: `%` stands for any text, `_` for one character, every other character for itself, in
/// either case of a letter of ASCII.
pub fn like(text: &str, pattern: &str) -> bool
    ensures { IsTrue result ↔ Likes (chars pattern.now) (chars text.now) }
{
    match match_front(text, pattern) {
        Front::Whole(is_like) => is_like,
        Front::Percent(rest, behind) => like_behind_percent(rest, behind),
    }
}

// How far the characters before the first `%` of a pattern stand for the front of a text.
#[derive(Drop)]
enum Front<'t, 'p> {
    // The pattern has no `%` there, or its characters before it don't stand for the text's: this is the answer.
    Whole(bool),
    // What is left of the text, and of the pattern behind its `%`.
    Percent(&'t str, &'p str),
}

fn match_front<'t, 'p>(text: &'t str, pattern: &'p str) -> Front<'t, 'p>
    ensures meaning { IsFront (chars pattern.now) (chars text.now) result }
    ensures shorter { IsShorter pattern.now text.now result }
    ensures utf8 { IsText result }
{
    let mut rest = text;
    let mut left = pattern;
    while let Some((wanted, behind)) = first_character(left) {
        if wanted == '%' {
            return Front::Percent(rest, behind);
        }
        let Some((found, next)) = first_character(rest) else {
            return Front::Whole(false);
        };
        if !stands_for(wanted, found) {
            return Front::Whole(false);
        }
        left = behind;
        rest = next;
    }
    Front::Whole(rest.is_empty())
}

fn stands_for(wanted: char, found: char) -> bool
    ensures { result ≡ stands_for wanted found }
{
    wanted == '_' || wanted.eq_ignore_ascii_case(&found)
}

// Whether a text is like `%` with a pattern behind it. Of the texts that a `%` may stand for the shortest is enough, as
// soon as the pattern is known to stand for what follows up to its next `%`.
fn like_behind_percent(text: &str, pattern: &str) -> bool
    ensures { IsTrue result ↔ Likes (37 ∷ chars pattern.now) (chars text.now) }
{
    let mut rest = text;
    let mut left = pattern;
    loop {
        match pass_run(rest, left) {
            Front::Whole(is_like) => return is_like,
            Front::Percent(next, behind) => {
                rest = next;
                left = behind;
            }
        }
    }
}

// How far the characters before the first `%` of a pattern, with a `%` before them, stand for a text: they are searched for.
fn pass_run<'t, 'p>(text: &'t str, pattern: &'p str) -> Front<'t, 'p>
    ensures meaning { IsBehindPercent (chars pattern.now) (chars text.now) result }
    ensures shorter { IsShorter pattern.now text.now result }
    ensures utf8 { IsText result }
{
    match first_run(pattern) {
        Run::Blank => walk(text, pattern),
        Run::Last(run) => Front::Whole(ends_with_run(text, run)),
        Run::Between(run, behind) => {
            if run.is_empty() {
                return Front::Percent(text, behind);
            }
            match behind_run(text, run) {
                Some(rest) => Front::Percent(rest, behind),
                None => Front::Whole(false),
            }
        }
    }
}

// The same character by character, for a `_` among them.
fn walk<'t, 'p>(text: &'t str, pattern: &'p str) -> Front<'t, 'p>
    ensures meaning { IsBehindPercent (chars pattern.now) (chars text.now) result }
    ensures shorter { IsShorter pattern.now text.now result }
    ensures utf8 { IsText result }
{
    let mut rest = text;
    loop {
        match match_front(rest, pattern) {
            Front::Whole(true) => return Front::Whole(true),
            Front::Percent(next, behind) => return Front::Percent(next, behind),
            Front::Whole(false) => {
                let Some((_, next)) = first_character(rest) else {
                    return Front::Whole(false);
                };
                rest = next;
            }
        }
    }
}
