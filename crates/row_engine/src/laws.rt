// A law on likeness. This function does no work: its contract is the law.
ghost use Rattle.std.specs.Prelude.{◌↔◌, ℕ, List, IsTrue};
ghost use Rattle.text_functions.specs.Likes.{Likes};
ghost use Rattle.row_engine.specs.Likeness.{is_like};

/// The law that the test of LIKE, by which the truth of conditions is defined, holds of exactly the texts that are like
/// the pattern.
#[tactic(auto, using(crate::proofs::Likeness::tells))]
pub fn like_tells_likeness()
    ensures { (pattern text : List ℕ) → IsTrue (is_like pattern text) ↔ Likes pattern text }
{}
