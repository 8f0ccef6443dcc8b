// Laws on occurrences. These functions do no work: their contracts are the laws.
ghost use Rattle.std.specs.Prelude.{◌≡◌, ◌<◌, ◌+◌, ◌++◌, ℕ, List, pos, Some, option_map, length};
ghost use Rattle.std.specs.Str.{IsUtf8, chars};
ghost use Rattle.text_functions.specs.Pieces.{pieces, joined, IsPartedInto, IsCutAtLast, Lacks};
ghost use Rattle.text_functions.specs.Positions.{last_place};
ghost use Rattle.text_functions.specs.Tokens.{suffix};

/// The law that the pieces of a text are the one list that parts it at its first occurrences, and that they give it back.
pub fn one_parting()
    ensures parted { (part text : List ℕ) → 0 < length part → IsPartedInto part text (pieces part text) }
    ensures one { (part text : List ℕ) (others : List (List ℕ)) → 0 < length part → IsPartedInto part text others → others ≡ pieces part text }
    ensures whole { (part text : List ℕ) → 0 < length part → joined part (pieces part text) ≡ text }
{}

/// The law that what is read backwards gives the occurrences from the right, and what stands behind each.
pub fn last_behind()
    ensures place { (part text before behind : List ℕ) → 0 < length part → IsCutAtLast part text before behind → last_place text part ≡ Some (length before) }
    ensures suffix { (part text before behind : List ℕ) → 0 < length part → IsCutAtLast part text before behind → suffix text (pos 0) part ≡ Some behind }
    ensures next { (part text before behind : List ℕ) (n : ℕ) → 0 < length part → IsCutAtLast part text before behind → suffix text (pos (n + 1)) part ≡ option_map (λ s. s ++ (part ++ behind)) (suffix before (pos n) part) }
    ensures whole { (part text : List ℕ) (n : ℕ) → 0 < length part → Lacks part text → suffix text (pos n) part ≡ Some text }
{}

/// The law that an occurrence of the bytes is one of the characters.
pub fn occurrences_of_characters()
    ensures { (text part front rest : List ℕ) → IsUtf8 text → IsUtf8 part → 0 < length part → text ≡ front ++ (part ++ rest) → chars text ≡ chars front ++ (chars part ++ chars rest) }
{}
