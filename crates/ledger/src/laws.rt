// How a ledger's text is read.
ghost use Rattle.std.specs.Prelude.{◌≡◌, ◌≢◌, ℕ, List, [], ◌∷◌, ◌++◌};
ghost use Rattle.std.specs.List.{AllByRecursion};
ghost use Rattle.ledger_model.specs.Entries.{Entry};
ghost use Rattle.ledger_model.specs.Grammar.{IsEntry, payload_of, BreaksPayload};
ghost use Rattle.ledger_model.specs.Ledgers.{Pair, IsPair, IsLedger, BreaksLedger, front_of};

/// A payload is that of one entry, and no payload begins another. Bytes that are no payload break at one place, and a payload
/// breaks nowhere.
pub fn payloads_are_read_in_one_way()
    ensures one { (a b : Entry) → IsEntry a → IsEntry b → payload_of a ≡ payload_of b → a ≡ b }
    ensures no_front { (a b : Entry) (more : List ℕ) → IsEntry a → IsEntry b → payload_of a ++ more ≡ payload_of b → more ≡ [] }
    ensures apart { (entry : Entry) (place : ℕ) → IsEntry entry → BreaksPayload (payload_of entry) place → ⊥ }
    ensures place { (payload : List ℕ) (p q : ℕ) → BreaksPayload payload p → BreaksPayload payload q → p ≡ q }
{}

/// A ledger's bytes hold one list of entries, or break at one place, and not both. What stands behind a closed gate decides
/// nothing.
pub fn ledgers_are_read_in_one_way()
    ensures one { (ledger : List ℕ) (ps qs : List Pair) → IsLedger ledger ps → IsLedger ledger qs → ps ≡ qs }
    ensures apart { (ledger : List ℕ) (pairs : List Pair) (place : ℕ) → IsLedger ledger pairs → BreaksLedger ledger place → ⊥ }
    ensures place { (ledger : List ℕ) (p q : ℕ) → BreaksLedger ledger p → BreaksLedger ledger q → p ≡ q }
    ensures behind { (pairs : List Pair) (gate done : ℕ) (rest : List ℕ) → AllByRecursion IsPair pairs → gate ≢ 165 → IsLedger (front_of pairs ++ (gate ∷ (done ∷ rest))) pairs }
{}
