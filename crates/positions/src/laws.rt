// What kept places are, and what is read from them.
ghost use Rattle.std.specs.Prelude.{◌≡◌, ℕ, List, Some};
ghost use Rattle.std.specs.List.{AllZip};
ghost use Rattle.lp_model.specs.Outside.{Folder};
ghost use Rattle.ledger_model.specs.Entries.{Entry};
ghost use Rattle.ledger_model.specs.Entries.{Span as EntrySpan};
ghost use Rattle.run_model.specs.Logs.{Rotation as Rule};
ghost use Rattle.run_model.specs.Kept.{kept_place};
ghost use Rattle.run_model.specs.Listed.{AreListed};
ghost use Rattle.log_reading.specs.declared.span.Span.{Span};
ghost use Rattle.positions.specs.Places.{Kept, Keeps, place_in};
ghost use Rattle.positions.specs.Spans.{start_of};
ghost use Rattle.positions.specs.Spanning.{AreOf, AreSpansOf};
ghost use Rattle.positions.specs.Listing.{IsTaken};

/// What entries keep of a log is its kept place, where its last span ends, and 0 where it has none.
pub fn places_are_kept_places()
    ensures { (entries : List Entry) (kept : Kept) (identity : List ℕ) → Keeps entries kept → kept_place identity entries ≡ (start_of (place_in kept.places identity)).to }
{}

/// What a run reads of the logs behind FROM, each up to the last end of a line below its cut, is what an entry of it has to
/// list.
pub fn spans_are_listed()
    ensures { (rule : Rule) (entries : List Entry) (kept : Kept) (texts : List (List ℕ)) (before now : Folder) (spans : List Span) (taken : List EntrySpan) → AreOf rule entries kept
        → (are : AreSpansOf rule kept.places entries texts (Some before) (Some now) spans) → AllZip (IsTaken now) spans taken → AreListed rule entries are.reached before now taken }
{}
