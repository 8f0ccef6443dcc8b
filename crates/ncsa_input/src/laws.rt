// Laws on the definitions. These functions do no work: their contracts are the laws.
ghost use Rattle.std.specs.Prelude.{◌≡◌, ◌≢◌, ◌↔◌, ℕ, List, [], ◌∷◌, length, replicate, Option};
ghost use Rattle.lp_model.specs.Reading.{Columns, Slots, passed, bad, rows};
ghost use Rattle.ncsa_input.specs.Form.{NcsaParts, IsNcsaLine, ncsa_row};
ghost use Rattle.ncsa_input.specs.Lines.{ncsa_reading};

/// A line that gives rows has the form of the common log format, of the combined one or of that with a cookie; it gives one
/// row, and the slots are those of its parts.
pub fn lines_that_are_read_are_formed()
    ensures { (line : List ℕ) (columns : Option Columns) (found : List Slots) → ncsa_reading line columns ≡ rows found → (parts : NcsaParts) × (IsNcsaLine line parts × (found ≡ ncsa_row parts ∷ [])) }
{}

/// A line of that form is read as the row of its parts.
pub fn formed_lines_are_read()
    ensures { (line : List ℕ) (columns : Option Columns) (parts : NcsaParts) → IsNcsaLine line parts → ncsa_reading line columns ≡ rows (ncsa_row parts ∷ []) }
{}

/// A line has the parts of one such form.
pub fn lines_are_parted_in_one_way()
    ensures { (line : List ℕ) (a b : NcsaParts) → IsNcsaLine line a → IsNcsaLine line b → a ≡ b }
{}

/// A line of spaces alone, or of nothing, is passed, and no other line is; any other that hasn't that form is bad.
pub fn other_lines_are_passed_or_bad()
    ensures passed { (line : List ℕ) (columns : Option Columns) → ncsa_reading line columns ≡ passed ↔ (line ≡ replicate (length line) 32) }
    ensures bad { (line : List ℕ) (columns : Option Columns) → line ≢ replicate (length line) 32 → ((parts : NcsaParts) → IsNcsaLine line parts → ⊥) → ncsa_reading line columns ≡ bad }
{}
