// What placing has to do with splitting: no calls, laws alone.
ghost use Rattle.std.specs.Prelude.{◌≡◌, ◌<◌, ℕ, List, [], ◌∷◌, ◌==◌, length, map, filter, take, drop, slice_get, Some};
ghost use Rattle.lp_values.specs.declared.value.Value.{Value};
ghost use Rattle.multiplex.specs.Naming.{stars};
ghost use Rattle.multiplex.specs.Splitting.{OutputRows, output_names, row_name, split};
ghost use Rattle.multiplex.specs.Placing.{Numbering, index_among, StandFor};

/// Outputs that stand for the values of some rows have the names of what these rows are split into, in order. A pattern without
/// stars is placed once before any row, since it has its output without rows too.
pub fn names_are_of_split()
    ensures stars { (outputs : Numbering) (rows : List (List Value)) → 0 < stars outputs.pattern → StandFor outputs (map (take (stars outputs.pattern)) rows)
        → map (λ (o : OutputRows). o.name) (split outputs.pattern rows) ≡ outputs.names }
    ensures plain { (outputs : Numbering) (rows : List (List Value)) → stars outputs.pattern ≡ 0 → StandFor outputs ([] ∷ map (take (stars outputs.pattern)) rows)
        → map (λ (o : OutputRows). o.name) (split outputs.pattern rows) ≡ outputs.names }
{}

/// The rows of the output of an index are exactly those whose names have that index, in order, without the values of the name.
pub fn rows_are_those_placed()
    ensures { (pattern : List ℕ) (rows : List (List Value)) (index : ℕ) (output : OutputRows) → slice_get (split pattern rows) index ≡ Some output
        → output.rows ≡ map (drop (stars pattern)) (filter (λ row. index_among (output_names pattern rows) (row_name pattern row) == index) rows) }
{}
