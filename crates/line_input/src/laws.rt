// Laws on the definitions. A function here does no work: its contract is the law.
ghost use Rattle.std.specs.Prelude.{◌≡◌, ◌++◌, ℕ, Bool, List};
ghost use Rattle.lp_model.specs.Lines.{lines_of};
ghost use Rattle.line_input.specs.Splitter.{Split};
ghost use Rattle.line_input.specs.Coming.{HandsLines, HandsLastLine, lines_at};

/// The law that a splitter hands out the lines of the bytes that stand where it is, one after the other, and that at a log's
/// start these are all lines of the log.
pub fn a_splitter_hands_out_lines()
    ensures next { HandsLines }
    ensures rest { HandsLastLine }
    ensures all { (split : Split) (waits : Bool) (more : List ℕ) → split.place ≡ 0 → lines_at waits 1 split more ≡ lines_of (split.left ++ more) waits }
{}
