// What outputs gain one after the other they gain together.
ghost use Rattle.std.specs.Prelude.{◌++◌, ℕ, List};
ghost use Rattle.lp_outside.specs.declared.stage.Mark.{Mark};
ghost use Rattle.lp_outside.specs.Gained.{Gained};

use crate::Stage;

/// What an output gains up to a second moment and then up to a third it gains from the first to the third.
pub fn gains_add<G: Stage>(first: &G, second: &G, third: &G)
    ensures { (output : ℕ) (name : List ℕ) (base : ℕ) (from at to : Mark) (one two : List ℕ) → Gained output name base from at one (G.state first.now) (G.state second.now) → Gained output name base at to two (G.state second.now) (G.state third.now)
        → Gained output name base from to (one ++ two) (G.state first.now) (G.state third.now) }
{
    let _first = first;
    let _second = second;
    let _third = third;
}
