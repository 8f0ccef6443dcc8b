// Which calls of an object fail.
ghost use Rattle.std.specs.Prelude.{◌≡◌, ◌++◌, OnErr, OnOk};
ghost use Rattle.memory_outside.specs.Schedule.{is_due, IsFresh, IsSame, Passes, Adds};

use std::alloc::{AllocError, Global};

/// How many calls were made, and the numbers of those that are to fail.
#[derive(Drop)]
pub struct Schedule {
    pub calls: u64,
    named: Vec<u64>,
}

impl Schedule {
    pub fn new(alloc: Global) -> Self
        ensures { IsFresh result }
    {
        Schedule {
            calls: 0,
            named: Vec::new(alloc),
        }
    }

    /// That call from now, counted from 0, is to fail. An `Err` changes nothing.
    pub fn fail(&mut self, call: u64) -> Result<(), AllocError>
        ensures ok { OnOk result (Adds self.old self.new call) }
        ensures err { OnErr result (IsSame self.old self.new) }
    {
        self.named.push(self.calls.saturating_add(call))?;
        Ok(())
    }

    /// Whether the next call is to fail. It is then past.
    pub fn pass(&mut self) -> bool
        ensures due { result ≡ is_due self.old }
        ensures passes { Passes self.old self.new }
    {
        let due = self.named.iter().any(|call| *call == self.calls);
        self.calls = self.calls.saturating_add(1);
        due
    }
}
