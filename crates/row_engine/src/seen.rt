// A value where it stands, or as it was made.
ghost use Rattle.std.specs.Prelude.{◌≡◌, unwrap_or, option_copied, IfOk};
ghost use Rattle.lp_values.specs.declared.value.Value.TheVariants.{Null};
ghost use Rattle.row_engine.specs.Seen.{seen_value};

use lp_values::Value;
use std::alloc::{AllocError, Global};

/// A value in a row. What stands there isn't copied.
#[derive(Drop)]
pub enum Seen<'a> {
    There(&'a Value),
    Made(Value),
}

impl<'a> Seen<'a> {
    /// The value that stands there, or NULL.
    pub fn of(value: Option<&'a Value>) -> Seen<'a>
        ensures { seen_value result ≡ unwrap_or (option_copied value.entry) Null }
    {
        match value {
            None => Seen::Made(Value::Null),
            Some(value) => Seen::There(value),
        }
    }

    pub fn get(&self) -> &Value
        ensures { result.now ≡ seen_value self.now }
    {
        match self {
            Seen::There(value) => *value,
            Seen::Made(value) => value,
        }
    }

    /// The value as one's own.
    pub fn into_value(self, alloc: Global) -> Result<Value, AllocError>
        ensures { IfOk result (λ value. value ≡ seen_value self.entry) }
    {
        match self {
            Seen::There(value) => value.copy(alloc),
            Seen::Made(value) => Ok(value),
        }
    }
}
