// Aliases in force.
ghost use Rattle.std.specs.Prelude.{◌≡◌, option_map, IfOk};
ghost use Rattle.query_types.specs.Meanings.{Answers, alias_named};

use crate::{Meaning, TypeFault};
use lp_values::{ListOf, Text};
use std::alloc::Global;

/// An alias as AS spells it, and what it stands for, or the fault of its expression.
#[derive(Drop)]
pub struct Alias {
    pub name: Text,
    pub meaning: Result<Meaning, TypeFault>,
}

pub type AliasList = ListOf<Alias>;

impl Alias {
    /// What it stands for.
    pub fn meant(&self, alloc: Global) -> Result<Meaning, TypeFault>
        ensures { Answers (λ meaning. meaning) result self.now.meaning }
    {
        match &self.meaning {
            Ok(meaning) => Ok(meaning.copy(alloc)?),
            Err(fault) => Err(*fault),
        }
    }
}

/// The first alias of this name, ASCII case ignored.
pub fn find_alias<'a>(aliases: &'a [Alias], name: &str) -> Option<&'a Alias>
    ensures { option_map (λ alias. alias.now) result ≡ alias_named aliases.now name.now }
{
    aliases
        .iter()
        .find(|alias| alias.name.as_str().eq_ignore_ascii_case(name))
}
