// Aliases in force.
ghost use Rattle.std.specs.Prelude.{◌≡◌, map, option_map};
ghost use Rattle.std.specs.List.{find};
ghost use Rattle.std.specs.Str.{str_eq_ignore_ascii_case};
ghost use Rattle.query_types.specs.Meanings.{Answers};
ghost use Rattle.senses.specs.Senses.{sense_of};
ghost use Rattle.sensing.specs.Sensing.{first_named, named_of, sense_named};

use lp_values::Text;
use query_types::TypeFault;
use senses::{SenseForm, copied};
use std::alloc::Global;

/// An alias as AS spells it, and what it stands for, or the fault of its expression: where aggregates may stand, and where not.
#[derive(Drop)]
pub struct SenseAlias {
    pub name: Text,
    pub wide: Result<SenseForm, TypeFault>,
    pub narrow: Result<SenseForm, TypeFault>,
}

impl SenseAlias {
    /// What it stands for.
    pub fn meant(&self, alloc: Global, wide: bool) -> Result<SenseForm, TypeFault>
        ensures { Answers sense_of result (sense_named wide (named_of self.now)) }
    {
        let sense = if wide { &self.wide } else { &self.narrow };
        match sense {
            Ok(sense) => Ok(copied(alloc, sense)?),
            Err(fault) => Err(*fault),
        }
    }
}

fn found<'a>(aliases: &'a [SenseAlias], name: &str) -> Option<&'a SenseAlias>
    ensures { option_map (λ alias. alias.now) result ≡ find (λ alias. str_eq_ignore_ascii_case alias.name name.now) aliases.now }
{
    aliases
        .iter()
        .find(|alias| alias.name.as_str().eq_ignore_ascii_case(name))
}

/// The first alias of this name, ASCII case ignored.
pub fn find_alias<'a>(aliases: &'a [SenseAlias], name: &str) -> Option<&'a SenseAlias>
    ensures { option_map (λ alias. named_of alias.now) result ≡ first_named (map named_of aliases.now) name.now }
{
    found(aliases, name)
}
