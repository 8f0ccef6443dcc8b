// Where a log was left.
ghost use Rattle.std.specs.Prelude.{◌≤◌};

use line_input::Standing;
use lp_outside::Name;

/// Where a log was left, and how it stands there.
#[derive(Drop)]
pub struct Place {
    pub to: u64,
    pub standing: Standing,
    pub ghost low: { standing.lines ≤ to },
}

/// A log, and where it was left.
#[derive(Drop)]
pub(crate) struct Left {
    pub identity: Name,
    pub place: Place,
}
