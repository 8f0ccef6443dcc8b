// Where a run looks for logs.
use command_words::Rotation;
use lp_values::TextList;

/// The names behind FROM, and how the logs are rotated.
#[derive(Drop)]
pub struct Sources {
    pub names: TextList,
    pub rotation: Rotation,
}
