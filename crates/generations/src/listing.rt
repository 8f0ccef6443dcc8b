// A file of a log.
use lp_outside::Name;

/// A file to read, and the identity of its log.
#[derive(Drop)]
pub struct ListedFile {
    pub name: Name,
    pub identity: Name,
}
