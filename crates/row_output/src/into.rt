// Where the rows of a query are to go.
use command_words::FileMode;
use multiplex::Outputs;

/// Where the rows of a query are to go.
#[derive(Drop)]
pub enum Into {
    Standard,
    /// To files of these names, of which none was placed yet; and what becomes of a file that holds bytes.
    Files(Outputs, FileMode),
}
