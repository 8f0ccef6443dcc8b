// Why a row has no output.
use lp_outside::NameFault;
use lp_values::Text;

/// Why a row has no output.
#[derive(Drop)]
pub enum PlaceFault {
    /// It would be the 10,001st.
    TooManyOutputs,
    /// Its values make no name of a file.
    BadName(NameFault),
    /// Its name is one that no output may have. A text, and no `Name`: a fault is handed on for each row, and a `Name` has
    /// 512 bytes in place.
    NameClash(Text),
    Memory,
}
