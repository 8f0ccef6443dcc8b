//! The generations of a log whose rotated files are numbered.
//!
//! To the crates above: [`numbers_there`], the numbers of all rotated files of a stem that are there, found by one call;
//! [`is_live`], whether the stem's own file is; [`first_of`] and [`last_of`], which of them are to be read; and
//! [`known_generation_of`], the number of an identity among the generations of a stem.
#![tactic(auto)]

mod listing;
mod number;
mod range;
mod stems;
mod there;

pub use listing::ListedFile;
pub use number::{generation_of, known_generation_of};
pub use range::{first_of, generation_name, last_of, least_of};
pub use stems::is_live;
pub use there::{Numbers, ThereFault, numbers_there};
