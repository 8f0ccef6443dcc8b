//! Output by a template: a header, a body for each row, and a footer.
//!
//! To the crates above: [`Template::read`] answers exactly the sections that bytes hold, or the first fault; [`Tpl`] is a
//! `Shape` of `output_formats`, exact against the text of a template over all rows. After each row what was appended is the
//! whole text so far, apart from the footer.
#![tactic(auto)]

mod fault;
mod filling;
mod mark;
mod marking;
mod placed;
mod reading;
mod section;
mod tagging;
mod template;
mod tpl;
mod words;

pub use fault::TemplateFault;
pub use filling::{Filling, Part};
pub use mark::{FoundMark, Mark};
pub use placed::{Found, Kind, Placed, Tag};
pub use section::Section;
pub use template::Template;
pub use tpl::Tpl;
