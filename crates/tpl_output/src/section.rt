// The sections of a template.

#[derive(Clone, Copy, Debug, PartialEq, Eq)]
pub enum Section {
    Header,
    Body,
    Footer,
}
