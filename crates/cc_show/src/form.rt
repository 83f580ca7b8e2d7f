//! The forms in which a run is shown.

/// A form of a run that is shown.
#[derive(Clone, Copy, Debug, PartialEq, Eq)]
pub enum Form {
    /// A page for a browser.
    Page,
    /// Its events as lines of JSON.
    Trace,
}
