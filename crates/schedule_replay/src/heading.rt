// What a trace is of.

/// Where the choices of a trace come from.
#[derive(Clone, Copy, Debug, PartialEq, Eq)]
pub enum Heading {
    /// Each instance in turn.
    Run,
    /// The schedule of the document.
    Replay,
}
