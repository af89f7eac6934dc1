// Formats of traces.

/// A format of the text of a log.
#[derive(Clone, Copy, Debug, PartialEq, Eq)]
pub enum Format {
    /// Each line stands for itself.
    One,
    /// Neighbouring trees share the front of their texts, up to each 64th action.
    Two,
}
