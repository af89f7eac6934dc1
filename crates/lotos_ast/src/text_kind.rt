// Why a line of a script or of a trace is refused.

/// Why a line of a script, a trace or a certificate is refused.
#[derive(Clone, Copy, Debug, PartialEq, Eq)]
pub enum TextKind {
    /// The text is too long.
    Long,
    /// The line has none of the forms of a line.
    Form,
    /// The client's number is out of range.
    Client,
    /// The specification has no such gate.
    Gate,
    /// A sort is unknown, or isn't the one that is due.
    Sort,
    /// A term has no reading, or more than one.
    Term,
}
