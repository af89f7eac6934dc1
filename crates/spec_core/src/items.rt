// Numbers of the items that a specification declares.

/// A sort's number in a signature, from 0.
#[derive(Clone, Copy, Debug, PartialEq, Eq)]
pub struct Sort(pub u32);

/// An operation's number in a signature, from 0.
#[derive(Clone, Copy, Debug, PartialEq, Eq)]
pub struct Op(pub u32);

/// A gate's number. The gates of the specification's heading come first, from 0, in their order.
#[derive(Clone, Copy, Debug, PartialEq, Eq)]
pub struct Gate(pub u32);
