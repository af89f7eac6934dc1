// What items are.

ghost use Rattle.std.specs.Prelude.{◌≡◌};
ghost use Rattle.type_contents.specs.Items.{is_same_kind};

/// What an item is.
#[derive(Clone, Copy, Debug, PartialEq, Eq, Hash)]
pub enum ItemKind {
    /// A sort.
    Sort,
    /// An operation that stands before its arguments.
    Prefix,
    /// An operation that stands between its two arguments.
    Infix,
}

impl ItemKind {
    /// Whether two kinds are the same. It takes no memory.
    pub fn is_same(self, other: ItemKind) -> bool
        ensures { result ≡ is_same_kind self other }
    {
        match self {
            ItemKind::Sort => match other {
                ItemKind::Sort => true,
                ItemKind::Prefix => false,
                ItemKind::Infix => false,
            },
            ItemKind::Prefix => match other {
                ItemKind::Sort => false,
                ItemKind::Prefix => true,
                ItemKind::Infix => false,
            },
            ItemKind::Infix => match other {
                ItemKind::Sort => false,
                ItemKind::Prefix => false,
                ItemKind::Infix => true,
            },
        }
    }
}
