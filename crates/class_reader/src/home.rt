// Where a unit stands.

/// The library to which a unit belongs (ECMA-408, 18 Libraries and Scripts).
#[derive(Clone, Copy, Debug, PartialEq, Eq)]
pub struct Home {
    /// The number of the library.
    pub library: u32,
    /// Whether the unit is a file of the user's.
    pub is_user: bool,
    /// Whether it is one of `dart:core`.
    pub is_core: bool,
}
