//! Levels of nets and the drives that reach a die.

/// What a net shows: 0, 1, unknown or off.
#[derive(Clone, Copy, Debug, PartialEq, Eq)]
pub enum Level {
    Zero,
    One,
    X,
    Z,
}

/// What a tester's driver does to a pin. A die knows no Prior: the tester replaces it before.
#[derive(Clone, Copy, Debug, PartialEq, Eq)]
pub enum Drive {
    Down,
    Up,
    Off,
    Unknown,
}
