//! What each signal needs of the netlists that it is bound to.

/// What a signal does with its net.
#[derive(Clone, Copy, Debug, PartialEq, Eq)]
pub enum Role {
    /// It has no net.
    Nothing,
    /// It is the clock, and drives its net where it can.
    Clock,
    /// It drives an input.
    Input,
    /// It shows an output.
    Output,
    /// It drives an input, or else shows an output.
    Either,
}

/// What a signal needs of each netlist: its own name, its role, and the name of its net, none where it is left free.
#[derive(Drop)]
pub struct Pin<'a> {
    pub name: &'a [u8],
    pub role: Role,
    pub net: Option<&'a [u8]>,
}
