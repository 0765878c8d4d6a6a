/// A set of sites at which a value may have been built. Functions, registers, sites and fields are
/// numbers.
#[derive(Clone, Copy, Debug, PartialEq, Eq, Hash)]
pub enum FlowSet {
    /// The set of this one site.
    Only(u32),
    /// Of the values that a register of a function holds.
    Register { function: u32, register: u32 },
    /// Of the values that a function gives.
    Result(u32),
    /// Of the values in a field of what is built at a site. Fields are numbered from 1; field 0 is
    /// for a value that may be in any of them.
    Field { site: u32, field: u32 },
    /// Of the messages.
    Message,
    /// Of what is sent or spawned with, and of what is inside it.
    Sent,
}

/// What has to be in a set.
#[derive(Clone, Copy, Debug, PartialEq, Eq)]
pub enum Inclusion {
    /// `from` is in `to`.
    Whole {
        from: FlowSet,
        to: FlowSet,
    },
    /// For each site in `base`, this field of it and its field 0 are in `to`.
    Part {
        base: FlowSet,
        field: u32,
        to: FlowSet,
    },
    /// For each site in `base`, every field of it is in `to`.
    Parts {
        base: FlowSet,
        to: FlowSet,
    },
}
