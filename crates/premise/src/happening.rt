// What was called on a premise's file, and what was answered.

#[derive(Clone, Copy, PartialEq, Eq, Debug)]
pub enum Happening {
    // A read of the register on a day: the kind and kWh of its entry, and how many entries it corrected.
    Read(u32, u32, Result<(u8, u32, u8), u8>),
    // A miss on a day: the kind, rung and kWh of its entry.
    Miss(u32, Result<(u8, u8, u32), u8>),
    // A move to another customer.
    Move(u32, Result<(), u8>),
}
