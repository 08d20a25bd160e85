// What happens to a premise's file.

#[derive(Clone, Copy)]
pub(crate) enum Event {
    // A period was closed on a day by a read of the register.
    Read { day: u16, register: u32 },
    // A period of so many days was closed on a day without a read.
    Miss { day: u16, days: u8 },
    // Another customer lives there.
    Move { customer: u32 },
}
