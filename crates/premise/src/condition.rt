// What a premise's file waits for.

#[derive(Clone, Copy)]
pub enum Condition {
    // Nothing was entered since the opening or a move: the next entry is initial.
    Fresh,
    // The last entry is a read's.
    Settled,
    // One entry is open, a put-off one, whose days the next entry takes over.
    Waiting,
    // So many entries are open, and estimates among them.
    Carrying { entries: u8 },
}
