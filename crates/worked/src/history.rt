// The calls of the worked history.
use premise::play::Call;

// A short first month that is put off, an estimate, a true-up, an estimate that a read corrects, another customer.
pub const WORKED: [Call; 9] = [
    Call::Miss { day: 108 },
    Call::Miss { day: 138 },
    Call::Read {
        day: 168,
        register: 800,
    },
    Call::Miss { day: 198 },
    Call::Read {
        day: 228,
        register: 900,
    },
    Call::Move { customer: 8 },
    Call::Miss { day: 259 },
    Call::Read {
        day: 259,
        register: 950,
    },
    Call::Read {
        day: 290,
        register: 1_000,
    },
];
