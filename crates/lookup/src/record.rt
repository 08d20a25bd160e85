// What a record of a book tells when it is looked up.
ghost use Rattle.std.specs.Prelude.{◌≡◌, ℕ};

use measures::entry::Entry;

// A record of a period, which belongs to the month of its last day.
pub trait TellsEndDay {
    // its last day
    ghost ends: { Self → ℕ };

    fn end_day(&self) -> u32
        ensures { result ≡ ends self.now };
}

pub trait TellsCustomer: TellsEndDay {
    // the customer that it was billed to
    ghost billed: { Self → ℕ };

    fn customer(&self) -> u32
        ensures { result ≡ billed self.now };
}

pub trait TellsUse {
    // its usage days
    ghost used: { Self → ℕ };

    // the kWh of those days
    ghost metered: { Self → ℕ };

    fn usage_days(&self) -> u16
        ensures { result ≡ used self.now };

    fn kwh(&self) -> u32
        ensures { result ≡ metered self.now };
}

impl TellsEndDay for Entry {
    ghost ends = { λ e. e.end_day };

    fn end_day(&self) -> u32 {
        u32::from(self.end_day)
    }
}

impl TellsCustomer for Entry {
    ghost billed = { λ e. e.customer };

    fn customer(&self) -> u32 {
        self.customer
    }
}

impl TellsUse for Entry {
    ghost used = { λ e. e.usage_days };

    ghost metered = { λ e. e.kwh };

    fn usage_days(&self) -> u16 {
        u16::from(self.usage_days)
    }

    fn kwh(&self) -> u32 {
        self.kwh
    }
}
