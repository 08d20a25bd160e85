// The number that a refused call returns, for each fault.

// A dial has 4 to 8 digits.
pub const DIGITS: u8 = 1;

// A day is at most 36,524, which is 31 December 2099.
pub const DAY: u8 = 2;

// A register stands below the dial's turn.
pub const REGISTER: u8 = 3;

// A customer is not 0.
pub const CUSTOMER: u8 = 4;

// A book has 1 to 240 places.
pub const PLACES: u8 = 5;

// A field is a number of 32 bits or a rate's name.
pub const FIELD: u8 = 6;

// A line begins with a known letter, and has as many fields as its letter takes.
pub const LINE: u8 = 7;

// A section begins with its count, and has as many lines.
pub const COUNT: u8 = 8;

// A sheet has at most 8,192 bytes, and none after its last section.
pub const SHEET: u8 = 9;

// A listing may not fit: its buffer has 16,384 bytes or more, and it is of at most 240 answers and 240 entries.
pub const LISTING: u8 = 10;

// The book is not as long as at the opening, or has an entry in use that no call writes.
pub const BOOK: u8 = 11;

// A period ends 1 to 99 days after the day last closed.
pub const PERIOD: u8 = 12;

// All places of the book are in use.
pub const FULL: u8 = 13;

// The method has no answer.
pub const NO_ANSWER: u8 = 14;

// The open sum and the estimate reach the dial's turn.
pub const PAST_DIAL: u8 = 15;

// A customer moves while entries are open.
pub const OPEN_ENTRIES: u8 = 16;

// A customer moves to the same premise.
pub const SAME_CUSTOMER: u8 = 17;

// A day has 24 or 96 slots.
pub const SLOTS: u8 = 21;

// A list of intervals is 1 to 35 whole days of the calendar.
pub const WHOLE_DAYS: u8 = 22;

// A reference day has a value for each slot, each at most 1,000,000 Wh.
pub const REFERENCE: u8 = 23;

// Holidays rise strictly.
pub const HOLIDAYS: u8 = 24;

// An interval is valid or missing, a valid one has at most 1,000,000 Wh, and a total at most 1,000,000,000 Wh.
pub const READINGS: u8 = 25;

// There is a missing interval to fill.
pub const NONE_MISSING: u8 = 26;

// The valid intervals come to no more than the total.
pub const OVER_TOTAL: u8 = 27;

// There is something to share out, and no record that takes part has a weight.
pub const NO_WEIGHT: u8 = 28;

// A total, a weight that takes part, or a list is beyond the limits of sharing out.
pub const SHARING_LIMITS: u8 = 29;

// A fixed basis, or the limit of a judgement, is beyond its bounds.
pub const BOUNDS: u8 = 30;

// A demand book has at most 240 entries.
pub const DEMAND_BOOK: u8 = 31;

// A question has below 100,000,000 kWh, an end day of the calendar, and 1 to 109 usage days.
pub const FIGURES: u8 = 32;
