// The words of a line.
use anyhow::anyhow;
use desk::numbers::{list_of, numbers_of};
use fields::rate::rate_of;
use measures::rate::Rate;
use std::alloc::Global;

// What is wrong with a case that asks nothing the program knows.
pub fn wrong() -> anyhow::Error {
    anyhow!("the case cannot be read")
}

// A line of so many numbers.
pub fn numbers_in<const N: usize>(line: &str) -> anyhow::Result<[u32; N]> {
    numbers_of::<N>(line.as_bytes()).ok_or_else(wrong)
}

// A line of any number of numbers, none where it is empty.
pub fn some_numbers(heap: Global, line: &str) -> anyhow::Result<Vec<u32>> {
    list_of(heap, line.as_bytes())?.ok_or_else(wrong)
}

// The rate of that name.
pub fn rate_in(name: &str) -> anyhow::Result<Rate> {
    rate_of(name.as_bytes()).ok_or_else(wrong)
}
