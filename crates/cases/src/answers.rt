// The lines of an answer.
use std::alloc::Global;
use std::fmt::Display;

pub(crate) fn line<T: Display + Drop>(heap: Global, shown: T) -> anyhow::Result<String> {
    Ok(format!(in heap; "{shown}\n")?)
}

pub(crate) fn line_or_none<T: Display + Drop>(
    heap: Global,
    shown: Option<T>,
) -> anyhow::Result<String> {
    match shown {
        Some(shown) => line(heap, shown),
        None => line(heap, "none"),
    }
}

pub(crate) fn line_or_refused<T: Display + Drop>(
    heap: Global,
    answer: Result<T, u8>,
) -> anyhow::Result<String> {
    match answer {
        Ok(shown) => line(heap, shown),
        Err(number) => refused(heap, number),
    }
}

pub(crate) fn refused<T: Display + Drop>(heap: Global, number: T) -> anyhow::Result<String> {
    line(heap, format_args!("N {number}"))
}

pub(crate) fn yes_or_no(yes: bool) -> &'static str {
    if yes { "yes" } else { "no" }
}
