// What is wrong with an input.
use std::alloc::AllocError;
use std::fmt::Display;
use thiserror::Error;

// Something on a line, which counts from 1, or no memory for the input.
#[derive(Clone, Copy, PartialEq, Eq, Debug, Error)]
#[error_bound(W: Display)]
pub enum Fault<W> {
    #[error("line {0}: {1}")]
    Line(usize, W),
    #[error("there is not enough memory")]
    Memory(#[from(alloc)] AllocError),
}

#[cfg(test)]
mod tests {
    use super::*;
    use std::alloc::Global;
    use std::process::Abort;
    use std::test::Fail;

    fn told(rt: &(impl Abort + AllocGlobal), fault: Fault<u8>, text: &str) -> Result<(), Fail> {
        let heap: Global = rt.alloc();
        assert!(rt; format!(in heap; "{fault}")?.as_str() == text);
        Ok(())
    }

    #[test]
    fn tells(rt: HostRuntime) -> Result<(), Fail> {
        told(&rt, Fault::Line(7, 3), "line 7: 3")?;
        told(&rt, Fault::from(AllocError), "there is not enough memory")
    }
}
