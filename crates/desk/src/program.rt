// How a program runs that takes one input and prints one output.
ghost use Rattle.std.specs.Prelude.{◌≡◌, ◌≤◌, List, ℕ, Ok};
ghost use Rattle.std.specs.Fn.{FnOnceReturnsAt};
ghost use Rattle.std.specs.Process.{exit_status};

use std::convert::AsSlice;
use std::fmt::Display;
use std::io;
use std::io::Read;
use std::process::ExitCode;

// Hands standard input to a job, and prints all that it answers; or, where anything is wrong, one line on standard error.
// No more is read than shows that an input is too long.
pub fn run<T: AsSlice<u8> + Drop, E: Display + Drop, F: FnOnce(&[u8]) -> Result<T, E>>(
    rt: &HostRuntime,
    most_bytes: usize,
    job: F,
) -> ExitCode
    requires { F.IsAlwaysCallable job }
    ensures status { exit_status result ≤ 1 }
    ensures answer { exit_status result ≡ 0 → (input : List ℕ) × (output : T) × FnOnceReturnsAt F.FnOnce job input (Ok output) }
{
    let input = match input_of(rt, most_bytes) {
        Ok(input) => input,
        Err(e) => return failed(rt, e),
    };
    let output = match job(input.as_slice()) {
        Ok(output) => output,
        Err(fault) => return failed(rt, fault),
    };
    match rt.stdout().write_all(output.as_slice()) {
        Ok(()) => ExitCode::SUCCESS,
        Err(e) => failed(rt, e),
    }
}

fn input_of(rt: &HostRuntime, most_bytes: usize) -> io::Result<Vec<u8>> {
    let mut input = Vec::new(rt.alloc());
    rt.stdin()
        .take((most_bytes as u64).saturating_add(1))
        .read_to_end(&mut input)?;
    Ok(input)
}

// Where the line cannot be written, the status alone tells of the fault.
fn failed<E: Display + Drop>(rt: &HostRuntime, fault: E) -> ExitCode
    ensures { exit_status result ≡ 1 }
{
    let _ = eprintln!(rt; "{fault}");
    ExitCode::FAILURE
}

#[cfg(test)]
mod tests {
    use super::*;

    fn ended(rt: &HostRuntime, outcome: Result<&'static [u8], u8>) -> ExitCode {
        run(rt, 7, |_| outcome)
    }

    // A job that answers ends well, one that is at fault does not.
    #[test]
    fn ends(rt: HostRuntime) {
        assert_eq!(rt; ended(&rt, Ok(b"")), ExitCode::SUCCESS);
        assert_eq!(rt; ended(&rt, Err(9)), ExitCode::FAILURE);
    }
}
