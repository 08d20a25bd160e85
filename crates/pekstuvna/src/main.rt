// Reads a sheet from standard input and prints its listing, or the line of its refusal.
#![tactic(auto)]

ghost use Rattle.std.specs.Prelude.{◌≡◌, IfOk};
ghost use Rattle.clerk.specs.Jobs.{sheet_listing};

use clerk::{Unlisted, list_sheet};
use desk::fault::Fault;
use listing::list::LEAST_BUFFER;
use sheets::sheet::MOST_BYTES;
use std::alloc::{AllocError, Global};
use std::convert::Infallible;
use std::process::ExitCode;

// What the program prints for the bytes of its input: the listing of a sheet, or the line of its refusal, in a lent buffer.
fn printed<'b>(
    heap: Global,
    sheet: &[u8],
    buffer: &'b mut [u8; LEAST_BUFFER],
) -> Result<&'b [u8], Fault<Infallible>>
    ensures { IfOk result (λ l. l.now ≡ sheet_listing sheet.now) }
{
    match list_sheet(heap, sheet, buffer) {
        Ok(count) => Ok(&buffer[..count]),
        Err(Unlisted::Memory) => Err(Fault::Memory(AllocError)),
        Err(Unlisted::Buffer) => unreachable(),
    }
}

fn main(rt: HostRuntime) -> ExitCode {
    let mut buffer = [0; LEAST_BUFFER];
    desk::program::run(
        &rt,
        MOST_BYTES,
        |sheet| printed(rt.alloc(), sheet, &mut buffer),
    )
}
