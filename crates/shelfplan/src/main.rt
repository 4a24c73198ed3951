// Lists the IVF film on standard input: how much film it holds, or what refused it and where.

#![tactic(auto)]

ghost use Rattle.std.specs.Prelude.{◌≤◌, length};

use listing::fault::MAX_INPUT;
use listing::list::listing;
use std::io;
use std::io::Read;

// One byte more than an input may have, so that a longer one is seen.
const CAPACITY: usize = MAX_INPUT + 1;

// What comes from standard input, in the front of the buffer. A read that fails counts as the end. The memory is
// fixed, so the bytes are counted here: no want of memory can pass for a read that failed.
fn read_input<'a>(rt: &HostRuntime, buffer: &'a mut [u8]) -> &'a [u8]
    ensures { length result.now ≤ length buffer.old }
{
    let mut filled = 0;
    let mut input = rt.stdin();
    while filled < buffer.len() {
        match input.read(&mut buffer[filled..]) {
            Ok(0) | Err(_) => break,
            Ok(n) => filled += n,
        }
    }
    &buffer[..filled]
}

fn main(rt: HostRuntime) -> io::Result<()> {
    let mut buffer = [0u8; CAPACITY];
    for row in listing(read_input(&rt, &mut buffer)) {
        rt.print(row)?;
    }
    Ok(())
}
