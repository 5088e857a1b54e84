// Standard input, read to its end.
ghost use Rattle.std.specs.Prelude.{length};
ghost use Rattle.report.specs.Program.{Within};

use report::program::InputError;
use std::io::Read;

// What is read where the buffer is full: one read more tells.
fn when_full(input: &mut impl Read, count: usize) -> Result<usize, InputError>
    ensures { Within result count }
{
    match input.read(&mut [0u8; 1]) {
        Ok(0) => Ok(count),
        Ok(_) => Err(InputError::TooLong),
        Err(_) => Err(InputError::Failed),
    }
}

// Reads an input, standard input that is, into a buffer, and says how many bytes there are. A failed read and a full buffer are
// told apart, where `edges` takes what there is.
pub fn read_input(input: &mut impl Read, buffer: &mut [u8]) -> Result<usize, InputError>
    ensures { Within result (length buffer.new) }
{
    let mut at = 0;
    // No `for`: each read moves on by the bytes that it gives.
    while at < buffer.len() {
        match input.read(&mut buffer[at..]) {
            Ok(0) => return Ok(at),
            Ok(count) => at += count,
            Err(_) => return Err(InputError::Failed),
        }
    }
    when_full(input, at)
}
