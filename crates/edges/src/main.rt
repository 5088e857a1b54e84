// Runs the cases that tools/edges.py writes on the seven services. A line for each service says how many came out right; a line
// before it names the first that did not, and one behind it says so where the input is not whole.
#![tactic(auto)]

mod cases;
mod given;
mod packed;
mod readers;
mod services;

ghost use Rattle.std.specs.Prelude.{◌≤◌, length};
ghost use Rattle.std.specs.Counts.{IsPrefixLen};

use cases::Case;
use services::{SERVICES, Service};
use std::io::Read;

// The bytes of a packed case's size, which stands before it; after the last case of a service it is 0.
const SIZE: usize = 4;

// The most bytes of a case, and of the input.
const MOST: usize = 81920;

const MOST_INPUT: usize = 786432;

// Writes how many cases of a service came out right.
fn show(rt: &impl Print, service: Service, right: u64, all: u64) {
    let name = service.name();
    let _ = println!(rt; "{name}: {right} of {all}");
}

// Says which case came out wrong, by its number and its sentence.
fn show_wrong(rt: &impl Print, number: u64, case: &Case<'_>) {
    let _ = print!(rt; "not right is case {number}: ");
    let _ = rt.write_all(case.sentence());
    let _ = rt.println("");
}

// Unpacks a case and runs it; where it comes out wrong it is shown under a number, if one is given.
fn run_packed(rt: &impl Print, service: Service, packed: &[u8], shown: Option<u64>) -> bool {
    let mut buffer = [0u8; MOST];
    let case = Case::new(packed::unpack(packed, &mut buffer).unwrap_or(&[]));
    let right = service.run(&case);
    if !right && let Some(number) = shown {
        show_wrong(rt, number, &case);
    }
    right
}

// Runs the cases of a service at the front of an input, and gives what is behind them.
fn run_service<'a>(rt: &impl Print, input: &'a [u8], service: Service) -> &'a [u8]
    ensures { length result.now ≤ length input.now }
{
    let mut rest = input;
    let mut right = 0u64;
    let mut all = 0u64;
    // No `for`: each case says how long it is.
    while let Some((size, behind)) = rest.split_first_chunk::<SIZE>() {
        let size = u32::from_le_bytes(*size) as usize;
        if size == 0 {
            show(rt, service, right, all);
            return behind;
        }
        let Some((packed, next)) = behind.split_at_checked(size) else {
            break;
        };
        let number = all.saturating_add(1);
        let shown = if right == all { Some(number) } else { None };
        if run_packed(rt, service, packed, shown) {
            right = right.saturating_add(1);
        }
        all = number;
        rest = next;
    }
    show(rt, service, right, all);
    let _ = rt.println("there the input breaks off");
    &[]
}

// Runs the cases of all seven services.
fn run_all(rt: &impl Print, input: &[u8]) {
    let mut rest = input;
    for service in SERVICES {
        rest = run_service(rt, rest, service);
    }
    if !rest.is_empty() {
        let _ = rt.println("the input does not end there");
    }
}

// Reads an input until the buffer is full, the input ends or a read fails, and gives the bytes.
fn read_full<'a>(input: &mut impl Read, buffer: &'a mut [u8]) -> &'a [u8]
    ensures { IsPrefixLen (length result.now) buffer.old }
{
    let mut at = 0;
    // No `for`: each read moves on by the bytes that it gives.
    while let Ok(count) = input.read(&mut buffer[at..])
        && count > 0
    {
        at += count;
    }
    &buffer[..at]
}

// Reads standard input into a buffer and runs it; of an input that is too long a part is missing, which is said.
fn main(rt: HostRuntime) {
    let mut buffer = [0u8; MOST_INPUT];
    run_all(&rt, read_full(&mut rt.reader(), &mut buffer));
}
