// Reads pages from standard input, plans and commits them over 1024 absent keys, and prints the listing.
#![tactic(auto)]

mod stdin;

ghost use Rattle.std.specs.Prelude.{◌≡◌, length};
ghost use Rattle.lists.specs.Tables.{filled};
ghost use Rattle.report.specs.Program.{Within, start, told};

use ledger::{StateMut, layout};
use report::program;
use report::program::InputError;
use std::io;

// Says on standard error why nothing is listed: the program ends with status 0 all the same.
fn complain(rt: &impl Eprint, why: &str) {
    let _ = rt.eprint(why);
}

// Writes a text to standard output.
fn show(rt: &(impl Print + Eprint), text: &[u8]) {
    if rt.write_all(text).is_err() {
        complain(rt, "listing: standard output failed\n");
    }
}

// Reads standard input into a page buffer, fills a text buffer with what is due for it over 1024 absent keys, and writes that
// to standard output; gives what was read.
fn run(
    rt: &(impl io::Input + Print + Eprint),
    page: &mut [u8],
    text: &mut [u8],
) -> Result<usize, InputError>
    ensures within { Within result (length page.new) }
    ensures text_after { text.new ≡ filled (told result page.new start text.old) text.old }
{
    // The arrays as document 01 names them.
    let mut blocks = [0u32; 1024];
    let mut places = [layout::NO_PLACE; 1024];
    let mut values = [0i64; 1024];
    let read = stdin::read_input(&mut rt.reader(), page);
    let mut state = StateMut {
        blocks: &mut blocks,
        places: &mut places,
        values: &mut values,
    };
    let count = program::answer(read, page, &mut state, text);
    if let Err(InputError::Failed) = read {
        complain(rt, "listing: standard input failed\n");
    } else {
        show(rt, &text[..count]);
    }
    read
}

fn main(rt: HostRuntime) {
    // The array as document 01 names it.
    let mut page = [0u8; 32768];
    let mut text = [0u8; report::LISTING_ROOM];
    let _ = run(&rt, &mut page, &mut text);
}
