// What the listing program fills its text buffer with, for what it read.
ghost use Rattle.std.specs.Prelude.{◌≤◌, ◌≡◌, length};
ghost use Rattle.lists.specs.Tables.{filled};
ghost use Rattle.ledger.specs.State.{held, SameLists};
ghost use Rattle.report.specs.Program.{Within, done, shown, told, told_state};

use ledger::{StateMut, layout};
use refusals::Reason;

// The number that the batch is planned and committed under.
const START_NUMBER: u32 = 1;

// Why an input is not read: it is longer than the buffer, or a read failed.
#[derive(Clone, Copy, PartialEq, Eq)]
pub enum InputError {
    TooLong,
    Failed,
}

// Plans and commits an input over a state, and fills a buffer with the listing or the refusal's line; gives its length.
fn list_input(input: &[u8], state: &mut StateMut<'_>, text: &mut [u8]) -> usize
    ensures same_lists { SameLists state.old state.new }
    ensures result_value { result ≡ length (shown input.now (held state.old) text.old) }
    ensures text_after { text.new ≡ filled (shown input.now (held state.old) text.old) text.old }
    ensures left_after { held state.new ≡ (done input.now (held state.old)).state }
{
    let mut verdicts = [0u8; layout::MOST_PAGES];
    let mut order = [0u8; layout::MOST_PAGES];
    let answer = planner::joined::plan_and_commit(
        input,
        state,
        START_NUMBER,
        &mut verdicts,
        &mut order,
    );
    match answer {
        Err(refusal) => crate::fill_refusal(text, refusal.reason.number(), refusal.place),
        Ok(kept) => crate::fill_listing(
            text,
            START_NUMBER,
            input,
            &verdicts,
            &order,
            kept,
            state.lent(),
        ),
    }
}

// Fills a buffer with what is written for what was read into a page buffer, over a state; gives its length.
pub fn answer(
    read: Result<usize, InputError>,
    page: &[u8],
    state: &mut StateMut<'_>,
    text: &mut [u8],
) -> usize
    requires { Within read (length page.now) }
    ensures same_lists { SameLists state.old state.new }
    ensures upper_bound { result ≤ length text.new }
    ensures result_value { result ≡ length (told read page.now (held state.old) text.old) }
    ensures text_after { text.new ≡ filled (told read page.now (held state.old) text.old) text.old }
    ensures left_after { held state.new ≡ told_state read page.now (held state.old) }
{
    match read {
        Ok(count) => list_input(&page[..count], state, text),
        Err(InputError::TooLong) => crate::fill_refusal(text, Reason::BatchLength.number(), 0),
        Err(InputError::Failed) => 0,
    }
}
