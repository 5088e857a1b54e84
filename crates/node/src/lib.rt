// The services for other languages, in C's terms: lists one by one, words, and arrays for a transaction. Each promise is that of
// the service below it. The crate `node_c` exports them.
#![tactic(auto)]

ghost use Rattle.std.specs.Prelude.{◌≡◌};
ghost use Rattle.tonnage.specs.Services.{write_text};
ghost use Rattle.ledger.specs.Services.{write_page};
ghost use Rattle.ledger.specs.State.{state_of};
ghost use Rattle.ledger.specs.Commit.{commit_batch};
ghost use Rattle.planning.specs.Plan.{plan_batch};
ghost use Rattle.planning.specs.Joined.{plan_and_commit};
ghost use Rattle.refusals.specs.Outcome.{number_of, outcome};
ghost use Rattle.node.specs.Word.{upper, word};
ghost use Rattle.node.specs.Lent.{lent_tx, page_left, text_left, written_left, put_left, commit_left, plan_left, joined_left};

use ledger::page::{check, counts, fill, write};
use ledger::{Page, State, StateMut, layout};
use refusals::Refusal;

mod arrays;

// What a refusal's number counts in a word: the place has the 32 bits below.
const NUMBER: u64 = 4294967296;

// A refusal as a word: the number above, the place below. No `From`: neither type is of this crate.
fn refused(r: Refusal) -> u64
    ensures { result ≡ upper (number_of r.reason) r.place }
{
    (r.reason.number() as u64) * NUMBER + r.place as u64
}

// An answer as a word. No `From`, for the same reason.
fn answered(a: Result<usize, Refusal>) -> u64
    ensures { result ≡ word (outcome a) }
{
    match a {
        Ok(count) => count as u64,
        Err(refusal) => refused(refusal),
    }
}

// Plans a batch: verdicts, order and out are filled as document 01 says.
pub fn nevolisca_plan(
    batch: &[u8],
    blocks: &[u32],
    places: &[u16],
    values: &[i64],
    n: u32,
    verdicts: &mut [u8],
    order: &mut [u8],
    out: &mut [u8],
) -> u64
    ensures { let s = state_of blocks.now places.now values.now in
        record { word = result; verdicts = verdicts.new; order = order.new; out = out.new }
        ≡ plan_left (plan_batch batch.now s n verdicts.old order.old
        out.old) }
{
    let state = State {
        blocks,
        places,
        values,
    };
    answered(planner::plan::plan_batch(batch, state, n, verdicts, order, out))
}

// Commits a batch: the state and the verdicts are filled.
pub fn nevolisca_commit(
    batch: &[u8],
    blocks: &mut [u32],
    places: &mut [u16],
    values: &mut [i64],
    n: u32,
    verdicts: &mut [u8],
) -> u64
    ensures { let s = state_of blocks.old places.old values.old in
        let left = state_of blocks.new places.new values.new in
        record { word = result; state = left; verdicts = verdicts.new }
        ≡ commit_left (commit_batch batch.now s n verdicts.old) }
{
    let mut state = StateMut {
        blocks,
        places,
        values,
    };
    answered(ledger::commit::commit_batch(batch, &mut state, n, verdicts))
}

// Plans a batch and commits the kept pages: the state, the verdicts and the order are filled.
pub fn nevolisca_plan_and_commit(
    batch: &[u8],
    blocks: &mut [u32],
    places: &mut [u16],
    values: &mut [i64],
    n: u32,
    verdicts: &mut [u8],
    order: &mut [u8],
) -> u64
    ensures { let s = state_of blocks.old places.old values.old in
        let left = state_of blocks.new places.new values.new in
        record { word = result; state = left; verdicts = verdicts.new; order = order.new }
        ≡ joined_left (plan_and_commit batch.now s n verdicts.old order.old) }
{
    let mut state = StateMut {
        blocks,
        places,
        values,
    };
    answered(planner::joined::plan_and_commit(batch, &mut state, n, verdicts, order))
}

// Reads a tonnage text.
pub fn nevolisca_read_tonnage(text: &[u8], kilograms: &mut i64) -> u64
    ensures { record { word = result; kilograms = kilograms.new } ≡ text_left text.now kilograms.old }
{
    match tonnage::text::read_tonnage(text) {
        Ok(value) => {
            *kilograms = value;
            0
        }
        Err(refusal) => refused(refusal),
    }
}

// Writes a tonnage text to the front of a buffer.
pub fn nevolisca_write_tonnage(text: &mut [u8], kilograms: i64) -> u64
    ensures { record { word = result; text = text.new } ≡ written_left (write_text text.old kilograms) }
{
    answered(tonnage::text::write_tonnage(text, kilograms))
}

// Reads a page into a transaction's arrays.
pub fn nevolisca_read_page(
    page: &[u8],
    head: &mut [u32; 3],
    read_keys: &mut [u16; layout::MOST_ENTRIES],
    read_places: &mut [u16; layout::MOST_ENTRIES],
    read_blocks: &mut [u32; layout::MOST_ENTRIES],
    write_keys: &mut [u16; layout::MOST_ENTRIES],
    write_kinds: &mut [u16; layout::MOST_ENTRIES],
    write_values: &mut [i64; layout::MOST_ENTRIES],
) -> u64
    ensures { record {
      word = result;
      arrays = record {
        head = head.new;
        read_keys = read_keys.new;
        read_places = read_places.new;
        read_blocks = read_blocks.new;
        write_keys = write_keys.new;
        write_kinds = write_kinds.new;
        write_values = write_values.new;
      };
    }
        ≡ page_left page.now (record {
          head = head.old;
          read_keys = read_keys.old;
          read_places = read_places.old;
          read_blocks = read_blocks.old;
          write_keys = write_keys.old;
          write_kinds = write_kinds.old;
          write_values = write_values.old;
        }) }
{
    match check::check_page(page) {
        Ok(counts) => {
            let page = Page { bytes: page };
            *head = [counts.reads, counts.writes, page.ticket()];
            *read_keys = [0u16; layout::MOST_ENTRIES];
            *read_places = [0u16; layout::MOST_ENTRIES];
            *read_blocks = [0u32; layout::MOST_ENTRIES];
            arrays::fill_reads(page, read_keys, read_places, read_blocks);
            *write_keys = [0u16; layout::MOST_ENTRIES];
            *write_kinds = [0u16; layout::MOST_ENTRIES];
            *write_values = [0i64; layout::MOST_ENTRIES];
            arrays::fill_writes(page, write_keys, write_kinds, write_values);
            0
        }
        Err(refusal) => refused(refusal),
    }
}

// Writes a transaction's arrays as the page at an index of a batch.
pub fn nevolisca_write_page(
    batch: &mut [u8],
    index: usize,
    head: &[u32; 3],
    read_keys: &[u16; layout::MOST_ENTRIES],
    read_places: &[u16; layout::MOST_ENTRIES],
    read_blocks: &[u32; layout::MOST_ENTRIES],
    write_keys: &[u16; layout::MOST_ENTRIES],
    write_kinds: &[u16; layout::MOST_ENTRIES],
    write_values: &[i64; layout::MOST_ENTRIES],
) -> u64
    ensures { record { word = result; batch = batch.new }
        ≡ put_left (write_page batch.old index
        (lent_tx (record {
          head = head.now;
          read_keys = read_keys.now;
          read_places = read_places.now;
          read_blocks = read_blocks.now;
          write_keys = write_keys.now;
          write_kinds = write_kinds.now;
          write_values = write_values.now;
        }))) }
{
    let r = arrays::count(head[0]);
    let w = arrays::count(head[1]);
    if let Err(refusal) = counts::count_fault(r, w) {
        return refused(refusal);
    }
    let mut laid = [0u8; layout::PAGE];
    fill::put_head(&mut laid, r, w, head[2]);
    arrays::lay_reads(&mut laid, read_keys, read_places, read_blocks, r);
    arrays::lay_writes(
        &mut laid,
        layout::writes_at(r),
        write_keys,
        write_kinds,
        write_values,
        w,
    );
    let page = Page { bytes: &laid };
    match write::write_laid(batch, index, page) {
        Ok(()) => 0,
        Err(refusal) => refused(refusal),
    }
}
