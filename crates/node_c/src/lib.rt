// The static library for C and other languages: each export is the function of `node` that has its name, with its promise. C's
// names stand in this crate alone, so that `node` stays a library that others can use.
#![tactic(auto)]

ghost use Rattle.std.specs.Prelude.{◌≡◌};
ghost use Rattle.tonnage.specs.Services.{write_text};
ghost use Rattle.ledger.specs.Services.{write_page};
ghost use Rattle.ledger.specs.State.{state_of};
ghost use Rattle.ledger.specs.Commit.{commit_batch};
ghost use Rattle.planning.specs.Plan.{plan_batch};
ghost use Rattle.planning.specs.Joined.{plan_and_commit};
ghost use Rattle.node.specs.Lent.{lent_tx, page_left, text_left, written_left, put_left, commit_left, plan_left, joined_left};

use ledger::layout;

// Plans a batch: verdicts, order and out are filled as document 01 says.
#[unsafe(no_mangle)]
pub extern "C" fn nevolisca_plan(
    batch: &[u8],
    blocks: &[u32],
    places: &[u16],
    values: &[i64],
    n: u32,
    verdicts: &mut [u8],
    order: &mut [u8],
    out: &mut [u8],
) -> u64
    ensures { let s = state_of blocks.now places.now values.now in
        record { word = result; verdicts = verdicts.new; order = order.new; out = out.new }
        ≡ plan_left (plan_batch batch.now s n verdicts.old order.old
        out.old) }
{
    node::nevolisca_plan(batch, blocks, places, values, n, verdicts, order, out)
}

// Commits a batch: the state and the verdicts are filled.
#[unsafe(no_mangle)]
pub extern "C" fn nevolisca_commit(
    batch: &[u8],
    blocks: &mut [u32],
    places: &mut [u16],
    values: &mut [i64],
    n: u32,
    verdicts: &mut [u8],
) -> u64
    ensures { let s = state_of blocks.old places.old values.old in
        let left = state_of blocks.new places.new values.new in
        record { word = result; state = left; verdicts = verdicts.new }
        ≡ commit_left (commit_batch batch.now s n verdicts.old) }
{
    node::nevolisca_commit(batch, blocks, places, values, n, verdicts)
}

// Plans a batch and commits the kept pages: the state, the verdicts and the order are filled.
#[unsafe(no_mangle)]
pub extern "C" fn nevolisca_plan_and_commit(
    batch: &[u8],
    blocks: &mut [u32],
    places: &mut [u16],
    values: &mut [i64],
    n: u32,
    verdicts: &mut [u8],
    order: &mut [u8],
) -> u64
    ensures { let s = state_of blocks.old places.old values.old in
        let left = state_of blocks.new places.new values.new in
        record { word = result; state = left; verdicts = verdicts.new; order = order.new }
        ≡ joined_left (plan_and_commit batch.now s n verdicts.old order.old) }
{
    node::nevolisca_plan_and_commit(batch, blocks, places, values, n, verdicts, order)
}

// Reads a tonnage text.
#[unsafe(no_mangle)]
pub extern "C" fn nevolisca_read_tonnage(text: &[u8], kilograms: &mut i64) -> u64
    ensures { record { word = result; kilograms = kilograms.new } ≡ text_left text.now kilograms.old }
{
    node::nevolisca_read_tonnage(text, kilograms)
}

// Writes a tonnage text to the front of a buffer.
#[unsafe(no_mangle)]
pub extern "C" fn nevolisca_write_tonnage(text: &mut [u8], kilograms: i64) -> u64
    ensures { record { word = result; text = text.new } ≡ written_left (write_text text.old kilograms) }
{
    node::nevolisca_write_tonnage(text, kilograms)
}

// Reads a page into a transaction's arrays.
#[unsafe(no_mangle)]
pub extern "C" fn nevolisca_read_page(
    page: &[u8],
    head: &mut [u32; 3],
    read_keys: &mut [u16; layout::MOST_ENTRIES],
    read_places: &mut [u16; layout::MOST_ENTRIES],
    read_blocks: &mut [u32; layout::MOST_ENTRIES],
    write_keys: &mut [u16; layout::MOST_ENTRIES],
    write_kinds: &mut [u16; layout::MOST_ENTRIES],
    write_values: &mut [i64; layout::MOST_ENTRIES],
) -> u64
    ensures { record {
      word = result;
      arrays = record {
        head = head.new;
        read_keys = read_keys.new;
        read_places = read_places.new;
        read_blocks = read_blocks.new;
        write_keys = write_keys.new;
        write_kinds = write_kinds.new;
        write_values = write_values.new;
      };
    }
        ≡ page_left page.now (record {
          head = head.old;
          read_keys = read_keys.old;
          read_places = read_places.old;
          read_blocks = read_blocks.old;
          write_keys = write_keys.old;
          write_kinds = write_kinds.old;
          write_values = write_values.old;
        }) }
{
    node::nevolisca_read_page(
        page,
        head,
        read_keys,
        read_places,
        read_blocks,
        write_keys,
        write_kinds,
        write_values,
    )
}

// Writes a transaction's arrays as the page at an index of a batch.
#[unsafe(no_mangle)]
pub extern "C" fn nevolisca_write_page(
    batch: &mut [u8],
    index: usize,
    head: &[u32; 3],
    read_keys: &[u16; layout::MOST_ENTRIES],
    read_places: &[u16; layout::MOST_ENTRIES],
    read_blocks: &[u32; layout::MOST_ENTRIES],
    write_keys: &[u16; layout::MOST_ENTRIES],
    write_kinds: &[u16; layout::MOST_ENTRIES],
    write_values: &[i64; layout::MOST_ENTRIES],
) -> u64
    ensures { record { word = result; batch = batch.new }
        ≡ put_left (write_page batch.old index
        (lent_tx (record {
          head = head.now;
          read_keys = read_keys.now;
          read_places = read_places.now;
          read_blocks = read_blocks.now;
          write_keys = write_keys.now;
          write_kinds = write_kinds.now;
          write_values = write_values.now;
        }))) }
{
    node::nevolisca_write_page(
        batch,
        index,
        head,
        read_keys,
        read_places,
        read_blocks,
        write_keys,
        write_kinds,
        write_values,
    )
}
