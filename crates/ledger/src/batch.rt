// The gate of a batch, stage by stage: each finds the first fault of its part of the table, and knows of no other.
ghost use Rattle.std.specs.Prelude.{◌≡◌, [], ◌∷◌, ℕ, ◌*◌, ◌≤◌, ◌<◌, length, get_or, eqb};
ghost use Rattle.lists.specs.Search.{found_in, some_in};
ghost use Rattle.refusals.specs.Fault.{clear, first, finding, in_turn};
ghost use Rattle.ledger.specs.Page.{page_at, page_tx, page_fault};
ghost use Rattle.ledger.specs.State.{lent};
ghost use Rattle.ledger.specs.Gate.{pages, tx_at, rows_at, beyond, bytes_row, lent_row, front_rows, pages_rows, gate_rows};
ghost use Rattle.ledger.specs.Inner.{TicketsOf};

use crate::page::{check, content};
use crate::{Page, State, layout};
use refusals::{Reason, Refusal};

// 11: a batch that is too long, or not of whole pages.
fn length_fault(batch: &[u8]) -> Result<(), Refusal>
    ensures { finding result ≡ first (bytes_row batch.now ∷ []) }
{
    if batch.len() > layout::MOST_BYTES {
        return Err(Reason::BatchLength.at(0));
    }
    if batch.len() % layout::PAGE != 0 {
        return Err(Reason::BatchLength.at(0));
    }
    Ok(())
}

// 11, 12 and 13: the length of the batch, then the state.
fn front_fault(batch: &[u8], state: State<'_>, n: u32) -> Result<(), Refusal>
    ensures { finding result ≡ first (front_rows batch.now (lent state.entry) n) }
{
    length_fault(batch)?;
    state.fault(n)
}

// 2 to 10: the lowest bad page, with its first number, at the byte of the batch.
fn page_fault(batch: &[u8]) -> Result<(), Refusal>
    requires { length batch.now ≤ 32768 }
    ensures { finding result ≡ first (in_turn (pages batch.now) (rows_at batch.now)) }
{
    for (i, bytes) in batch.chunks_exact(layout::PAGE).enumerate() {
        let check = check::check_page(bytes);
        let Err(refusal) = check else {
            continue;
        };
        return Err(refusal.reason.at((i * layout::PAGE) as u32 + refusal.place));
    }
    Ok(())
}

// Fills the first tickets with those of the pages. Stored by index: a `zip` with `iter_mut` closes no proof, and a walk over the
// tickets would take the pages by index.
fn fill_tickets(batch: &[u8], tickets: &mut [u32])
    requires { pages batch.now ≤ length tickets.old }
    ensures { TicketsOf batch.now (pages batch.now) tickets.new }
{
    for (i, bytes) in batch.chunks_exact(layout::PAGE).enumerate() {
        tickets[i] = content::ticket(bytes);
    }
}

// Whether one of the tickets is `ticket`. All are compared, and none ends the loop, so it is vector code.
fn among(tickets: &[u32], ticket: u32) -> bool
    ensures { result ≡ some_in (λ j. eqb (get_or tickets.now j 0) ticket) 0 (length tickets.now) }
{
    let mut found = false;
    for other in tickets {
        found |= *other == ticket;
    }
    found
}

// 15: the first ticket that stands earlier too.
fn first_again(tickets: &[u32]) -> Option<usize>
    ensures { result
        ≡ found_in (λ i. some_in (λ j. eqb (get_or tickets.now j 0) (get_or tickets.now i 0)) 0 i) 0
        (length tickets.now) }
{
    for (i, ticket) in tickets.iter().enumerate() {
        if among(&tickets[..i], *ticket) {
            return Some(i);
        }
    }
    None
}

// Whether a good page has a key that is not below `keys`: as its keys rise, the last ones tell.
fn reaches_beyond(page: Page<'_>, keys: usize) -> bool
    requires { page_fault page.bytes.now ≡ clear }
    ensures { result ≡ beyond keys (page_tx page.entry.bytes.now) }
{
    let r = page.reads();
    if r > 0 && page.read(r - 1).key as usize >= keys {
        return true;
    }
    let w = page.writes();
    w > 0 && page.write(w - 1).key as usize >= keys
}

// 16: the lowest page with a key that is not below `keys`.
fn first_beyond(batch: &[u8], keys: usize) -> Option<usize>
    requires { (i : ℕ) → i < pages batch.now → page_fault (page_at batch.now i) ≡ clear }
    ensures { result ≡ found_in (λ i. beyond keys (tx_at batch.now i)) 0 (pages batch.now) }
{
    for (i, bytes) in batch.chunks_exact(layout::PAGE).enumerate() {
        if reaches_beyond(Page { bytes }, keys) {
            return Some(i);
        }
    }
    None
}

// 2 to 10, then 15, then 16: the pages, their tickets, their keys.
fn pages_fault(
    batch: &[u8],
    tickets: &[u32; layout::MOST_PAGES],
    keys: usize,
) -> Result<(), Refusal>
    requires batch_len_bound { length batch.now ≤ 32768 }
    requires tickets_of { TicketsOf batch.now (pages batch.now) tickets.now }
    ensures { finding result ≡ first (pages_rows batch.now keys) }
{
    let m = batch.len() / layout::PAGE;
    page_fault(batch)?;
    if let Some(again) = first_again(&tickets[..m]) {
        return Err(Reason::TicketAgain.at(again as u32));
    }
    if let Some(beyond) = first_beyond(batch, keys) {
        return Err(Reason::KeyBeyondState.at(beyond as u32));
    }
    Ok(())
}

// The whole gate: 11 to 13, then 14 where a service says that what it is lent is too short, then the pages. Where it finds
// nothing it leaves their tickets.
pub fn gate_fault(
    batch: &[u8],
    state: State<'_>,
    n: u32,
    short: bool,
    tickets: &mut [u32; layout::MOST_PAGES],
) -> Result<(), Refusal>
    ensures result_value { finding result ≡ first (gate_rows (lent_row short ∷ []) batch.now (lent state.entry) n) }
    ensures tickets_of { finding result ≡ clear → TicketsOf batch.now (pages batch.now) tickets.new }
{
    front_fault(batch, state, n)?;
    if short {
        return Err(Reason::LentTooShort.at(0));
    }
    fill_tickets(batch, tickets);
    pages_fault(batch, tickets, state.keys())
}
