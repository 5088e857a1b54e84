// The listing's text, filled into a lent buffer.
#![tactic(auto)]

mod lines;
pub mod program;
mod put;

ghost use Rattle.std.specs.Prelude.{◌≡◌, length};
ghost use Rattle.ledger.specs.State.{lent};
ghost use Rattle.lists.specs.Tables.{filled};
ghost use Rattle.report.specs.Listing.{listed, refused};

use ledger::{State, layout};
use put::Text;

// The bytes that the line of a refusal fits into, and those that any listing does.
const REFUSAL_ROOM: usize = 64;

pub const LISTING_ROOM: usize = 65536;

// Fills a buffer with the line of a refusal, and gives its length. A number, and no `Reason`: the promise is on any number.
pub fn fill_refusal(out: &mut [u8], number: u32, place: u32) -> usize
    ensures value { result ≡ length (refused out.old number place) }
    ensures out_after { out.new ≡ filled (refused out.old number place) out.old }
{
    if out.len() < REFUSAL_ROOM {
        return 0;
    }
    let mut text = Text::new(out);
    lines::put_refusal(&mut text, number, place);
    text.end
}

// Fills a buffer with the listing of what plan and commit left, and gives its length. `kept` stands beside the order, since a
// count past its end is answered too, with nothing.
pub fn fill_listing(
    out: &mut [u8],
    n: u32,
    batch: &[u8],
    verdicts: &[u8],
    order: &[u8],
    kept: usize,
    state: State<'_>,
) -> usize
    ensures result_value { result
        ≡ length (listed out.old n batch.now verdicts.now order.now kept
        (lent state.entry)) }
    ensures out_after { out.new
        ≡ filled (listed out.old n batch.now verdicts.now order.now kept
        (lent state.entry)) out.old }
{
    let m = batch.len() / layout::PAGE;
    if out.len() < LISTING_ROOM || batch.len() > layout::MOST_BYTES || verdicts.len() < m {
        return 0;
    }
    if kept > order.len() || kept > layout::MOST_PAGES {
        return 0;
    }
    if state.has_wrong_lengths() {
        return 0;
    }
    let mut text = Text::new(out);
    lines::put_header(&mut text, n, m as u32, kept as u32);
    lines::put_pages(&mut text, batch, verdicts, &order[..kept]);
    lines::put_keys(&mut text, state);
    text.end
}
