// The services on tonnage texts.
ghost use Rattle.std.specs.Prelude.{◌≡◌, true, min};
ghost use Rattle.refusals.specs.Outcome.{outcome};
ghost use Rattle.tonnage.specs.Text.{laid, magnitude, too_large};
ghost use Rattle.tonnage.specs.Services.{read_text, wrote, write_text};

use crate::{digits, figure, form};
use refusals::{Reason, Refusal};

// The largest size of a figure with a minus, and of one without.
const LOWEST: u64 = 9223372036854775808;

const HIGHEST: u64 = 9223372036854775807;

// The size of a text that is laid out well; BEYOND for all that is as large or larger.
fn size(text: &[u8]) -> u64
    requires { laid text.now ≡ true }
    ensures { result ≡ min too_large (magnitude text.now) }
{
    let start = form::start(text);
    let point = text.len() - form::TAIL;
    let whole = digits::follow(text, start, point, 0);
    digits::follow(text, point + 1, text.len(), whole)
}

// Reads a text: refusals 18 and 19.
pub fn read_tonnage(text: &[u8]) -> Result<i64, Refusal>
    ensures { outcome result ≡ read_text text.now }
{
    if !form::laid(text) {
        return Err(Reason::TextForm.at(0));
    }
    let minus = form::minus(text);
    let size = size(text);
    if minus {
        if size == 0 {
            return Err(Reason::TextForm.at(0));
        }
        if size > LOWEST {
            return Err(Reason::TextRange.at(0));
        }
    } else if size > HIGHEST {
        return Err(Reason::TextRange.at(0));
    }
    Ok(figure::with_sign(minus, size))
}

// Writes a text to the front of a buffer: refusal 20.
pub fn write_tonnage(text: &mut [u8], kilograms: i64) -> Result<usize, Refusal>
    ensures { wrote result text.new ≡ write_text text.old kilograms }
{
    let parts = figure::split(kilograms);
    let start = if parts.minus { 1 } else { 0 };
    let width = digits::width(parts.tonnes);
    let point = start + width;
    let length = point + form::TAIL;
    if text.len() < length {
        return Err(Reason::TextBuffer.at(0));
    }
    if parts.minus {
        text[0] = b'-';
    }
    digits::put(text, start, width, parts.tonnes);
    text[point] = b',';
    digits::put(text, point + 1, 3, parts.rest);
    Ok(length)
}
