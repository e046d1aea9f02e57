// The listing: a header, then a line for each order of which a value is not zero, and for order 1 always.
ghost use Rattle.std.specs.Prelude.{◌≡◌, ◌≤◌, ◌++◌, drop, length};
ghost use Rattle.refusals.specs.Answers.{answer_of};
ghost use Rattle.listing.specs.Listing.{listing_text, listing_room, listing_answer, listing_exit};

use crate::LISTING_ROOM;
use crate::order_line::{LINE_LENGTH, OrderLine};
use lists::number_at;
use refusals::{Refusal, refuse_if};
use rows::ORDER_COUNT;

// The names of the columns, each right-justified in its own.
const HEADER: &[u8] = b"  h       group    subgroup    smoothed\n";

// The values come as three rows, as a C caller and a reading hold them.
// Fills the buffer with the listing of the 40 orders' values, and answers the count of its bytes. Values that are missing count as 0, and those after
// the 40th are not looked at. Refused: 14 a buffer shorter than 1,640 bytes.
#[tactic(auto, unfolding(crate::specs::Listing::listing_refusal, crate::specs::Listing::listing_exit))]
pub fn fill_listing(
    group: &[u32],
    subgroup: &[u32],
    smoothed: &[u32],
    buffer: &mut [u8],
) -> Result<usize, Refusal>
    ensures value { answer_of result ≡ listing_answer buffer.old group.now subgroup.now smoothed.now }
    ensures buffer_after { buffer.new ≡ listing_exit buffer.old group.now subgroup.now smoothed.now }
{
    refuse_if(buffer.len() < LISTING_ROOM, Refusal::WrongBufferLength)?;
    Ok(put_listing(group, subgroup, smoothed, buffer))
}

// Puts the listing to the front of the buffer, and answers the count of its bytes.
#[tactic(auto, unfolding(crate::specs::Listing::listing_text))]
fn put_listing(group: &[u32], subgroup: &[u32], smoothed: &[u32], buffer: &mut [u8]) -> usize
    requires { listing_room ≤ length buffer.old }
    ensures value { result ≡ length (listing_text group.now subgroup.now smoothed.now) }
    ensures buffer_after { buffer.new ≡ listing_text group.now subgroup.now smoothed.now ++ drop result buffer.old }
{
    let (header, _) = buffer.split_at_mut(LINE_LENGTH);
    header.copy_from_slice(HEADER);
    let mut end = LINE_LENGTH;
    for i in 0..ORDER_COUNT {
        let line = OrderLine {
            order: i as u32 + 1,
            group: number_at(group, i),
            subgroup: number_at(subgroup, i),
            smoothed: number_at(smoothed, i),
        };
        end = line.put(buffer, end);
    }
    end
}
