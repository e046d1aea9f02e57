// The listing, for callers in other languages.
ghost use Rattle.std.specs.Prelude.{◌≡◌, length, IfOk};
ghost use Rattle.listing.specs.Listing.{listing_text};
ghost use Rattle.exported_answers.specs.CallRefusals.{call_refusal_of};
ghost use Rattle.exported_text.specs.ListingCall.{listing_call_refusal, listing_call_exit, listing_call_count_exit};

use exported_answers::{CallRefusal, check_word_count, hand_over};
use rows::ORDER_COUNT;

// Fills the buffer with the listing of three rows that are lent as words, and answers the count of its bytes.
#[tactic(auto, using(exported_answers::proofs::Handed::own_fault_first, exported_answers::proofs::Handed::library_next, refusals::proofs::Results::refused_is_no_acceptance), unfolding(crate::specs::ListingCall::listing_call_refusal, crate::specs::ListingCall::listing_call_exit, listing::specs::Listing::listing_exit))]
fn fill_listing(
    group: &[u32],
    subgroup: &[u32],
    smoothed: &[u32],
    buffer: &mut [u8],
) -> Result<u64, CallRefusal>
    ensures refusal { call_refusal_of result ≡ listing_call_refusal group.now subgroup.now smoothed.now buffer.old }
    ensures accepted { IfOk result (λ count. count ≡ length (listing_text group.now subgroup.now smoothed.now)) }
    ensures buffer_after { buffer.new ≡ listing_call_exit group.now subgroup.now smoothed.now buffer.old }
{
    check_word_count(group.len(), ORDER_COUNT)?;
    check_word_count(subgroup.len(), ORDER_COUNT)?;
    check_word_count(smoothed.len(), ORDER_COUNT)?;
    Ok(listing::fill_listing(group, subgroup, smoothed, buffer)? as u64)
}

// Writes the listing of the 40 orders' values and the count of its bytes.
#[tactic(auto, using(exported_answers::proofs::Handed::handed_over), unfolding(crate::specs::ListingCall::listing_call_count_exit))]
pub fn kifsang_fill_listing(
    group: &[u32],
    subgroup: &[u32],
    smoothed: &[u32],
    buffer: &mut [u8],
    written: &mut u64,
) -> u32
    ensures value { result ≡ listing_call_refusal group.now subgroup.now smoothed.now buffer.old }
    ensures buffer_after { buffer.new ≡ listing_call_exit group.now subgroup.now smoothed.now buffer.old }
    ensures written_after { written.new ≡ listing_call_count_exit group.now subgroup.now smoothed.now buffer.old written.old }
{
    hand_over(fill_listing(group, subgroup, smoothed, buffer), written)
}
