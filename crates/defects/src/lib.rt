// The list of dead wires (02, M-105): its numbers, and the marks of its wires.
#![tactic(auto)]

ghost use Rattle.std.specs.Prelude.{◌≡◌, true, false, ◌≤◌, ◌<◌, replicate, IfOk, MatchResult};
ghost use Rattle.numbers.specs.declared.Refusal.TheVariants.{Repeat};
ghost use Rattle.numbers.specs.Facts.{number_of};
ghost use Rattle.defects.specs.Defects.{item_count, item_at, bad_list, repeated_item};
ghost use Rattle.defects.specs.Facts.{list_number, Marked};

use marks::CHANNELS;
use numbers::Refusal;

// The bytes of an item: channel u16, track u8.
const ITEM: usize = 3;

// The highest track that an item may name, whatever the width.
const MAX_TRACK: usize = 31;

// The channel of item k.
#[tactic(auto, unfolding(crate::specs::Defects::item_at))]
fn channel_of(d: &[u8], k: usize) -> usize
    requires { k < item_count d.now }
    ensures { result ≡ (item_at d.now k).channel }
{
    net::u16_at(d, ITEM * k)
}

// The track of item k.
#[tactic(auto, unfolding(crate::specs::Defects::item_at))]
fn track_of(d: &[u8], k: usize) -> usize
    requires { k < item_count d.now }
    ensures { result ≡ (item_at d.now k).track }
{
    net::byte_at(d, ITEM * k + 2)
}

// Whether the list is not of whole items, or has an item with no channel of the chip or a track over 31.
fn is_bad(d: &[u8], count: usize) -> bool
    ensures { result ≡ bad_list count d.now }
{
    d.len() % ITEM != 0
        || (0..d.len() / ITEM).any(|k| count <= channel_of(d, k) || MAX_TRACK < track_of(d, k))
}

// Marks the wires of a list, where every item has a channel below 480 and a track of at most 31, and no wire is marked before; 20 where a wire is
// named twice.
fn mark_items(d: &[u8], dead: &mut [u32; CHANNELS]) -> Result<(), Refusal>
    requires { (bad_list 480 d.now ≡ false) × (dead.old ≡ replicate 480 0) }
    ensures { MatchResult result
        (λ _. (repeated_item d.now ≡ false) × Marked d.now dead.new)
        (λ e. (repeated_item d.now ≡ true) × (e ≡ Repeat)) }
{
    for k in 0..d.len() / ITEM { // the items before k are marked, none of them twice
        let c = channel_of(d, k);
        let t = track_of(d, k);
        if marks::is_held(dead, c, t) {
            return Err(Refusal::Repeat);
        }
        marks::hold(dead, c, t);
    }
    Ok(())
}

// The marks of the wires of a list for a chip of `count` channels; or 19 or 20, the first that applies.
pub fn marks_of(d: &[u8], count: usize) -> Result<[u32; CHANNELS], Refusal>
    requires { count ≤ 480 }
    ensures number { number_of result ≡ list_number count d.now }
    ensures marked { IfOk result (λ m. Marked d.now m) }
{
    if is_bad(d, count) {
        return Err(Refusal::List);
    }
    let mut dead = [0u32; CHANNELS];
    mark_items(d, &mut dead)?;
    Ok(dead)
}
