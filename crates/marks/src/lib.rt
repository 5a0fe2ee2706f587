// Which wires are held: for each channel a mask of its tracks.
#![tactic(auto)]

ghost use Rattle.std.specs.Prelude.{◌≡◌, true, false, not, ◌+◌, ◌-◌, ◌%◌, ◌^◌, ◌≤◌, ◌<◌};
ghost use Rattle.std.specs.Int.Count.{ones};
ghost use Rattle.bounded.specs.Bounded.{count_below};
ghost use Rattle.marks.specs.Marks.{bit, held_at, holding, releasing};

// A grid has at most so many channels, and a channel at most so many tracks.
pub const CHANNELS: usize = 480;

pub const TRACKS: usize = 32;

// Whether track t of channel c is held.
#[tactic(auto, using(crate::proofs::MarksLaws::bit_steps), unfolding(crate::specs::Marks::held_at))]
pub fn is_held(taken: &[u32; CHANNELS], c: usize, t: usize) -> bool
    requires { (c < 480) × (t < 32) }
    ensures { result ≡ held_at taken.now c t }
{
    (taken[c] >> t) % 2 == 1
}

// The mask m with bit t set, which is clear in m.
#[tactic(auto, using(crate::proofs::MarksLaws::bit_steps))]
fn with_bit(m: u32, t: usize) -> u32
    requires { (t < 32) × (bit m t ≡ 0) }
    ensures { result ≡ m + 2 ^ t }
{
    m + (1 << t)
}

// Holds track t of channel c, which is free.
#[tactic(auto, using(crate::proofs::MarksLaws::bit_steps), unfolding(crate::specs::Marks::holding))]
pub fn hold(taken: &mut [u32; CHANNELS], c: usize, t: usize)
    requires { (c < 480) × (t < 32) × (held_at taken.old c t ≡ false) }
    ensures { taken.new ≡ holding taken.old c t }
{
    taken[c] = with_bit(taken[c], t);
}

// The mask m with bit t clear, which is set in m.
#[tactic(auto, using(crate::proofs::MarksLaws::bit_steps))]
fn without_bit(m: u32, t: usize) -> u32
    requires { (t < 32) × (bit m t ≡ 1) }
    ensures { result ≡ m - 2 ^ t }
{
    m - (1 << t)
}

// Takes back track t of channel c, which is held.
#[tactic(auto, using(crate::proofs::MarksLaws::bit_steps), unfolding(crate::specs::Marks::releasing))]
pub fn release(taken: &mut [u32; CHANNELS], c: usize, t: usize)
    requires { (c < 480) × (t < 32) × (held_at taken.old c t ≡ true) }
    ensures { taken.new ≡ releasing taken.old c t }
{
    taken[c] = without_bit(taken[c], t);
}

// How many of the lowest w bits of the mask m are set.
#[tactic(auto, using(crate::proofs::MarksLaws::counts))]
fn ones_below(m: u32, w: usize) -> usize
    requires { w ≤ 32 }
    ensures { result ≡ ones (m % 2 ^ w) }
{
    let low = u64::from(m) % (1 << w);
    low.count_ones() as usize
}

// How many tracks of channel c below w are free.
#[tactic(auto, using(crate::proofs::MarksLaws::counts))]
pub fn free_count(taken: &[u32; CHANNELS], c: usize, w: usize) -> usize
    requires { (c < 480) × (w ≤ 32) }
    ensures { result ≡ count_below w (λ t. not (held_at taken.now c t)) }
{
    w - ones_below(taken[c], w)
}
