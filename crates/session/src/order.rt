// The order in which the lanes' pieces are done on one thread.
ghost use Rattle.std.specs.Prelude.{◌≡◌, ◌+◌, ◌<◌, ◌≤◌, ℕ, All, IfNone, IfSome, length, slice_index_or};
ghost use Rattle.nvm_model.specs.Turn.{next_lane, pick_at, with_some, word_state};
ghost use Rattle.session.specs.Lanes.{HasDrawn};

use rand_core::SeedableRng;
use rand_core::utils::NextWord;
use rand_xoshiro::SplitMix64;

/// Whose piece is next: with a mix of 0 each lane's pieces run whole, lane after lane; with another one the next word
/// of SplitMix64, whose seed it is, picks among the lanes with work left.
#[derive(Drop)]
pub struct Order {
    pub mix: u32,
    pub words: SplitMix64,
}

impl Order {
    /// An order from its start.
    pub fn new(mix: u32) -> Order
        ensures mix { result.mix ≡ mix }
        ensures words { result.words ≡ word_state mix 0 }
    {
        Order {
            mix,
            words: SplitMix64::seed_from_u64(u64::from(mix)),
        }
    }

    /// The place of the lane whose piece is next, if any lane has one left.
    pub fn pick(&mut self, left: &[usize]) -> Option<usize>
        ensures none { IfNone result (All (λ (n : ℕ). n ≡ 0) left.now × (self.new ≡ self.old)) }
        ensures there { IfSome result
            (λ place. (place < length left.now) × (1 ≤ slice_index_or left.now place 0)) }
        ensures next { (n : ℕ) → HasDrawn n self.old
            → IfSome result
            (λ place. (place + 1 ≡ next_lane self.old.mix n left.now) × HasDrawn (n + 1) self.new) }
        ensures mix { self.new.mix ≡ self.old.mix }
    {
        let some = count_some(left);
        if some == 0 {
            return None;
        }
        let at = self.pick_at(some);
        nth_some(left, at)
    }

    /// The place of the one among so many whose piece is next.
    fn pick_at(&mut self, count: usize) -> usize
        requires some { 1 ≤ count }
        ensures below { result < count }
        ensures at { (n : ℕ) → HasDrawn n self.old
            → (result ≡ pick_at self.old.mix n count) × HasDrawn (n + 1) self.new }
        ensures mix { self.new.mix ≡ self.old.mix }
    {
        if self.mix == 0 {
            return 0;
        }
        (self.words.next_word() % count as u64) as usize
    }
}

/// How many lanes have some left.
fn count_some(left: &[usize]) -> usize
    ensures { result ≡ length (with_some 1 left.now) }
{
    let mut count = 0;
    for n in left {
        if *n > 0 {
            count += 1;
        }
    }
    count
}

/// The place of the lane that comes at a place among those with some left.
fn nth_some(left: &[usize], at: usize) -> Option<usize>
    ensures none { IfNone result (length (with_some 1 left.now) ≤ at) }
    ensures some { IfSome result
        (λ place. (at < length (with_some 1 left.now))
        × (place + 1 ≡ slice_index_or (with_some 1 left.now) at 0)) }
    ensures there { IfSome result (λ place. (place < length left.now) × (1 ≤ slice_index_or left.now place 0)) }
{
    let mut others = at;
    for (place, n) in left.iter().enumerate() {
        if *n > 0 {
            if others == 0 {
                return Some(place);
            }
            others -= 1;
        }
    }
    None
}
