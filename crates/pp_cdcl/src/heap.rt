//! The heap of an order: the variables that a conflict met or that the caller named, with the one on top that is
//! decided first. Proved is that all its places are in range.
ghost use Rattle.std.specs.Prelude.{◌≡◌, ◌<◌, length, All};

/// What says of a variable when it is decided.
#[derive(Clone, Copy)]
pub struct Rank {
    /// Whether it comes before those of which this isn't so.
    pub first: bool,
    /// How active it is.
    pub activity: u64,
}

/// Where a variable waits to be decided.
#[derive(Clone, Copy)]
pub enum Waiting {
    /// It was taken out.
    Nowhere,
    /// The cursor walks to it.
    Ahead,
    /// In the heap, at this place.
    Heap(usize),
}

/// Whether the caller named the variable, or a conflict met it lately.
pub fn is_ranked(ranks: &[Rank], var: usize) -> bool
    requires { var < length ranks.now }
{
    let rank = ranks[var];
    rank.first || 0 < rank.activity
}

/// Whether the one variable comes before the other: one of the first, the more active one, and of equals the one with
/// the lower number, or with the higher one where the order of equals is turned round.
pub fn is_before(ranks: &[Rank], turned: bool, one: usize, other: usize) -> bool
    requires one { one < length ranks.now }
    requires other { other < length ranks.now }
{
    let mine = ranks[one];
    let its = ranks[other];
    if mine.first != its.first {
        mine.first
    } else if mine.activity == its.activity {
        (one < other) != turned
    } else {
        its.activity < mine.activity
    }
}

/// Moves the variable at this place up, as long as it comes before the one above it.
pub fn sift_up(
    heap: &mut [usize],
    waiting: &mut [Waiting],
    ranks: &[Rank],
    turned: bool,
    place: usize,
)
    requires waiting { length waiting.old ≡ length ranks.now }
    requires heap { All (λ x. x < length ranks.now) heap.old }
    ensures { All (λ x. x < length ranks.now) heap.new }
{
    let mut at = place;
    while 0 < at && at < heap.len() {
        let above = (at - 1) / 2;
        if !is_before(ranks, turned, heap[at], heap[above]) {
            return;
        }
        exchange(heap, waiting, at, above);
        at = above;
    }
}

/// Moves the variable on top down, as long as one below it comes before it.
pub fn sift_down(heap: &mut [usize], waiting: &mut [Waiting], ranks: &[Rank], turned: bool)
    requires waiting { length waiting.old ≡ length ranks.now }
    requires heap { All (λ x. x < length ranks.now) heap.old }
    ensures { All (λ x. x < length ranks.now) heap.new }
{
    let mut at = 0;
    while at < heap.len() / 2 {
        let mut below = 2 * at + 1;
        if below + 1 < heap.len() && is_before(ranks, turned, heap[below + 1], heap[below]) {
            below += 1;
        }
        if !is_before(ranks, turned, heap[below], heap[at]) {
            return;
        }
        exchange(heap, waiting, at, below);
        at = below;
    }
}

/// Exchanges the variables at two places of the heap.
fn exchange(heap: &mut [usize], waiting: &mut [Waiting], one: usize, other: usize)
    requires one { one < length heap.old }
    requires other { other < length heap.old }
    requires heap { All (λ x. x < length waiting.old) heap.old }
    ensures { All (λ x. x < length waiting.old) heap.new }
{
    heap.swap(one, other);
    waiting[heap[one]] = Waiting::Heap(one);
    waiting[heap[other]] = Waiting::Heap(other);
}
