// The order of filling: the segments of all intervals by falling slope.
#![tactic(auto)]

ghost use Rattle.std.specs.Prelude.{◌≡◌, ◌+◌, ◌≤◌, ◌++◌, length, take};
ghost use Rattle.meaning.specs.Plan.{sum_of};
ghost use Rattle.placement_laws.specs.OrderMerged.{merged, not_steeper};
ghost use Rattle.segments.specs.Blocks.{curve_at, Curves};
ghost use Rattle.segments.specs.Picks.{pick_of, picks_of};
ghost use Rattle.order.specs.Groups.{Orders, Levelled};

use segments::{Counts, Groups, Segment, Segments, crossed, list};
use units::Block;

// The segments of all intervals in the order of filling, as a value that can be copied: the first `count` of the places.
#[derive(Clone, Copy)]
pub struct Ordered {
    pub picks: [Segment; 512],
    pub count: usize,
}

// Whether the slope of one segment is at least that of another.
fn not_flatter(first: Segment, second: Segment) -> bool
    ensures { result ≡ not_steeper (pick_of first) (pick_of second) }
{
    crossed(second.rise(), first.run()) <= crossed(first.rise(), second.run())
}

// Appends segments in their own order. (By a loop: the list's own `try_extend_from_slice` gives a Result, which would have to be dropped.)
fn append(segments: &[Segment], to: &mut Segments)
    requires { length to.old.items + length segments.now ≤ 512 }
    ensures { to.new.items ≡ to.old.items ++ segments.now }
{
    for segment in segments {
        to.push(*segment);
    }
}

// Appends two groups merged: the steeper segment first, and of equal ones that of the left group.
fn merge(mut left: &[Segment], mut right: &[Segment], to: &mut Segments)
    requires { length to.old.items + length left.now + length right.now ≤ 512 }
    ensures segments { picks_of to.new.items ≡ picks_of to.old.items ++ merged (picks_of left.now) (picks_of right.now) }
    ensures long { length to.new.items ≡ length to.old.items + length left.now + length right.now }
{
    while let ([first, left_others @ ..], [second, right_others @ ..]) = (left, right) {
        if not_flatter(*first, *second) {
            to.push(*first);
            left = left_others;
        } else {
            to.push(*second);
            right = right_others;
        }
    }
    append(left, to);
    append(right, to);
}

// Each two neighbouring groups merged into one, an odd one at the end as it is, in place of what two lists held.
fn level(groups: &Groups, segments: &mut Segments, counts: &mut Counts)
    requires { (length groups.now.segments.items ≤ 512) × (length groups.now.counts.items ≤ 64) × (sum_of groups.now.counts.items ≡ length groups.now.segments.items) }
    ensures { Levelled groups.now.segments.items groups.now.counts.items segments.new.items counts.new.items }
{
    segments.clear();
    counts.clear();
    let mut rest = groups.segments.as_slice();
    for pair in groups.counts.chunks(2) {
        let (left, others) = rest.split_at(pair[0]);
        let (right, others) = others.split_at(pair.get(1).copied().unwrap_or(0));
        merge(left, right, segments);
        counts.push(left.len() + right.len());
        rest = others;
    }
}

// The order of all segments: by falling slope, ties to the lower interval.
pub fn order(blocks: &[Block]) -> Segments
    requires { (length blocks.now ≤ 64) × Curves (length blocks.now) blocks.now }
    ensures { Orders (length blocks.now) (curve_at blocks.now) result.items }
{
    // Merging stays: the library's sorts do not know that each group is in order already; they want an order of all segments, which slopes
    // are not where a run is 0, and the stable one wants a heap.
    // Two levels in each turn, to and fro between two lists of groups: a list is cleared once, and none is moved.
    let mut groups = list(blocks);
    let mut merged = Groups {
        segments: Segments::new(),
        counts: Counts::new(),
    };
    while groups.counts.len() > 1 {
        level(&groups, &mut merged.segments, &mut merged.counts);
        level(&merged, &mut groups.segments, &mut groups.counts);
    }
    groups.segments
}

impl Ordered {
    // The order of all segments.
    pub fn of(blocks: &[Block]) -> Ordered
        requires { (length blocks.now ≤ 64) × Curves (length blocks.now) blocks.now }
        ensures few { result.count ≤ 512 }
        ensures order { Orders (length blocks.now) (curve_at blocks.now) (take result.count result.picks) }
    {
        let segments = order(blocks);
        let count = segments.len();
        let mut picks = [Segment::default(); 512];
        picks[..count].copy_from_slice(&segments);
        Ordered { picks, count }
    }
}
