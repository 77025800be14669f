// The segments of the curves, and those of all intervals one after another.
#![tactic(auto)]

ghost use Rattle.std.specs.Prelude.{◌≡◌, ◌+◌, ◌*◌, ◌≤◌, ◌<◌, ◌++◌, length};
ghost use Rattle.placement_laws.specs.OrderMerged.{picks_from};
ghost use Rattle.segments.specs.Blocks.{curve_of, curve_at, Curves, Segments as Rises};
ghost use Rattle.segments.specs.Picks.{picks_of};
ghost use Rattle.segments.specs.Listed.{Listed};

use arrayvec::ArrayVec;
use units::{Block, Requests, Slots};

mod segment; // segment.rt: a segment of an interval's curve

pub use segment::Segment;

// The segments of 64 intervals at most, of each no more than eight.
pub type Segments = ArrayVec<Segment, 512>;

// How many segments each of 64 groups of intervals has, at most.
pub type Counts = ArrayVec<usize, 64>;

// The segments of groups of neighbouring intervals, one group's after another's, and how many each group has.
#[derive(Drop)]
pub struct Groups {
    pub segments: Segments,
    pub counts: Counts,
}

// A rise times a run, by which slopes are compared.
pub fn crossed(rise: Slots, run: Requests) -> u64
    ensures { (result ≡ rise.0 * run.0) × (result ≤ 18_446_744_065_119_617_025) }
{
    u64::from(rise.0) * u64::from(run.0)
}

// Appends the segments of one interval: one from each corner of its block to the next.
fn push_interval(interval: u8, block: &Block, segments: &mut Segments)
    requires { (interval < 64) × (block.now.count ≤ 9) × (length segments.old.items ≤ 504) × Rises (curve_of block.now) }
    ensures pushed { let c = curve_of block.now in picks_of segments.new.items ≡ picks_of segments.old.items ++ picks_from interval c.first c.rest }
    ensures few { length segments.new.items ≤ length segments.old.items + 8 }
{
    // By index: `windows(2)` gives `pair[0]` and `pair[1]` for `here` and `next`, no plainer, and its proof has to follow the iterator.
    let mut here = block.corners[0];
    for k in 1..usize::from(block.count) {
        let next = block.corners[k];
        let run = (next.rate.0 - here.rate.0) as u16;
        let rise = next.stall.0 - here.stall.0;
        segments.push(Segment {
            interval,
            run,
            rise,
        });
        here = next;
    }
}

// The segments of all intervals, each interval a group by itself.
pub fn list(blocks: &[Block]) -> Groups
    requires { (length blocks.now ≤ 64) × Curves (length blocks.now) blocks.now }
    ensures { Listed (length blocks.now) (curve_at blocks.now) result.segments.items result.counts.items }
{
    let mut segments = Segments::new();
    let mut counts = Counts::new();
    for (i, block) in blocks.iter().enumerate() {
        let before = segments.len();
        push_interval(i as u8, block, &mut segments);
        counts.push(segments.len() - before);
    }
    Groups { segments, counts }
}
