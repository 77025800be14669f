// A segment of an interval's curve.
ghost use Rattle.std.specs.Prelude.{◌≡◌, ◌*◌, ◌≤◌, ◌<◌};

use units::{Requests, Slots};

// A segment of an interval's curve: the interval, counted from 0, its run of rates and its rise of stall. Lists of 512 of them stand on the
// stack, so the two are kept as bare numbers and handed on as units.
#[derive(Clone, Copy)]
pub struct Segment {
    pub interval: u8,
    pub run: u16,
    pub rise: u32,
    ghost inside: { interval < 64 },
}

impl Segment {
    // The run of rates.
    pub fn run(self) -> Requests
        ensures { result.0 ≡ self.run }
    {
        Requests(u32::from(self.run))
    }

    // The rise of stall.
    pub fn rise(self) -> Slots
        ensures { result.0 ≡ self.rise }
    {
        Slots(self.rise)
    }

    // The requests that the segment has room for, where its interval has this share.
    pub fn room(self, share: u16) -> u64
        ensures { (result ≡ share * self.run) × (result ≤ 4_294_836_225) }
    {
        u64::from(share) * u64::from(self.run)
    }

    // The stall of the whole segment, where its interval has this share.
    pub fn risen(self, share: u16) -> u64
        ensures { (result ≡ share * self.rise) × (result ≤ 281_470_681_677_825) }
    {
        u64::from(share) * u64::from(self.rise)
    }
}

// What stands in the free places of a list of segments.
impl Default for Segment {
    ghost is_default = { λ s. s.interval ≡ 0 };

    fn default() -> Segment {
        Segment {
            interval: 0,
            run: 0,
            rise: 0,
        }
    }
}
