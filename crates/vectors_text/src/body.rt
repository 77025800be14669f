// Numbers out of a record's body, the low byte first. Past the body's end there are zeros. Body and index come one by one, as a slice and its
// index do.
ghost use Rattle.std.specs.Prelude.{◌≡◌, ℕ, ◌<◌, ◌≤◌, ◌↔◌, IsTrue, ◌-◌, ◌/◌, ◌%◌, min, length, List, EachIndex, drop, slice_index};
ghost use Rattle.std.specs.Int.{w8, w16, w32, from_le_bytes};
ghost use Rattle.std.proofs.Common.{rules};
ghost use Rattle.arrayvec.specs.ArrayVec.{array_vec_len};

use crate::places::ROOM;
use arrayvec::ArrayVec;
use units::{Head, Slots};

// A number of a body: so many bytes, the low byte first.
pub trait Number: Default + Drop {
    // How many bytes the number has.
    ghost SIZE: { ℕ };

    // The number at the front of the bytes.
    ghost first_of: { List ℕ → Self };

    // How many bytes the number has, for the code.
    const SIZE: usize;

    // The number at the front of the bytes; past their end there are zeros.
    fn first(bytes: &[u8]) -> Self
        ensures { result ≡ first_of bytes.now };

    // A number has a byte at least.
    ghost has_bytes: { 0 < SIZE };
}

// One impl for each size: `from_le_bytes` is a function of each number type and of no trait, and an impl by a macro of our own is refused.
impl Number for u8 {
    ghost SIZE = { 1 };

    ghost first_of = { from_le_bytes w8 };

    const SIZE: usize = 1;

    fn first(bytes: &[u8]) -> u8 {
        u8::from_le_bytes(front(bytes))
    }

    ghost has_bytes = { Prim.search rules };
}

impl Number for u16 {
    ghost SIZE = { 2 };

    ghost first_of = { from_le_bytes w16 };

    const SIZE: usize = 2;

    fn first(bytes: &[u8]) -> u16 {
        u16::from_le_bytes(front(bytes))
    }

    ghost has_bytes = { Prim.search rules };
}

impl Number for u32 {
    ghost SIZE = { 4 };

    ghost first_of = { from_le_bytes w32 };

    const SIZE: usize = 4;

    fn first(bytes: &[u8]) -> u32 {
        u32::from_le_bytes(front(bytes))
    }

    ghost has_bytes = { Prim.search rules };
}

// The first so many bytes; past their end there are zeros.
fn front<const SIZE: usize>(bytes: &[u8]) -> [u8; SIZE]
    ensures { EachIndex result (λ index. slice_index result index ≡ slice_index bytes.now index) }
{
    // Byte by byte: a copy of so few bytes, as many as there are, costs more than they do.
    let mut front = [0; SIZE];
    for index in 0..SIZE {
        front[index] = bytes.get(index).copied().unwrap_or(0);
    }
    front
}

// The bytes from an index on; past the body's end there are none.
fn rest(body: &[u8], at: usize) -> &[u8]
    ensures { result.now ≡ drop at body.now }
{
    body.get(at..).unwrap_or(&[])
}

// The number at an index.
pub fn number_at<T: Number>(body: &[u8], at: usize) -> T
    ensures { result ≡ T.first_of (drop at body.now) }
{
    T::first(rest(body, at))
}

// The numbers from an index on: so many, or as many as the body and a place have.
pub fn numbers_from<T: Number>(body: &[u8], at: usize, count: usize) -> ArrayVec<T, ROOM>
    ensures { array_vec_len result ≤ count }
{
    let mut numbers = ArrayVec::new();
    // No plainer as a chain: `collect` takes an allocator, and `extend` gives a Result that would be thrown away.
    for bytes in rest(body, at).chunks(T::SIZE).take(count.min(ROOM)) {
        numbers.push(T::first(bytes));
    }
    numbers
}

// A plan's head: the cores first in the body, Q at an index, and the mark behind it; 0 is a plain plan.
pub fn head_at(body: &[u8], at: usize) -> Head {
    let behind = rest(body, at);
    Head {
        cores: number_at(body, 0),
        per_period: Slots(number_at(behind, 0)),
        repeating: number_at::<u8>(behind, 4) != 0,
    }
}

// Whether the count of two bytes at an index is within a place. No plainer as an Option of `count_at`: a question asks this of six at once.
pub fn is_within(body: &[u8], at: usize) -> bool
    ensures { IsTrue result ↔ (from_le_bytes w16 (drop at body.now) ≤ 8_192) }
{
    usize::from(number_at::<u16>(body, at)) <= ROOM
}

// The count of two bytes at an index, which is within a place.
pub fn count_at(body: &[u8], at: usize) -> usize
    ensures within { result ≤ 8_192 }
    ensures value { result ≡ min (from_le_bytes w16 (drop at body.now)) 8_192 }
{
    usize::from(number_at::<u16>(body, at)).min(ROOM)
}

// Whether the body ends with whole numbers of two bytes from an index on, and they are within a place.
pub fn ends_in_twos(body: &[u8], at: usize) -> bool
    ensures { IsTrue result ↔ ((at ≤ length body.now)
        × ((length body.now - at) % 2 ≡ 0)
        × ((length body.now - at) / 2 ≤ 8_192)) }
{
    body.get(at..)
        .is_some_and(|rest| rest.len() % 2 == 0 && rest.len() / 2 <= ROOM)
}
