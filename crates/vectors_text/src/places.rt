// Fixed places: what a question is lent, and what its lists are taken into.
ghost use Rattle.std.specs.Prelude.{◌≡◌, replicate, length};

// The room of each place. A record that asks for more numbers in one place is answered `malformed`.
pub const ROOM: usize = 8_192;

// A place of numbers before a question: each holds 7.
pub fn unwritten<T: Copy + From<u8>>() -> [T; ROOM]
    ensures room { 8_192 ≡ length result }
    ensures value { (seven : T) × T.from_gives 7 seven × (result ≡ replicate 8_192 seven) }
{
    [T::from(7); ROOM]
}
