// What is put into a lent slice, from its first byte on, as far as there is room.
ghost use Rattle.std.specs.Prelude.{◌≡◌, ◌+◌, ◌≤◌, ◌++◌, ◌↔◌, IsOk, IsTrue, length, min, take};
ghost use Rattle.std.specs.Fn.{FnOnceReturnsAtMut};
ghost use Rattle.vectors_text.specs.SliceLines.{Filled};

use crate::slice_line::SliceLine;
use std::fmt;
use std::fmt::Write;

impl<'a> SliceLine<'a> {
    // A slice into which nothing was put yet.
    pub fn new(slice: &'a mut [u8]) -> SliceLine<'a>
        ensures none { result.len ≡ 0 }
        ensures lent { result.slice.ghost_name ≡ slice.entry.ghost_name }
        ensures held { result.slice.now ≡ slice.old }
    {
        SliceLine { slice, len: 0 }
    }

    // How many bytes were put.
    pub fn len(&self) -> usize
        ensures { result ≡ self.now.len }
    {
        self.len
    }

    // Bytes behind those before them, as many as there is room for; whether that was all.
    pub fn put(&mut self, bytes: &[u8]) -> bool
        ensures filled { Filled self.old bytes.now self.new }
        ensures all { IsTrue result ↔ (self.old.len + length bytes.now ≤ length self.old.slice.now) }
    {
        let start = self.len;
        let count = bytes.len().min(self.slice.len() - start);
        self.slice[start..start + count].copy_from_slice(&bytes[..count]);
        self.len = start + count;
        count == bytes.len()
    }
}

// A text for which there is not room enough fills the slice.
impl Write for SliceLine<'_> {
    ghost write_str_gives = { λ before text after.
        take after.len after.slice.now ≡ take before.len before.slice.now ++ text };

    fn write_str(&mut self, text: &str) -> fmt::Result
        ensures ok { IsOk result → take self.new.len self.new.slice.now
            ≡ take self.old.len self.old.slice.now ++ text.now }
        ensures fits { IsOk result ↔ (self.old.len + length text.now ≤ length self.old.slice.now) }
        ensures filled { Filled self.old text.now self.new }
    {
        if self.put(text.as_bytes()) {
            Ok(())
        } else {
            Err(fmt::Error)
        }
    }
}

// What an answer puts into a slice, from its front on; how much it put, and no more than the slice has, should the answer turn to another slice.
pub fn in_slice<Answer: FnOnce(&mut SliceLine)>(slice: &mut [u8], answer: Answer) -> usize
    requires { Answer.IsAlwaysCallable answer }
    ensures within { result ≤ length slice.new }
    ensures answered { (before : SliceLine) × (after : SliceLine) × (before.len ≡ 0) × (before.slice.now ≡ slice.old)
        × FnOnceReturnsAtMut Answer.FnOnce answer before tt after × (result ≡ min after.len (length slice.new))
        × (after.slice.ghost_name ≡ before.slice.ghost_name → slice.new ≡ after.slice.now) }
{
    let mut line = SliceLine::new(slice);
    answer(&mut line);
    line.len().min(slice.len())
}
