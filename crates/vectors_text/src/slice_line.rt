// A lent slice as a line. What is put into it stands in filling.rt, which names a definition of this struct.
ghost use Rattle.std.specs.Prelude.{◌≤◌, length};

// A slice, and how many bytes were put into it, from its first on.
#[derive(Drop)]
pub struct SliceLine<'a> {
    pub(crate) slice: &'a mut [u8],
    pub(crate) len: usize,
    ghost inside: { len ≤ length slice.now },
}
