// A record of a plan file, as the place where it stands.
ghost use Rattle.std.specs.Prelude.{◌≤◌, length};
ghost use Rattle.record.specs.Values.{ListedWithin};

// A record of a plan file: the file, and the offset where the record starts, at most at the file's end.
#[derive(Clone, Copy)]
pub struct Record<'a> {
    pub file: &'a [u8],
    pub at: usize,
    ghost within: { at ≤ length file.now },
}

// An interval record whose listed budgets lie within the file.
#[derive(Clone, Copy)]
pub struct IntervalRecord<'a> {
    pub record: Record<'a>,
    ghost listed: { ListedWithin record.file.now record.at },
}
