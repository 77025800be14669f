// Numbers of several bytes, little-endian. Each size has a function of its own, as the paper has a word for each (`two_at`, `four_at`): one
// over both would have to name the word through a trait and say it less plainly.
ghost use Rattle.std.specs.Prelude.{◌≡◌, ◌+◌, ◌≤◌, length};
ghost use Rattle.std.proofs.lemmas.List.Edits.{sets};
ghost use Rattle.meaning.specs.PlanFile.{two_at, four_at, two_bytes, four_bytes};

// The two bytes at an offset.
pub fn two_at(file: &[u8], at: usize) -> u16
    requires { at + 2 ≤ length file.now }
    ensures { result ≡ two_at file.now at }
{
    u16::from_le_bytes([file[at], file[at + 1]])
}

// The four bytes at an offset.
pub fn four_at(file: &[u8], at: usize) -> u32
    requires { at + 4 ≤ length file.now }
    ensures { result ≡ four_at file.now at }
{
    u32::from_le_bytes([file[at], file[at + 1], file[at + 2], file[at + 3]])
}

// Two bytes stored at an offset.
pub fn put_two(place: &mut [u8], at: usize, number: u16)
    requires { at + 2 ≤ length place.old }
    ensures { place.new ≡ sets place.old at (two_bytes number) }
{
    place[at..at + 2].copy_from_slice(&number.to_le_bytes());
}

// Four bytes stored at an offset.
pub fn put_four(place: &mut [u8], at: usize, number: u32)
    requires { at + 4 ≤ length place.old }
    ensures { place.new ≡ sets place.old at (four_bytes number) }
{
    place[at..at + 4].copy_from_slice(&number.to_le_bytes());
}
