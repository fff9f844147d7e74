// Bytes copied, and a byte looked for, in a slice.
#![tactic(auto)]

ghost use Rattle.std.specs.Prelude.{◌≡◌, ◌+◌, ◌≤◌, length, take, drop, ◌++◌};
ghost use Rattle.slices.specs.Slices.{slice, index_of};

// Copies bytes to the start of others, which are as many at least.
pub fn copy(src: &[u8], dst: &mut [u8])
    requires { length src.now ≤ length dst.old }
    ensures len { length dst.new ≡ length dst.old }
    ensures after { dst.new ≡ take (length src.now) src.now ++ drop (length src.now) dst.old }
{
    // Byte by byte, so that the archive calls no function of the C library.
    for i in 0..src.len() {
        dst[i] = src[i];
    }
}

// The place of the first such byte from a place on and before another, and that other where there is none.
// It is no `Option`, by its clause `value`: what is looked for ends a part, and where it isn't there the part ends all the same.
pub fn find(s: &[u8], from: usize, to: usize, b: u8) -> usize
    requires { (from ≤ to) × (to ≤ length s.now) }
    ensures value { result ≡ from + index_of b (slice from to s.now) }
    ensures within { (from ≤ result) × (result ≤ to) }
{
    for at in from..to {
        if s[at] == b {
            return at;
        }
    }
    to
}
