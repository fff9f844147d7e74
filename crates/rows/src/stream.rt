// Memory for the standard input and the standard output.
ghost use Rattle.std.specs.Prelude.{◌≡◌, length, replicate};

// Zeros, for an input or an output: more than the longest line or row of a program has. That they are known here spares the
// programs to count them.
pub fn buffer() -> [u8; 400000]
    ensures value { result ≡ replicate 400000 0 }
    ensures value_2 { 400000 ≡ length result }
{
    [0; 400000]
}
