// The rows of records of fixed fields, with what is written of them.
use answer::Written;
use rows::Value;
use std::convert::AsSlice;

// Writes a record, and puts the words of its row with the values of these.
pub(crate) fn put<
    T: Copy,
    W: FnOnce(T, &mut [u8]) -> Written,
    A: AsSlice<Value> + Copy,
    V: FnOnce(T, usize, usize) -> A,
>(out: &mut [u8], at: usize, record: T, marshal: W, words: &[u8], values: V) -> usize
    requires marshal { W.IsAlwaysCallable marshal }
    requires values { V.IsAlwaysCallable values }
{
    let mut wire = [0u8; 64];
    let written = marshal(record, &mut wire);
    let values = values(record, written.len, written.len);
    rows::put(out, at, words, values.as_slice(), &wire)
}
