// F-TEID: the row of a builder's line.
use crate::{f_teid_calls, fixed_rows};
use details::{fixed, refusals};
use f_teid::Fteid;

pub(crate) fn put(out: &mut [u8], at: usize, line: &[u8]) -> usize {
    let built = f_teid_calls::built(line);
    let answer = built.answer;
    if answer.number() != 0 {
        return refusals::put_unmade(out, at, answer);
    }
    fixed_rows::put(
        out,
        at,
        built.record,
        Fteid::marshal,
        &fixed::F_TEID,
        fixed::f_teid,
    )
}
