// F-TEID: what a builder's line gives, whose words are its calls.
use crate::numbers::Given;
use crate::{fixed, keys, seen};
use answer::Built;
use f_teid::{Fteid, FteidBuilder};

fn called(b: FteidBuilder, key: usize, given: Given) -> FteidBuilder {
    let ipv4 = fixed::to_ipv4(given.place);
    let ipv6 = fixed::to_ipv6(given.place, given.len);
    match key {
        keys::TEID => b.teid(fixed::to_teid(given.place)),
        keys::V4 => b.ipv4(ipv4),
        keys::V6 => b.ipv6(ipv6),
        keys::DUAL => b.dual_stack(fixed::to_ipv4(given.count), ipv6),
        keys::CH4 => b.choose_ipv4(),
        keys::CH6 => b.choose_ipv6(),
        keys::CHDUAL => b.choose_dual_stack(),
        _ => b.choose_id(fixed::to_u8(given.place)),
    }
}

fn with_word(b: FteidBuilder, word: &[u8]) -> FteidBuilder {
    let key = keys::key_of(word);
    match seen::number(key, words::value(word)) {
        Some(given) => called(b, key, given),
        None => b,
    }
}

// The builder after all calls, in the order of the line.
fn builder_of(line: &[u8]) -> FteidBuilder {
    let mut b = Fteid::builder();
    for word in line.split(|b| *b == b' ').skip(1) {
        b = with_word(b, word);
    }
    b
}

pub(crate) fn built(line: &[u8]) -> Built<Fteid> {
    let builder = builder_of(line);
    builder.build()
}
