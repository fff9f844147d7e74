// The distance from one sequence number to another: two numbers in decimal, a space between them.
pub(crate) fn put(out: &mut [u8], at: usize, text: &[u8]) -> usize {
    let Some((from, to)) = two_numbers(text) else {
        return rows::put_other(out, at);
    };
    let found = distance::signed_distance(from, to);
    let answer = found.answer;
    let values = [
        rows::count(answer.number() as usize),
        rows::integer(found.value),
    ];
    rows::put(out, at, b"# #\n", &values, b"")
}

fn two_numbers(text: &[u8]) -> Option<(u32, u32)> {
    let space = slices::find(text, 0, text.len(), b' ');
    let from = small(words::part(text, 0, space))?;
    let to = small(words::part(text, space.saturating_add(1), text.len()))?;
    Some((from, to))
}

// A number of 32 bits: any other is none that the distance takes.
fn small(text: &[u8]) -> Option<u32> {
    u32::try_from(words::decimal(text)?).ok()
}
