// The rows of refusals.
ghost use Rattle.std.specs.Prelude.{◌≡◌};
ghost use Rattle.rows.specs.Row.{ends, puts};
ghost use Rattle.details.specs.Refusals.{first_value, unread_values, unread_row, unmade_row};

use answer::Answer;
use octets::either;
use rows::Value;

// The rows of a payload that is refused, by the number of the answer: a reader gives the first five.
const UNREAD: [u8; 134] =
    *b"0\n1 0 - | err=1 field=# exp=# act=#\n2 0 - | err=2 flags=# rule=#\n3 0 - | err=3 type=#\n4 0 - | err=4 place=# bad=#\n5 0 - | err=5 len=#\n";

// The first value of a refusal: flags and a type are bytes.
fn first_value(number: u8, x: usize) -> Value
    ensures { result ≡ first_value number x }
{
    if either(number == 2, number == 3) {
        return rows::number(1, Some((x % 256) as u64));
    }
    rows::count(x)
}

pub fn unread(answer: Answer) -> [Value; 3]
    ensures { result ≡ unread_values answer }
{
    let values = answer.values();
    [
        first_value(answer.number(), values.0),
        rows::count(values.1),
        rows::count(values.2),
    ]
}

// Puts the row of a payload that is refused, and returns the place behind it.
pub fn put_unread(out: &mut [u8], at: usize, answer: Answer) -> usize
    ensures value { result ≡ ends at (unread_row answer) }
    ensures out_after { out.new ≡ puts out.old at (unread_row answer) }
{
    let words = UNREAD;
    let row = rows::row(&words, answer.number() as usize);
    rows::put(out, at, row, &unread(answer), b"")
}

// Puts the row of a record that can't be made or written: the refusal's number and its first value.
pub fn put_unmade(out: &mut [u8], at: usize, answer: Answer) -> usize
    ensures value { result ≡ ends at (unmade_row answer) }
    ensures out_after { out.new ≡ puts out.old at (unmade_row answer) }
{
    let values = answer.values();
    let row = [rows::count(answer.number() as usize), rows::count(values.0)];
    rows::put(out, at, b"# # -\n", &row, b"")
}
