// A command line of a script: a letter and decimal numbers, with one space before each.
ghost use Rattle.std.specs.Prelude.{◌<◌, ◌≤◌, length, IfSome, IsSome};

use super::Command;

// The decimal number behind a space, and the text behind its last digit; where there is no space, 0 and the whole text.
// A digit's value is its byte's low four bits, and a number past the largest is the largest.
fn field(text: &[u8]) -> (u64, &[u8])
    ensures { length result.1.now ≤ length text.now }
{
    let Some(rest) = text.strip_prefix(b" ") else {
        return (0, text);
    };
    let end = rest.iter().take_while(|b| b.is_ascii_digit()).count();
    let (digits, rest) = rest.split_at(end);
    let value = digits.iter().fold(0u64, |value, b| {
        value.saturating_mul(10).saturating_add(u64::from(*b % 16))
    });
    (value, rest)
}

// The text behind the first line's end.
fn next_line(text: &[u8]) -> &[u8]
    ensures { length result.now ≤ length text.now }
{
    match text.iter().position(|b| *b == b'\n') {
        Some(end) => &text[end + 1..],
        None => &[],
    }
}

// The command that a text begins with, and the text behind its line. The letter is the line's first byte, whatever it is: where that is the end of an
// empty line, the numbers and the end are sought in the next line.
pub fn command_at(text: &[u8]) -> Option<(Command, &[u8])>
    ensures some { 0 < length text.now → IsSome result }
    ensures shorter { IfSome result (λ r. length r.1.now < length text.now) }
{
    let (letter, rest) = text.split_first()?;
    let (first, rest) = field(rest);
    let (second, rest) = field(rest);
    let (third, rest) = field(rest);
    let (fourth, rest) = field(rest);
    let (fifth, rest) = field(rest);
    let (sixth, rest) = field(rest);
    let command = Command {
        letter: *letter,
        first,
        second,
        third,
        fourth,
        fifth,
        sixth,
    };
    Some((command, next_line(rest)))
}
