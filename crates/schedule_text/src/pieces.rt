//! The pieces of a line: words of a table, and numbers.
//! Each reads at the front of the text, and gives the bytes after it, or the bytes from the first bad one on.

ghost use Rattle.std.specs.Prelude.{◌≡◌, ◌<◌, ◌≤◌, ◌*◌, length, map, true, IfOk};
ghost use Rattle.schedule_text.specs.Reading.{Gives, GivesRest, further, is_prefix_free, word_at, word_from, ended_number_at, number_at, value_row};

/// What comes after the word.
#[inline(always)]
#[tactic(auto, unfolding(crate::specs::Reading::word_from))]
fn after_word<'a>(word: &[u8], text: &'a [u8]) -> Result<&'a [u8], &'a [u8]>
    ensures { GivesRest result (word_from word.now text.now) }
{
    let mut rest = text;
    for byte in word {
        let [first, after @ ..] = rest else {
            return Err(rest);
        };
        if first != byte {
            return Err(rest);
        }
        rest = after;
    }
    Ok(rest)
}

/// The one of two rests that is the shorter.
fn further<'a>(bad: &'a [u8], rest: &'a [u8]) -> &'a [u8]
    ensures { result.now ≡ further bad.now rest.now }
{
    if rest.len() < bad.len() { rest } else { bad }
}

/// What the word at the front of the text stands for, in a table of words of which none begins another.
#[tactic(auto, unfolding(crate::specs::Reading::word_on))]
pub fn word<'a, K: Copy>(table: &[(&[u8], K)], text: &'a [u8]) -> Result<(K, &'a [u8]), &'a [u8]>
    ensures { Gives (λ k. k) result (word_at (map value_row table.now) text.now) }
{
    let mut bad = text;
    for (word, value) in table {
        match after_word(word, text) {
            Ok(rest) => return Ok((*value, rest)),
            Err(rest) => bad = further(bad, rest),
        }
    }
    Err(bad)
}

/// As `word`, of a text that most likely begins with the word at this place of the table: a wrong guess costs time and
/// no more.
#[inline(always)]
pub fn likely_word<'a, K: Copy>(
    table: &[(&[u8], K)],
    place: usize,
    text: &'a [u8],
) -> Result<(K, &'a [u8]), &'a [u8]>
    requires place { place < length table.now }
    requires free { is_prefix_free (map value_row table.now) ≡ true }
    ensures { Gives (λ k. k) result (word_at (map value_row table.now) text.now) }
{
    let row = &table[place];
    match after_word(row.0, text) {
        Ok(rest) => Ok((row.1, rest)),
        Err(_) => word(table, text),
    }
}

/// A value below this takes one more digit, where a number has nine at most.
pub const NINE: u64 = 100_000_000;

/// A value below this takes one more digit, where a number has nineteen at most.
pub const NINETEEN: u64 = 1_000_000_000_000_000_000;

/// A number with no zero before others, and the byte that ends it, which is one of two. A value below `room` takes one
/// more digit.
#[tactic(auto, unfolding(crate::specs::Reading::ended_number_at, crate::specs::Reading::digits_on))]
pub fn ended_number(room: u64, end: u8, other: u8, text: &[u8]) -> Result<((u64, u8), &[u8]), &[u8]>
    requires some { 0 < room }
    requires most { room ≤ 1000000000000000000 }
    ensures read { Gives (λ n. n) result (ended_number_at room end other text.now) }
    ensures within { IfOk result (λ n. n.0.0 < 10 * room) }
{
    let [first, after @ ..] = text else {
        return Err(text);
    };
    if !first.is_ascii_digit() {
        return Err(text);
    }
    let mut value = u64::from(*first - b'0');
    let mut rest = after;
    while let [digit, after @ ..] = rest {
        if *digit == end || *digit == other {
            return Ok(((value, *digit), after));
        }
        if !digit.is_ascii_digit() || value == 0 || value >= room {
            return Err(rest);
        }
        value = 10 * value + u64::from(*digit - b'0');
        rest = after;
    }
    Err(rest)
}

/// A number of at most nine digits with no zero before others, and the byte that ends it.
#[tactic(auto, unfolding(crate::specs::Reading::number_at))]
pub fn number(end: u8, text: &[u8]) -> Result<(u32, &[u8]), &[u8]>
    ensures { Gives (λ n. n) result (number_at end text.now) }
{
    let ((value, _), rest) = ended_number(NINE, end, end, text)?;
    Ok((value as u32, rest))
}
