// The lines of the programs: four numbers in base ten, each with a space or the line end behind it, and the last lines: the words moved, the most
// that stands.
#![tactic(auto)]

ghost use Rattle.std.specs.Prelude.{◌≡◌, ◌+◌, ◌≤◌, ◌<◌, ◌++◌, length};
ghost use Rattle.std.proofs.lemmas.List.Edits.{sets};
ghost use Rattle.limits.specs.Files.{line_limit};
ghost use Rattle.lines.specs.Decimal.{digits};
ghost use Rattle.lines.specs.Lines.{line_bytes, words_line, most_line, line_fits, line_answer, place_said, line_left};
ghost use Rattle.lines.specs.inner.Needed.{Room, DigitsFit, PairFits, Put, digit_pair, field_bytes, half_bytes, Eight, Counted, Countable, ShortFits, behind_number};

use limits::LINE_LIMIT;

// Writes the line of a record from a place on, unless fewer than 44 bytes are left there. Says the place behind the line, if there is one.
#[tactic(auto, unfolding(crate::specs::Lines::place_said, crate::specs::Lines::line_answer, crate::specs::Lines::line_left, crate::specs::Lines::line_fits))]
pub fn line_into(
    out: &mut [u8],
    at: usize,
    number: u32,
    refusal: u32,
    value: u32,
    count: u32,
) -> Option<usize>
    ensures answer { place_said result ≡ line_answer out.old at number refusal value count }
    ensures memory { out.new ≡ line_left out.old at number refusal value count }
{
    if line_fits(out.len(), at) {
        Some(put_line(out, at, number, refusal, value, count))
    } else {
        None
    }
}

// Whether the longest line, of 44 bytes, fits from a place on into memory of so many bytes.
#[tactic(auto, unfolding(crate::specs::Lines::line_fits))]
pub fn line_fits(bytes: usize, at: usize) -> bool
    ensures { result ≡ line_fits bytes at }
{
    at <= bytes && LINE_LIMIT <= bytes - at
}

// Writes the line of a record from a place on, and says the place behind it.
pub fn put_line(
    out: &mut [u8],
    at: usize,
    number: u32,
    refusal: u32,
    value: u32,
    count: u32,
) -> usize
    requires { Room out.old at line_limit }
    ensures value { result ≡ at + length (line_bytes number refusal value count) }
    ensures out_after { out.new ≡ sets out.old at (line_bytes number refusal value count) }
{
    let half = put_half(out, at, number, refusal, b' ');
    put_half(out, half, value, count, b'\n')
}

// Writes the line of a record whose number's digits are at hand, from a place on, and says the place behind it: all eight bytes of
// the digits, and then, over those that are none, what stands behind the number. The number itself is named for the contract alone.
pub fn put_counted(
    out: &mut [u8],
    at: usize,
    digits: [u8; 8],
    len: usize,
    number: u32,
    refusal: u32,
    value: u32,
    count: u32,
) -> usize
    requires room { Room out.old at line_limit }
    requires counted { Counted digits len number }
    ensures value { result ≡ at + length (line_bytes number refusal value count) }
    ensures out_after { out.new ≡ sets out.old at (line_bytes number refusal value count) }
{
    put_text(out, at, &digits);
    put_behind(out, at + len, refusal, value, count)
}

// Writes what stands behind the number of a line, and says the place behind it. Most lines have the value 0, the count 0 and a
// refusal of one digit: these have a way of their own.
fn put_behind(out: &mut [u8], at: usize, refusal: u32, value: u32, count: u32) -> usize
    requires { Room out.old at 34 }
    ensures { Put out.old at (behind_number refusal value count) 34 out.new result }
{
    if value == 0 && count == 0 && refusal < 10 {
        put_short(out, at, refusal)
    } else {
        out[at] = b' ';
        let half = put_field(out, at + 1, refusal, b' ');
        put_half(out, half, value, count, b'\n')
    }
}

// Writes what stands behind the number of a line whose refusal is one digit and whose value and count are 0: seven bytes.
fn put_short(out: &mut [u8], at: usize, refusal: u32) -> usize
    requires { ShortFits out.old at refusal }
    ensures { Put out.old at (behind_number refusal 0 0) 7 out.new result }
{
    let digit = b'0' + refusal as u8;
    put_text(out, at, &[b' ', digit, b' ', b'0', b' ', b'0', b'\n']);
    at + 7
}

// Writes two numbers with a space between and a byte behind, and says the place behind them.
fn put_half(out: &mut [u8], at: usize, first: u32, second: u32, behind: u8) -> usize
    requires { Room out.old at 22 }
    ensures { Put out.old at (half_bytes first second behind) 22 out.new result }
{
    let middle = put_field(out, at, first, b' ');
    put_field(out, middle, second, behind)
}

// Writes a number with a byte behind, and says the place behind both.
fn put_field(out: &mut [u8], at: usize, n: u32, behind: u8) -> usize
    requires { Room out.old at 11 }
    ensures { Put out.old at (field_bytes n behind) 11 out.new result }
{
    let end = put_number(out, at, n);
    out[end] = behind;
    end + 1
}

// Writes a number in base ten from a place on, and says the place behind it.
#[tactic(auto, using(crate::proofs::Writing::line_laws))]
pub fn put_number(out: &mut [u8], at: usize, n: u32) -> usize
    requires { Room out.old at 10 }
    ensures value { result ≡ at + length (digits n) }
    ensures out_after { out.new ≡ sets out.old at (digits n) }
    ensures upper_bound { result ≤ at + 10 }
{
    if n < 10 {
        out[at] = b'0' + n as u8;
        at + 1
    } else {
        let len = width(n);
        put_digits(out, at, len, n);
        at + len
    }
}

// ---- the last lines

// Writes the line of the words that a run moved from a place on, and says the place behind it. It is written once a run, digit by digit.
#[tactic(auto, using(crate::proofs::Totals::words_whole))]
pub fn put_words_line(out: &mut [u8], at: usize, total: u64) -> usize
    requires { Room out.old at line_limit }
    ensures value { result ≡ at + length (words_line total) }
    ensures out_after { out.new ≡ sets out.old at (words_line total) }
{
    put_text_line(out, at, b"words ", total)
}

// Writes the line of the most that stands in a forecast.
#[tactic(auto, using(crate::proofs::Totals::most_whole))]
pub fn put_most_line(out: &mut [u8], at: usize, most: u32) -> usize
    requires { Room out.old at line_limit }
    ensures value { result ≡ at + length (most_line most) }
    ensures out_after { out.new ≡ sets out.old at (most_line most) }
{
    put_text_line(out, at, b"most ", u64::from(most))
}

// Writes a text and a total with a line end behind, and says the place behind them.
#[tactic(auto, using(crate::proofs::Totals::text_line_stored))]
fn put_text_line(out: &mut [u8], at: usize, text: &[u8], total: u64) -> usize
    requires { Room out.old at (length text.now + 21) }
    ensures value { result ≡ at + length (text.now ++ field_bytes total 10) }
    ensures out_after { out.new ≡ sets out.old at (text.now ++ field_bytes total 10) }
{
    put_text(out, at, text);
    put_total(out, at + text.len(), total)
}

// Writes some bytes from a place on.
#[tactic(auto, using(lists::proofs::Copies::copied))]
pub fn put_text(out: &mut [u8], at: usize, text: &[u8])
    requires { Room out.old at (length text.now) }
    ensures { out.new ≡ sets out.old at text.now }
{
    out[at..at + text.len()].copy_from_slice(text);
}

// Writes a total with a line end behind, and says the place behind both.
fn put_total(out: &mut [u8], at: usize, total: u64) -> usize
    requires { Room out.old at 21 }
    ensures value { result ≡ at + length (field_bytes total 10) }
    ensures out_after { out.new ≡ sets out.old at (field_bytes total 10) }
{
    let len = total_width(total);
    put_total_digits(out, at, len, total);
    out[at + len] = b'\n';
    at + len + 1
}

// How many digits a total has: 0 has one.
#[tactic(auto, using(crate::proofs::Digits::total_laws))]
fn total_width(total: u64) -> usize
    ensures value { result ≡ length (digits total) }
    ensures upper_bound { result ≤ 20 }
{
    total.checked_ilog10().unwrap_or(0) as usize + 1
}

// Writes the digits of a total, of which there are len, from the last to the first. Not by put_digits on 64 bits: lines took 3% longer by it.
fn put_total_digits(out: &mut [u8], at: usize, len: usize, total: u64)
    requires { DigitsFit out.old at len total }
    ensures { out.new ≡ sets out.old at (digits total) }
{
    let mut i = at + len;
    let mut rest = total;
    while 10 <= rest {
        i -= 1;
        out[i] = b'0' + (rest % 10) as u8;
        rest /= 10;
    }
    out[at] = b'0' + rest as u8;
}

// ---- the digits of a number that is counted on

// Writes the digits of a number into eight bytes, from the first on, and says how many they are.
#[tactic(auto, using(crate::proofs::Counting::count_laws))]
pub fn counter(bytes: &mut [u8], number: u32) -> usize
    requires { Eight bytes.old number }
    ensures counted { Counted bytes.new result number }
    ensures bytes_after { bytes.new ≡ sets bytes.old 0 (digits number) }
{
    let len = width(number);
    put_digits(bytes, 0, len, number);
    len
}

// The digits of a number, of which there are len, become those of the next, without a division; says how many those are.
// The number itself is named for the contract alone.
pub fn count_on(bytes: &mut [u8], len: usize, number: u32) -> usize
    requires { Countable bytes.old len number }
    ensures counted { Counted bytes.new result (number + 1) }
    ensures bytes_after { bytes.new ≡ sets bytes.old 0 (digits (number + 1)) }
{
    for i in (0..len).rev() {
        if bytes[i] < b'9' {
            bytes[i] += 1;
            return len;
        }
        bytes[i] = b'0';
    }
    bytes[len] = b'0';
    bytes[0] = b'1';
    len + 1
}

// How many digits a number has, by comparisons and one division at most: lines took a sixth longer by checked_ilog10.
#[tactic(auto, using(crate::proofs::Writing::line_laws))]
fn width(n: u32) -> usize
    ensures value { result ≡ length (digits n) }
    ensures upper_bound { result ≤ 10 }
{
    match n {
        0..=9999 => width_low(n),
        10000..=99999999 => 4 + width_low(n / 10000),
        _ => 8 + width_low(n / 100000000),
    }
}

// How many digits a number below 10000 has.
#[tactic(auto, using(crate::proofs::Writing::line_laws))]
fn width_low(n: u32) -> usize
    requires { n < 10000 }
    ensures value { result ≡ length (digits n) }
    ensures upper_bound { result ≤ 4 }
{
    match n {
        0..=9 => 1,
        10..=99 => 2,
        100..=999 => 3,
        _ => 4,
    }
}

// Writes the digits of a number, of which there are len, from the last to the first: two a turn, so that a division of the rest serves two.
fn put_digits(out: &mut [u8], at: usize, len: usize, n: u32)
    requires { DigitsFit out.old at len n }
    ensures { out.new ≡ sets out.old at (digits n) }
{
    let mut i = at + len;
    let mut rest = n;
    while 100 <= rest {
        i -= 2;
        put_pair(out, i, rest % 100);
        rest /= 100;
    }
    if rest < 10 {
        out[at] = b'0' + rest as u8;
    } else {
        put_pair(out, at, rest);
    }
}

// Writes the two digits of a number below 100, of which the first may be a zero.
#[tactic(auto, using(crate::proofs::Writing::pair_stored))]
fn put_pair(out: &mut [u8], at: usize, pair: u32)
    requires { PairFits out.old at pair }
    ensures { out.new ≡ sets out.old at (digit_pair pair) }
{
    out[at] = b'0' + (pair / 10) as u8;
    out[at + 1] = b'0' + (pair % 10) as u8;
}
