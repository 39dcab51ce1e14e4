//! Lines and arguments, read from the front of bytes.

ghost use Rattle.std.specs.Prelude.{◌≡◌, ◌≤◌, IsTrue};
ghost use Rattle.std.specs.Result.{result_map_both};
ghost use Rattle.resp.specs.Reading.{digit_on, is_digit, read_body, read_bulk, read_digits};
ghost use Rattle.resp.specs.Reading.{read_end, read_line};

use crate::limits::MAX_ARGUMENT_BYTES;
use crate::parsed::{Fault, Stop};

/// What follows the end of a line.
#[tactic(auto, unfolding(crate::specs::Reading::read_end))]
pub(crate) fn end(bytes: &[u8]) -> Result<&[u8], Stop>
    ensures { result_map_both (λ x. x.now) (λ e. e) result ≡ read_end bytes.now }
{
    match bytes {
        [] | [b'\r'] => Err(Stop::More),
        [b'\r', b'\n', rest @ ..] => Ok(rest),
        _ => Err(Stop::Wrong(Fault::Spelling)),
    }
}

fn is_digit(byte: u8) -> bool
    ensures { result ≡ is_digit byte }
{
    b'0' <= byte && byte <= b'9'
}

/// A number and one more digit.
fn digit(most: usize, fault: Fault, n: usize, digit: u8) -> Result<usize, Stop>
    requires most { most ≤ 100000 }
    requires n { n ≤ most }
    requires digit { IsTrue (is_digit digit) }
    ensures { result ≡ digit_on most fault n digit }
{
    if n == 0 {
        return Err(Stop::Wrong(Fault::Spelling));
    }
    let more = n * 10 + (digit - b'0') as usize;
    if more <= most {
        Ok(more)
    } else {
        Err(Stop::Wrong(fault))
    }
}

/// The number of which the first digits are read already, and what follows its line.
#[tactic(auto, unfolding(crate::specs::Reading::read_digits))]
fn digits(most: usize, fault: Fault, n: usize, bytes: &[u8]) -> Result<(usize, &[u8]), Stop>
    requires most { most ≤ 100000 }
    requires n { n ≤ most }
    ensures { result_map_both (λ x. (x.0, x.1.now)) (λ e. e) result
        ≡ read_digits most fault n bytes.now }
{
    match bytes {
        [] => Err(Stop::More),
        [byte, rest @ ..] if is_digit(*byte) => match digit(most, fault, n, *byte) {
            Ok(more) => digits(most, fault, more, rest),
            Err(stop) => Err(stop),
        },
        _ => match end(bytes) {
            Ok(rest) => Ok((n, rest)),
            Err(stop) => Err(stop),
        },
    }
}

/// A line of a sign and a number up to `most`, and what follows it.
#[tactic(auto, unfolding(crate::specs::Reading::read_line))]
pub(crate) fn line(
    sign: u8,
    most: usize,
    fault: Fault,
    bytes: &[u8],
) -> Result<(usize, &[u8]), Stop>
    requires least { 9 ≤ most }
    requires most { most ≤ 100000 }
    ensures { result_map_both (λ x. (x.0, x.1.now)) (λ e. e) result
        ≡ read_line sign most fault bytes.now }
{
    match bytes {
        [] => Err(Stop::More),
        [first] if *first == sign => Err(Stop::More),
        [first, byte, rest @ ..] if *first == sign && is_digit(*byte) => {
            digits(most, fault, (*byte - b'0') as usize, rest)
        }
        _ => Err(Stop::Wrong(Fault::Spelling)),
    }
}

/// So many bytes, and what follows the end of their line.
#[tactic(auto, unfolding(crate::specs::Reading::read_body))]
fn body(len: usize, bytes: &[u8]) -> Result<(&[u8], &[u8]), Stop>
    ensures { result_map_both (λ x. (x.0.now, x.1.now)) (λ e. e) result
        ≡ read_body len bytes.now }
{
    if bytes.len() < len {
        return Err(Stop::More);
    }
    let (argument, rest) = bytes.split_at(len);
    match end(rest) {
        Ok(rest) => Ok((argument, rest)),
        Err(stop) => Err(stop),
    }
}

/// An argument, and what follows it.
#[tactic(auto, unfolding(crate::specs::Reading::read_bulk))]
pub(crate) fn bulk(bytes: &[u8]) -> Result<(&[u8], &[u8]), Stop>
    ensures { result_map_both (λ x. (x.0.now, x.1.now)) (λ e. e) result
        ≡ read_bulk bytes.now }
{
    match line(b'$', MAX_ARGUMENT_BYTES, Fault::TooLong, bytes) {
        Ok((len, rest)) => body(len, rest),
        Err(stop) => Err(stop),
    }
}
