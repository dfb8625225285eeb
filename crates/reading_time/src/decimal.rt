//! Decimal numbers, and how many parts their digits cut a second into.

ghost use Rattle.std.specs.Prelude.{◌≡◌, ◌^◌, ◌<◌, ◌≤◌, true, length};
ghost use Rattle.std.specs.List.{list_all};
ghost use Rattle.reading_time.specs.Reading as spec;

/// Whether a byte is a digit.
fn is_digit(byte: u8) -> bool
    ensures { result ≡ spec.is_digit byte }
{
    b'0' <= byte && byte <= b'9'
}

/// Whether a text is of digits alone.
fn are_digits(text: &[u8]) -> bool
    ensures { result ≡ list_all spec.is_digit text.now }
{
    text.iter().all(|byte| is_digit(*byte))
}

/// Whether a text is a number of one to `most` digits.
pub(crate) fn is_numeral(most: usize, text: &[u8]) -> bool
    ensures { result ≡ spec.is_numeral most text.now }
{
    1 <= text.len() && text.len() <= most && are_digits(text)
}

/// The number that at most ten digits say.
pub(crate) fn number_of(digits: &[u8]) -> u64
    requires few { length digits.now ≤ 10 }
    requires digits { list_all spec.is_digit digits.now ≡ true }
    ensures value { result ≡ spec.number_of digits.now }
    ensures small { result < 10 ^ length digits.now }
{
    let mut number = 0;
    for digit in digits {
        number = number * 10 + u64::from(*digit - b'0');
    }
    number
}

/// Into how many parts at most nine digits cut a second.
#[tactic(auto, using(crate::proofs::Ticks::parts_above_zero))]
pub(crate) fn parts_of(digits: &[u8]) -> u64
    requires { length digits.now ≤ 9 }
    ensures value { result ≡ spec.parts_of digits.now }
    ensures some { 0 < result }
    ensures small { result ≤ 1_000_000_000 }
{
    10u64.pow(digits.len() as u32)
}
