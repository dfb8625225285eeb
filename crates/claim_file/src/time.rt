//! A date and time of day in UTC, and the text that writes it.

ghost use Rattle.std.specs.Prelude.{◌≡◌, ◌<◌, true, pos, if◌then◌else◌, length, Some, None};
ghost use Rattle.jiff_core.specs.Calendar.{days_from_civil};
ghost use Rattle.era_unfold.specs.Digits.{two_digits};
ghost use Rattle.claim_file.specs.Time as spec;

use jiff::civil::Date;

const SECONDS_PER_DAY: i64 = 86_400;

/// A date and a time of day, in UTC.
#[derive(Clone, Copy)]
struct DateTime {
    year: u32,
    month: u32,
    day: u32,
    hour: u32,
    minute: u32,
    second: u32,
}

/// The Unix second that `YYYY-MM-DDTHH:MM:SSZ` says, from 1970-01-01T00:00:00Z to
/// 2106-02-07T06:28:15Z, and None for every other text.
///
/// The date has to exist, hours go to 23, minutes and seconds to 59, and letters are upper case.
pub fn read_time(text: &str) -> Option<u32>
    ensures { result ≡ spec.time_of text.now }
{
    let bytes = text.as_bytes();
    if bytes.len() != 20 {
        return None;
    }
    let date_time = date_time_at(bytes);
    let second = date_time.unix_second()?;
    if bytes == date_time.spelling().as_slice() {
        in_u32(second)
    } else {
        None
    }
}

/// The second, if it is one of the 2^32 from 1970 on.
fn in_u32(second: i64) -> Option<u32>
    ensures { result ≡ spec.in_u32 second }
{
    if 0 <= second && second <= u32::MAX as i64 {
        Some(second as u32)
    } else {
        None
    }
}

/// The date and time that the digits of a text say, whatever else stands there.
fn date_time_at(text: &[u8]) -> DateTime
    requires { length text.now ≡ 20 }
    ensures { result ≡ spec.date_time_at text.now }
{
    DateTime {
        year: pair(text[0], text[1]) * 100 + pair(text[2], text[3]),
        month: pair(text[5], text[6]),
        day: pair(text[8], text[9]),
        hour: pair(text[11], text[12]),
        minute: pair(text[14], text[15]),
        second: pair(text[17], text[18]),
    }
}

/// The number that two digits say, below 2,500 whatever the bytes are.
fn pair(tens: u8, ones: u8) -> u32
    ensures value { result ≡ spec.pair_value tens ones }
    ensures small { result < 2500 }
{
    tens.saturating_sub(b'0') as u32 * 10 + ones.saturating_sub(b'0') as u32
}

/// The number of a day, 0 for 1970-01-01, if the calendar has it.
fn day_number(year: u32, month: u32, day: u32) -> Option<i32>
    ensures { result ≡ (if spec.is_date year month day
        then Some (days_from_civil (pos year) month day) else None) }
{
    if year >= 10_000 || month >= 100 || day >= 100 {
        return None;
    }
    let date = Date::new(year as i16, month as i8, day as i8).ok()?;
    Some(date.to_plain().to_unix_epoch_day())
}

impl DateTime {
    /// Its second, counted from 1970, if the date exists and the day has the time.
    fn unix_second(&self) -> Option<i64>
        ensures { result
            ≡ (if spec.exists self.now then Some (spec.unix_second self.now) else None) }
    {
        let day = day_number(self.year, self.month, self.day)?;
        if self.hour < 24 && self.minute < 60 && self.second < 60 {
            let time = self.hour * 3600 + self.minute * 60 + self.second;
            Some(day as i64 * SECONDS_PER_DAY + time as i64)
        } else {
            None
        }
    }

    /// The text that writes it.
    fn spelling(&self) -> [u8; 20]
        requires { spec.exists self.now ≡ true }
        ensures { result ≡ spec.spelling self.now }
    {
        let [y1, y2] = digits(self.year / 100);
        let [y3, y4] = digits(self.year % 100);
        let [m1, m2] = digits(self.month);
        let [d1, d2] = digits(self.day);
        let [h1, h2] = digits(self.hour);
        let [n1, n2] = digits(self.minute);
        let [s1, s2] = digits(self.second);
        [
            y1, y2, y3, y4, b'-', m1, m2, b'-', d1, d2, b'T', h1, h2, b':', n1, n2, b':', s1, s2,
            b'Z',
        ]
    }
}

/// A number below 100 as two digits.
fn digits(n: u32) -> [u8; 2]
    requires { n < 100 }
    ensures { result ≡ two_digits n }
{
    [b'0' + (n / 10) as u8, b'0' + (n % 10) as u8]
}
