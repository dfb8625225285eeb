//! Unix seconds as dates and times of day in UTC.

ghost use Rattle.std.specs.Prelude.{◌≡◌, ◌+◌, ◌<◌, ◌≤◌, ◌++◌, length};
ghost use Rattle.line_writer.specs.Date.{clock_text, date_text, day_of, month_of, time_text, year_of};
ghost use Rattle.era_unfold.specs.Digits.{two_digits};

use crate::line::{CAPACITY, Line};

/// A day of the calendar.
#[derive(Drop)]
struct Date {
    year: u32,
    month: u32,
    day: u32,
}

/// The date of a day that is counted from 1970 on.
fn date_of(day: u32) -> Date
    requires { day < 49711 }
    ensures year { result.year ≡ year_of day }
    ensures month { result.month ≡ month_of day }
    ensures day { result.day ≡ day_of day }
    ensures four_digits { result.year < 10000 }
    ensures months { result.month < 100 }
    ensures days { result.day < 100 }
{
    let scaled = 4 * (day + 4_371_893) + 3;
    let quarters = scaled % 146_097 / 4 * 4 + 3;
    let march_year = 100 * (scaled / 146_097) + quarters / 1461;
    let month_scaled = 5 * (quarters % 1461 / 4) + 461;
    let march_month = month_scaled / 153;
    let day = month_scaled % 153 / 5 + 1;
    if march_month > 12 {
        Date {
            year: march_year + 1 - 10_000,
            month: march_month - 12,
            day,
        }
    } else {
        Date {
            year: march_year - 10_000,
            month: march_month,
            day,
        }
    }
}

/// Writes a number below 100 as two digits.
fn put_two_digits(line: &mut Line, n: u32)
    requires small { n < 100 }
    requires room { length line.old + 2 ≤ CAPACITY }
    ensures text { line.new ≡ two_digits n ++ line.old }
    ensures grows { length line.new ≡ length line.old + 2 }
{
    line.put_pair(b'0' + (n / 10) as u8, b'0' + (n % 10) as u8);
}

/// Writes the date of a day that is counted from 1970 on.
fn put_date(line: &mut Line, day: u32)
    requires day { day < 49711 }
    requires room { length line.old + 10 ≤ CAPACITY }
    ensures text { line.new ≡ date_text day ++ line.old }
    ensures grows { length line.new ≡ length line.old + 10 }
{
    let date = date_of(day);
    put_two_digits(line, date.day);
    line.put_byte(b'-');
    put_two_digits(line, date.month);
    line.put_byte(b'-');
    put_two_digits(line, date.year % 100);
    put_two_digits(line, date.year / 100);
}

/// Writes a Unix second as a date and a time of day, up to the letter that says UTC.
pub(crate) fn put_clock(line: &mut Line, second: u32)
    requires { length line.old + 19 ≤ CAPACITY }
    ensures text { line.new ≡ clock_text second ++ line.old }
    ensures grows { length line.new ≡ length line.old + 19 }
{
    put_two_digits(line, second % 60);
    line.put_byte(b':');
    put_two_digits(line, second / 60 % 60);
    line.put_byte(b':');
    put_two_digits(line, second / 3600 % 24);
    line.put_byte(b'T');
    put_date(line, second / 86_400);
}

/// Writes a Unix second as a date and a time of day.
pub(crate) fn put_time(line: &mut Line, second: u32)
    requires { length line.old + 20 ≤ CAPACITY }
    ensures text { line.new ≡ time_text second ++ line.old }
    ensures grows { length line.new ≡ length line.old + 20 }
{
    line.put_byte(b'Z');
    put_clock(line, second);
}
