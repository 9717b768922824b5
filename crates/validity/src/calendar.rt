// The Gregorian calendar of the years 1900 to 2199.
ghost use Rattle.std.specs.Prelude.{◌≡◌, ◌+◌, ◌*◌};
ghost use Rattle.validity.specs.Calendar.{leap, month_length, is_date, is_end, earlier};

use super::Date;

// Is it a leap year, by the 4, 100 and 400 rule?
fn leap(year: u16) -> bool
    ensures { result ≡ leap year }
{
    year % 4 == 0 && (year % 100 != 0 || year % 400 == 0)
}

// How many days a month has; 0 where the number is no month's. February stands apart, so that the match gives numbers
// alone: it is compiled to tests of bits, where with `leap` in it it was a jump by a table.
fn month_length(year: u16, month: u8) -> u8
    ensures { result ≡ month_length year month }
{
    if month == 2 {
        return if leap(year) { 29 } else { 28 };
    }
    match month {
        1 | 3 | 5 | 7 | 8 | 10 | 12 => 31,
        4 | 6 | 9 | 11 => 30,
        _ => 0,
    }
}

// Does the date exist, in the years 1900 to 2199?
pub fn is_date(d: Date) -> bool
    ensures { result ≡ is_date d }
{
    if d.year < 1900 || 2199 < d.year {
        return false;
    }
    1 <= d.day && d.day <= month_length(d.year, d.month)
}

// Can it be an end date: does it exist so, or is it 1 January 2200?
pub fn is_end(d: Date) -> bool
    ensures { result ≡ is_end d }
{
    is_date(d)
        || d == Date {
            year: 2200,
            month: 1,
            day: 1,
        }
}

// Year, month and day in one number: the earlier the date, the smaller.
fn number(d: Date) -> u32
    ensures { result ≡ d.year * 65536 + d.month * 256 + d.day }
{
    d.year as u32 * 65536 + d.month as u32 * 256 + d.day as u32
}

// Does the date a come before b: by year, then month, then day? One comparison of numbers: the derived order of three
// fields takes a search over windows up to half as much time again.
pub fn earlier(a: Date, b: Date) -> bool
    ensures { result ≡ earlier a b }
{
    number(a) < number(b)
}
