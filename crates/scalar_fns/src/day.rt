ghost use Rattle.std.specs.Prelude.{◌&&◌, ◌==◌, ◌≡◌, pos, true, Option, ◌≤◌};
ghost use Rattle.std.specs.Char.{is_ascii_digit};
ghost use Rattle.jiff_core.specs.Date.{epoch_day};
ghost use Rattle.scalar_value.specs.Order.{is_day};
ghost use Rattle.scalar_fns.specs.Days.{two_digits as number_of_two, year_of, month_of, month_day_of, wday_of, day_plus, day_of_date, day_of_text};
ghost use Rattle.scalar_fns.specs.DayLaws.{DaysAreOrdered, EpochIsDayZero, HasDate};

use jiff_core::civil::Date;

/// 0000-01-01 and 9999-12-31.
const FIRST_DAY: i64 = -719_528;

const LAST_DAY: i64 = 2_932_896;

/// The date of a day.
fn date_of(day: i32) -> Date
    requires { is_day day ≡ true }
    ensures { epoch_day result ≡ day }
{
    match Date::from_unix_epoch_day(i64::from(day)) {
        Ok(date) => date,
        Err(_) => unreachable!(),
    }
}

/// The law of the numbers of days: of two dates the one that comes before in the calendar has the smaller number, and
/// 1970-01-01 is 0. With `day_has_date` nothing is left open: the numbers are the places of the dates.
pub fn days_are_ordered()
    ensures ordered { DaysAreOrdered }
    ensures start { EpochIsDayZero }
{}

/// The law that each number from 0000-01-01 to 9999-12-31 is the day of the date that its year, month and place in the
/// month make.
pub fn day_has_date(day: i32)
    requires { is_day day ≡ true }
    ensures { HasDate day }
{
    let _date = date_of(day);
}

/// The year of a day, as lubridate's `year`.
pub fn year(day: i32) -> i64
    requires { is_day day ≡ true }
    ensures { result ≡ pos (year_of day) }
{
    i64::from(date_of(day).year)
}

/// The month of a day, from 1 to 12, as lubridate's `month`.
pub fn month(day: i32) -> i64
    requires { is_day day ≡ true }
    ensures { result ≡ pos (month_of day) }
{
    i64::from(date_of(day).month)
}

/// The place of a day in its month, from 1, as lubridate's `day`.
pub fn day_of(day: i32) -> i64
    requires { is_day day ≡ true }
    ensures { result ≡ pos (month_day_of day) }
{
    i64::from(date_of(day).day)
}

/// The day of the week, from 1 for Sunday to 7 for Saturday, as lubridate's `wday`.
pub fn wday(day: i32) -> i64
    requires { is_day day ≡ true }
    ensures { result ≡ pos (wday_of day) }
{
    i64::from(date_of(day).weekday().to_sunday_one_offset())
}

/// The day so many days later, and none exactly where the years end before it or begin after it.
pub fn day_add(day: i32, n: i64) -> Option<i32>
    ensures { result ≡ day_plus day n }
{
    match i64::from(day).checked_add(n) {
        Some(sum) if sum >= FIRST_DAY && sum <= LAST_DAY => Some(sum as i32),
        _ => None,
    }
}

/// The day of a date, and none where the calendar does not have it.
fn day_of_parts(year: u32, month: u32, day: u32) -> Option<i32>
    requires year_in { year ≤ 9999 }
    requires month_in { month ≤ 99 }
    requires day_in { day ≤ 99 }
    ensures { result ≡ day_of_date year month day }
{
    match Date::new(year as i16, month as i8, day as i8) {
        Ok(date) => Some(date.to_unix_epoch_day()),
        Err(_) => None,
    }
}

/// Whether all four are digits.
fn are_digits(a: u8, b: u8, c: u8, d: u8) -> bool
    ensures { result ≡ (is_ascii_digit a && is_ascii_digit b && is_ascii_digit c && is_ascii_digit d) }
{
    a.is_ascii_digit() && b.is_ascii_digit() && c.is_ascii_digit() && d.is_ascii_digit()
}

/// Whether the bytes are `-` and two digits.
fn is_two_digits(dash: u8, a: u8, b: u8) -> bool
    ensures { result ≡ (dash == 45 && is_ascii_digit a && is_ascii_digit b) }
{
    dash == b'-' && a.is_ascii_digit() && b.is_ascii_digit()
}

/// The number of two digits.
fn two_digits(a: u8, b: u8) -> u32
    requires first { is_ascii_digit a ≡ true }
    requires second { is_ascii_digit b ≡ true }
    ensures value { result ≡ number_of_two a b }
    ensures small { result ≤ 99 }
{
    u32::from(a - b'0') * 10 + u32::from(b - b'0')
}

/// The day that a text stands for: a date of the calendar in the years 0000 to 9999, as `2024-02-29`,
/// and none exactly where the text has another form or the calendar has no such date.
pub fn read_day(s: &str) -> Option<i32>
    ensures { result ≡ day_of_text s.now }
{
    match s.as_bytes() {
        [a, b, c, d, e, f, g, h, i, j] => {
            if are_digits(*a, *b, *c, *d)
                && is_two_digits(*e, *f, *g)
                && is_two_digits(*h, *i, *j)
            {
                let year = two_digits(*a, *b) * 100 + two_digits(*c, *d);
                day_of_parts(year, two_digits(*f, *g), two_digits(*i, *j))
            } else {
                None
            }
        }
        _ => None,
    }
}
