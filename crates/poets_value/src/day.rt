ghost use Rattle.std.specs.Prelude.{◌≡◌, ℕ, ◌+◌, ◌<◌, ◌≤◌, ◌↔◌, ℤ, pos, ◌+ℤ◌, IfOk, OnErr, IfSome, IsSome, IsNone, IfNone};
ghost use Rattle.poets_value.specs.Civil.{IsDayNumber, IsDayOf, IsDayText, IsPair, day_bytes, day_text, digit_at};

use crate::DayFault;
use jiff::civil::Date;
use std::marker::Model;

/// A civil day from 0001-01-01 to 9999-12-31.
#[derive(Clone, Copy, Debug, PartialEq, Eq, PartialOrd, Ord)]
pub struct Day {
    number: i32,
}

impl Model for Day {
    ghost use Rattle.std.specs.Prelude.{ℤ};
    ghost use Rattle.poets_value.specs.Civil.{IsDayNumber};

    ghost Value = { ℤ };

    ghost view = { λ d. d.number };

    ghost inverse = { λ n. record { number = n } };

    ghost invariant = { λ d. IsDayNumber d.number };
}

impl Day {
    /// The day with that number, counted from 1970-01-01, or `None` outside 0001-01-01 to 9999-12-31.
    pub fn from_number(number: i64) -> Option<Day>
        ensures some { IfSome result (λ d. d ≡ number) }
        ensures range { IsSome result ↔ IsDayNumber number }
    {
        if number < -719_162 || number > 2_932_896 {
            return None;
        }
        Some(Day {
            number: number as i32,
        })
    }

    /// The day's number, counted from 1970-01-01.
    pub fn number(&self) -> i64
        ensures value { result ≡ self.now }
        ensures range { IsDayNumber result }
    {
        self.number as i64
    }

    /// The day that many days later, or `None` outside 0001-01-01 to 9999-12-31.
    pub fn plus_days(&self, count: i64) -> Option<Day>
        ensures some { IfSome result (λ d. d ≡ self.now +ℤ count) }
        ensures range { IsSome result ↔ IsDayNumber (self.now +ℤ count) }
    {
        let sum = (self.number as i64).checked_add(count)?;
        Day::from_number(sum)
    }
}

// The number of two decimal digits.
fn pair(tens: u8, ones: u8) -> Result<u8, DayFault>
    ensures value { IfOk result (IsPair tens ones) }
    ensures refuses { OnErr result ((n : ℕ) → ¬ (IsPair tens ones n)) }
{
    if !tens.is_ascii_digit() || !ones.is_ascii_digit() {
        return Err(DayFault);
    }
    Ok((tens - b'0') * 10 + (ones - b'0'))
}

// The day of a civil year, month and day.
fn dated(year: u16, month: u8, day: u8) -> Result<Day, DayFault>
    requires year { year < 10000 }
    requires month { month < 100 }
    requires day { day < 100 }
    ensures day { IfOk result (IsDayOf year month day) }
    ensures refuses { OnErr result ((n : ℤ) → ¬ (IsDayOf year month day n)) }
{
    if year == 0 {
        return Err(DayFault);
    }
    match Date::new(year as i16, month as i8, day as i8) {
        Ok(date) => Ok(Day {
            number: date.to_plain().to_unix_epoch_day(),
        }),
        Err(_) => Err(DayFault),
    }
}

impl Day {
    /// The day of the ten bytes `YYYY-MM-DD`.
    pub fn from_text(text: &[u8]) -> Result<Day, DayFault>
        ensures day { IfOk result (IsDayText text.now) }
        ensures refuses { OnErr result ((n : ℤ) → ¬ (IsDayText text.now n)) }
    {
        let [c1, c2, y1, y2, b'-', m1, m2, b'-', d1, d2] = text else {
            return Err(DayFault);
        };
        let century = pair(*c1, *c2)?;
        let rest = pair(*y1, *y2)?;
        let month = pair(*m1, *m2)?;
        let day = pair(*d1, *d2)?;
        dated(century as u16 * 100 + rest as u16, month, day)
    }
}

impl Day {
    /// The ten bytes `YYYY-MM-DD` of the day.
    pub fn text(&self) -> [u8; 10]
        ensures day { IsDayText result self.now }
        ensures text { result ≡ day_text self.now }
    {
        let number = self.number as i64;
        let Ok(plain) = jiff_core::civil::Date::from_unix_epoch_day(number) else {
            unreachable!();
        };
        let date = Date::from_plain(plain);
        let year = date.year().unsigned_abs();
        bytes_of(year, date.month() as u8, date.day() as u8)
    }
}

// The ten bytes of a year, month and day.
fn bytes_of(year: u16, month: u8, day: u8) -> [u8; 10]
    ensures { result ≡ day_bytes year month day }
{
    [
        digit(year / 1000),
        digit(year / 100),
        digit(year / 10),
        digit(year),
        b'-',
        digit(month as u16 / 10),
        digit(month as u16),
        b'-',
        digit(day as u16 / 10),
        digit(day as u16),
    ]
}

// The last digit of a number.
fn digit(number: u16) -> u8
    ensures { result ≡ digit_at number 1 }
{
    b'0' + (number % 10) as u8
}
