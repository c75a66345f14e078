// The Gregorian calendar: whether a date and a time are in range, the number of a day, and seconds since 1970.
#![tactic(auto)]

ghost use Rattle.std.specs.Prelude.{◌≡◌, ◌≤◌, ◌<◌};
ghost use Rattle.calendar.specs.Calendar.{leap, days_in, days_before_year, days_before_month, day_number, seconds_at};
ghost use Rattle.calendar.specs.Ranges.{within, is_date, is_time};

// The months' lengths, and the days before each, in a year that is no leap year.
const MONTHS: [u64; 12] = [31, 28, 31, 30, 31, 30, 31, 31, 30, 31, 30, 31];

const BEFORE: [u64; 12] = [0, 31, 59, 90, 120, 151, 181, 212, 243, 273, 304, 334];

// Every year that 4 divides, but of those that 100 divides only those that 400 does.
#[tactic(auto, unfolding(crate::specs::Calendar::leap, window::specs::Pick::pick))]
fn is_leap(year: u64) -> bool
    ensures { result ≡ leap year }
{
    year % 400 == 0 || year % 100 != 0 && year % 4 == 0
}

// How long a month is.
#[tactic(auto, using(crate::proofs::Calendar::plain_month), unfolding(window::specs::Pick::pick))]
fn days_in(year: u64, month: u64) -> u64
    requires { (1 ≤ month) × (month ≤ 12) }
    ensures { result ≡ days_in year month }
{
    if month == 2 && is_leap(year) {
        29
    } else {
        MONTHS[(month - 1) as usize]
    }
}

// The days of the months before one.
#[tactic(auto, using(crate::proofs::Calendar::month_before, crate::proofs::Calendar::leap_month_before))]
fn days_before_month(year: u64, month: u64) -> u64
    requires { (1 ≤ month) × (month ≤ 12) }
    ensures { result ≡ days_before_month year month }
{
    BEFORE[(month - 1) as usize] + u64::from(2 < month && is_leap(year))
}

// The days of the years before one: 365 each, and one more for each fourth year, but for the hundredths, and for each four hundredth.
#[tactic(auto, using(crate::proofs::Calendar::years))]
fn days_before_year(year: u64) -> u64
    requires { (1970 ≤ year) × (year ≤ 65535) }
    ensures { result ≡ days_before_year year }
{
    365 * (year - 1970) + (year - 1969) / 4 + (year - 1601) / 400 - (year - 1901) / 100
}

// Days since 1970-01-01. A month is a number here and in the two functions that it calls: a type with the range would be built by each caller
// from a number, and taken apart in each.
#[tactic(auto, using(crate::proofs::Calendar::years_bound, crate::proofs::Calendar::months_bound), unfolding(crate::specs::Calendar::day_number))]
pub fn day_number(year: u64, month: u64, day: u64) -> u64
    requires le_year { (1970 ≤ year) × (year ≤ 65535) }
    requires le_month { (1 ≤ month) × (month ≤ 12) }
    requires le_day { (1 ≤ day) × (day ≤ 31) }
    ensures { result ≡ day_number year month day }
{
    days_before_year(year) + days_before_month(year, month) + (day - 1)
}

// Seconds since 1970. Second 60 counts as the next minute's 0.
pub fn seconds_at(days: u64, hour: u64, minute: u64, second: u64) -> u64
    requires { (days < 65536) × ((hour < 24) × ((minute < 60) × (second ≤ 60))) }
    ensures { result ≡ seconds_at days hour minute second }
{
    ((days * 24 + hour) * 60 + minute) * 60 + second
}

// Both ends belong to a range. It stays a function: seven ranges here and in `stamp` read by one name what `contains` says of each.
#[tactic(auto, unfolding(crate::specs::Ranges::within))]
pub fn within(low: u64, high: u64, x: u64) -> bool
    ensures { result ≡ within low high x }
{
    (low..=high).contains(&x)
}

// Year 1999 to 2099, and a real date.
#[tactic(auto, using(crate::proofs::Ranges::is_within), unfolding(crate::specs::Ranges::is_date))]
pub fn is_date(year: u64, month: u64, day: u64) -> bool
    ensures { result ≡ is_date year month day }
{
    within(1999, 2099, year) && within(1, 12, month) && within(1, days_in(year, month), day)
}

// Second 60 may stand in any minute.
#[tactic(auto, unfolding(crate::specs::Ranges::is_time))]
pub fn is_time(hour: u64, minute: u64, second: u64) -> bool
    ensures { result ≡ is_time hour minute second }
{
    within(0, 23, hour) && within(0, 59, minute) && within(0, 60, second)
}
