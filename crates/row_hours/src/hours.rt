//! The hours of rows.
ghost use Rattle.std.specs.Prelude.{◌≡◌, ◌≤◌};
ghost use Rattle.row_hours.specs.Hours.{base_time};

/// The seconds of an hour.
pub const HOUR: u32 = 3600;

/// The milliseconds of an hour.
pub const HOUR_MILLIS: u64 = HOUR as u64 * 1000;

/// The last millisecond of an hour, counted from its beginning.
pub const LAST_OFFSET: u32 = HOUR * 1000 - 1;

/// The base of the row that holds a time in milliseconds: its seconds rounded down to a multiple of [`HOUR`].
pub fn base_of(time: u64) -> u32
    requires { time ≤ 4294967295999 }
    ensures { result ≡ base_time time }
{
    (time / HOUR_MILLIS * HOUR as u64) as u32
}
