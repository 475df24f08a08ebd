//! Units of time.
ghost use Rattle.std.specs.Prelude.{◌≡◌, ◌≤◌, IfSome};
ghost use Rattle.tsd_base.specs.Units.{unit_millis};

/// The greatest number of units of a time before now, or of an interval.
pub const MOST_UNITS: u64 = 4_294_967_295;

/// How many milliseconds the unit of this name has, if there is one.
///
/// The units are `ms`, `s`, `m` for minutes, `h`, `d`, `w`, `n` for 30 days and `y` for 365 days.
pub fn unit_millis(name: &[u8]) -> Option<u64>
    ensures unit { result ≡ unit_millis name.now }
    ensures most { IfSome result (λ unit. unit ≤ 31536000000) }
{
    let unit = if name == b"ms".as_slice() {
        1
    } else if name == b"s".as_slice() {
        1000
    } else if name == b"m".as_slice() {
        60000
    } else if name == b"h".as_slice() {
        3600000
    } else if name == b"d".as_slice() {
        86400000
    } else if name == b"w".as_slice() {
        604800000
    } else if name == b"n".as_slice() {
        2592000000
    } else if name == b"y".as_slice() {
        31536000000
    } else {
        return None;
    };
    Some(unit)
}
