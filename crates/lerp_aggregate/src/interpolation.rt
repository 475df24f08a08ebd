//! The value of a series between two of its points.
ghost use Rattle.std.specs.Prelude.{◌≡◌, ◌<◌, ◌^◌, ◌*ℤ◌, pos, int_div, unsigned_abs};
ghost use Rattle.lerp_aggregate.specs.Interpolation.{lerp};

/// The value at time `x` on the line from `(x0, y0)` to `(x1, y1)`, rounded toward `y0`.
///
/// Times are in milliseconds. It is `y0 + (x - x0) * (y1 - y0) / (x1 - x0)`, the quotient toward zero and in 128
/// bits, so nothing overflows on the way.
pub fn lerp_at(x0: u64, y0: i64, x1: u64, y1: i64, x: u64) -> i64
    requires after { x0 < x }
    requires before { x < x1 }
    requires limit { x1 < 2 ^ 43 }
    ensures { result ≡ lerp (x0, y0) (x1, y1) x }
{
    let rise = i128::from(y1) - i128::from(y0);
    (i128::from(y0) + part_of(rise, x - x0, x1 - x0)) as i64
}

/// What of a rise over `span` falls to its first `run`, rounded toward zero.
#[inline]
fn part_of(rise: i128, run: u64, span: u64) -> i128
    requires rise { unsigned_abs rise < 2 ^ 64 }
    requires inside { run < span }
    requires limit { span < 2 ^ 43 }
    ensures { result ≡ int_div (pos run *ℤ rise) (pos span) }
{
    i128::from(run) * rise / i128::from(span)
}
