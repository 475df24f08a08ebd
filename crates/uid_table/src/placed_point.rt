//! A point with the row where it stands.
ghost use Rattle.std.specs.Prelude.{ℕ, ◌≡◌, ◌+◌, ◌++◌, ◌≤◌, take, drop, length, IfOk, OnOk, OnErr};
ghost use Rattle.std.specs.Int.{w32, to_be_bytes};
ghost use Rattle.arrayvec.specs.ArrayVec.{array_vec_len};
ghost use Rattle.tsd_base.specs.Moments.{IsTime};
ghost use Rattle.uid_table.specs.PlacedPoints.{IsMoved, IsRefilled, IsSomeRow};

use arrayvec::ArrayVec;
use cell_model::row::Row;
use qual_codec::Bytes;
use row_hours::base_of;
use std::alloc::{AllocError, Global};
use tsd_base::points::Point;

/// A point with the row where it stands. Both are refilled in place for the next point of its series.
#[derive(Drop)]
pub struct PlacedPoint {
    pub point: Point,
    /// The point row.
    pub row: Row,
    /// The second at which the row's hour begins.
    pub base: u32,
    /// How many bytes the ids of metrics have, with which the row begins.
    pub metric_width: u8,
}

impl PlacedPoint {
    /// Makes it another point of its series.
    ///
    /// The row is changed only where the hour is another one. It fails only for want of memory, which no row of up to 30 bytes takes,
    /// and is as before then.
    #[inline]
    pub fn refill(
        &mut self,
        alloc: Global,
        time: u64,
        fine: bool,
        value: i64,
    ) -> Result<(), AllocError>
        requires timed { IsTime time fine }
        requires row { IsSomeRow self.old.metric_width self.old.row self.old.base }
        ensures ok { OnOk result (IsRefilled self.old time fine value self.new) }
        ensures err { OnErr result (self.new ≡ self.old) }
    {
        let base = base_of(time);
        if base != self.base {
            move_row(alloc, &mut self.row, base, self.metric_width)?;
            self.base = base;
        }
        set_point(&mut self.point, time, fine, value);
        Ok(())
    }
}

/// Makes a point another one of its series.
#[inline]
fn set_point(point: &mut Point, time: u64, fine: bool, value: i64)
    requires { IsTime time fine }
    ensures metric { point.new.metric ≡ point.old.metric }
    ensures tags { point.new.tags ≡ point.old.tags }
    ensures fine { point.new.fine ≡ fine }
    ensures time { point.new.time ≡ time }
    ensures value { point.new.value ≡ value }
{
    point.time = time;
    point.fine = fine;
    point.value = value;
}

/// Makes a row that of the same series at another hour.
fn move_row(alloc: Global, row: &mut Row, base: u32, metric_width: u8) -> Result<(), AllocError>
    requires { (before : ℕ) × IsSomeRow metric_width row.old before }
    ensures ok { OnOk result (IsMoved metric_width row.old base row.new) }
    ensures err { OnErr result (row.new ≡ row.old) }
{
    row.bytes = bytes_at(alloc, row.bytes.list(), base, metric_width)?;
    Ok(())
}

/// The bytes of a row with another hour, where the ids of metrics have so many bytes.
fn bytes_at(alloc: Global, bytes: &[u8], base: u32, metric_width: u8) -> Result<Bytes, AllocError>
    requires least { metric_width + 4 ≤ length bytes.now }
    requires most { length bytes.now ≤ 72 }
    ensures { IfOk result (λ made. made ≡ (take metric_width bytes.now ++ to_be_bytes w32 base) ++ drop (metric_width + 4) bytes.now) }
{
    let at = metric_width as usize;
    let mut made = ArrayVec::new();
    add_bytes(&mut made, &bytes[..at]);
    add_bytes(&mut made, &base.to_be_bytes());
    add_bytes(&mut made, &bytes[at + 4..]);
    Bytes::of(alloc, made.as_slice())
}

/// Adds bytes, for which there is room.
#[inline]
fn add_bytes(made: &mut ArrayVec<u8, 72>, bytes: &[u8])
    requires { array_vec_len made.old + length bytes.now ≤ 72 }
    ensures items { made.new.items ≡ made.old.items ++ bytes.now }
    ensures len { array_vec_len made.new ≡ array_vec_len made.old + length bytes.now }
{
    let Ok(()) = made.try_extend_from_slice(bytes) else {
        unreachable!()
    };
}
