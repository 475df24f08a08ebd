//! The texts of faults of queries, which go behind what was written before.
ghost use Rattle.std.specs.Prelude.{◌≡◌, ◌≢◌, ◌++◌, codes, IsOk, OnOk};
ghost use Rattle.std.specs.Fmt.{signed_decimal};
ghost use Rattle.metric_scan.specs.AskFaultTexts.{ask_fault_text};

use crate::fault::AskFault;
use std::alloc::AllocError;
use tsd_base::decimals::{write_number, write_signed};
use tsd_base::kinds::Kind;
use tsd_base::names::Name;

impl AskFault {
    /// Writes why a query has no answer. Want of memory has no text, and fails; a stop has none.
    pub fn write_text(&self, out: &mut Vec<u8>) -> Result<(), AllocError>
        requires { self.now ≢ AskFault.Stopped }
        ensures text { OnOk result (out.new.items ≡ out.old.items ++ ask_fault_text self.now) }
        ensures told { IsOk result → self.now ≢ AskFault.OutOfMemory }
    {
        match self {
            AskFault::TooManyBuckets { count } => write_buckets(*count, out),
            AskFault::BadFilter { index } => write_bad_filter(*index, out),
            AskFault::Unknown { kind, name } => write_unknown(*kind, name, out),
            AskFault::Duplicate { time, a, b } => write_two_values(*time, *a, *b, out),
            AskFault::Overflow { time } => write_overflow(*time, out),
            AskFault::OutOfMemory => Err(AllocError),
            AskFault::Stopped => unreachable!(),
        }
    }
}

/// Writes of too many buckets.
fn write_buckets(count: u64, out: &mut Vec<u8>) -> Result<(), AllocError>
    ensures { OnOk result (out.new.items ≡ out.old.items ++ ask_fault_text (AskFault.TooManyBuckets count)) }
{
    write_number(count, out)?;
    out.extend_from_slice(b" buckets (1000000 at most)")
}

/// Writes of a pattern that isn't read.
fn write_bad_filter(index: usize, out: &mut Vec<u8>) -> Result<(), AllocError>
    ensures { OnOk result (out.new.items ≡ out.old.items ++ ask_fault_text (AskFault.BadFilter index)) }
{
    out.extend_from_slice(b"bad filter ")?;
    write_number(index as u64, out)
}

/// Writes of a name that no point has.
fn write_unknown(kind: Kind, name: &Name, out: &mut Vec<u8>) -> Result<(), AllocError>
    ensures { OnOk result (out.new.items ≡ out.old.items ++ ask_fault_text (AskFault.Unknown kind name.now)) }
{
    out.extend_from_slice(b"unknown ")?;
    out.extend_from_slice(kind.text().as_bytes())?;
    out.extend_from_slice(b" ")?;
    out.extend_from_slice(name.bytes())
}

/// Writes of two values at one time.
fn write_two_values(time: u64, a: i64, b: i64, out: &mut Vec<u8>) -> Result<(), AllocError>
    ensures { OnOk result (out.new.items ≡ out.old.items ++ ask_fault_text (AskFault.Duplicate time a b)) }
{
    out.extend_from_slice(b"two values at ")?;
    write_number(time, out)?;
    out.extend_from_slice(b": ")?;
    write_both(a, b, out)
}

/// Writes two values.
fn write_both(a: i64, b: i64, out: &mut Vec<u8>) -> Result<(), AllocError>
    ensures { OnOk result (out.new.items ≡ out.old.items ++ signed_decimal a ++ codes " and " ++ signed_decimal b) }
{
    write_signed(a, out)?;
    out.extend_from_slice(b" and ")?;
    write_signed(b, out)
}

/// Writes of a sum that is too large.
fn write_overflow(time: u64, out: &mut Vec<u8>) -> Result<(), AllocError>
    ensures { OnOk result (out.new.items ≡ out.old.items ++ ask_fault_text (AskFault.Overflow time)) }
{
    out.extend_from_slice(b"overflow at ")?;
    write_number(time, out)
}
