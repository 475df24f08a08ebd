//! The texts of faults, which go behind what was written before.
ghost use Rattle.std.specs.Prelude.{◌≡◌, ◌<◌, ◌++◌, [], ◌∷◌, codes, decimal, OnOk, OnErr};
ghost use Rattle.tsd_base.specs.Faults.{Keeps, kind_text, hex_digit, hex_byte, name_fault_text, value_fault_text, tags_fault_text, point_fault_text};

use crate::decimals::write_number;
use crate::kinds::Kind;
use crate::names::NameFault;
use crate::points::PointFault;
use crate::tags::TagsFault;
use crate::values::ValueFault;
use std::alloc::AllocError;

const OUT_OF_MEMORY: &[u8] = b"out of memory";

impl Kind {
    /// The word for what the name names.
    pub fn text(self) -> &'static str
        ensures { result.now ≡ kind_text self }
    {
        match self {
            Kind::Metric => "metric",
            Kind::TagKey => "tagk",
            Kind::TagValue => "tagv",
        }
    }
}

impl NameFault {
    /// Writes why bytes are no name of a kind. Where there is no memory nothing is written.
    pub fn write_text(&self, kind: Kind, out: &mut Vec<u8>) -> Result<(), AllocError>
        ensures ok { OnOk result (out.new.items ≡ out.old.items ++ name_fault_text kind self.now) }
        ensures err { OnErr result (out.new.items ≡ out.old.items) }
    {
        let start = out.len();
        let written = self.write_behind(kind, out);
        if written.is_err() {
            out.truncate(start);
        }
        written
    }

    #[tactic(auto, using(std::proofs::lemmas::List::append_assoc), unfolding(crate::specs::Faults::name_fault_text))]
    fn write_behind(&self, kind: Kind, out: &mut Vec<u8>) -> Result<(), AllocError>
        ensures ok { OnOk result (out.new.items ≡ out.old.items ++ name_fault_text kind self.now) }
        ensures err { OnErr result (Keeps out.old.items out.new.items) }
    {
        match self {
            NameFault::Empty => {
                out.extend_from_slice(kind.text().as_bytes())?;
                out.extend_from_slice(b" name is empty")
            }
            NameFault::TooLong { len } => {
                out.extend_from_slice(kind.text().as_bytes())?;
                out.extend_from_slice(b" name has ")?;
                write_number(*len as u64, out)?;
                out.extend_from_slice(b" bytes (255 at most)")
            }
            NameFault::BadByte { at, byte } => {
                out.extend_from_slice(kind.text().as_bytes())?;
                write_bad_byte(*at, *byte, out)
            }
            NameFault::OutOfMemory => out.extend_from_slice(OUT_OF_MEMORY),
        }
    }
}

impl ValueFault {
    /// The reason why a text is no value.
    #[tactic(auto, unfolding(crate::specs::Faults::value_fault_text))]
    pub fn text(self) -> &'static str
        ensures { result.now ≡ value_fault_text self }
    {
        match self {
            ValueFault::Float => "floats are not stored",
            ValueFault::BadValue => "bad value",
            ValueFault::ValueTooLarge => "value too large",
        }
    }
}

impl TagsFault {
    /// Writes why pairs are no tags. Where there is no memory nothing is written.
    pub fn write_text(&self, out: &mut Vec<u8>) -> Result<(), AllocError>
        ensures ok { OnOk result (out.new.items ≡ out.old.items ++ tags_fault_text self.now) }
        ensures err { OnErr result (out.new.items ≡ out.old.items) }
    {
        let start = out.len();
        let written = self.write_behind(out);
        if written.is_err() {
            out.truncate(start);
        }
        written
    }

    #[tactic(auto, using(std::proofs::lemmas::List::append_assoc), unfolding(crate::specs::Faults::tags_fault_text))]
    fn write_behind(&self, out: &mut Vec<u8>) -> Result<(), AllocError>
        ensures ok { OnOk result (out.new.items ≡ out.old.items ++ tags_fault_text self.now) }
        ensures err { OnErr result (Keeps out.old.items out.new.items) }
    {
        match self {
            TagsFault::NoTags => out.extend_from_slice(b"no tags"),
            TagsFault::TwoValues { key } => {
                out.extend_from_slice(b"two values for tagk ")?;
                out.extend_from_slice(key.bytes())
            }
            TagsFault::TooManyTags { count } => {
                write_number(*count as u64, out)?;
                out.extend_from_slice(b" tags (8 at most)")
            }
            TagsFault::OutOfMemory => out.extend_from_slice(OUT_OF_MEMORY),
        }
    }
}

impl PointFault {
    /// Writes why a line is no point. Where there is no memory nothing is written.
    pub fn write_text(&self, out: &mut Vec<u8>) -> Result<(), AllocError>
        ensures ok { OnOk result (out.new.items ≡ out.old.items ++ point_fault_text self.now) }
        ensures err { OnErr result (out.new.items ≡ out.old.items) }
    {
        let start = out.len();
        let written = self.write_behind(out);
        if written.is_err() {
            out.truncate(start);
        }
        written
    }

    #[tactic(auto, using(std::proofs::lemmas::List::append_assoc), unfolding(crate::specs::Faults::point_fault_text))]
    fn write_behind(&self, out: &mut Vec<u8>) -> Result<(), AllocError>
        ensures ok { OnOk result (out.new.items ≡ out.old.items ++ point_fault_text self.now) }
        ensures err { OnErr result (Keeps out.old.items out.new.items) }
    {
        match self {
            PointFault::FewWords { found } => {
                out.extend_from_slice(b"not enough words (4 needed, ")?;
                write_number(*found as u64, out)?;
                out.extend_from_slice(b" found)")
            }
            PointFault::Metric { fault } => fault.write_text(Kind::Metric, out),
            PointFault::Time => out.extend_from_slice(b"bad time"),
            PointFault::Value { fault } => out.extend_from_slice(fault.text().as_bytes()),
            PointFault::TagForm { index } => {
                write_tag(*index, out)?;
                out.extend_from_slice(b" has no =")
            }
            PointFault::TagKey { index, fault } => {
                write_tag(*index, out)?;
                out.extend_from_slice(b": ")?;
                fault.write_text(Kind::TagKey, out)
            }
            PointFault::TagValue { index, fault } => {
                write_tag(*index, out)?;
                out.extend_from_slice(b": ")?;
                fault.write_text(Kind::TagValue, out)
            }
            PointFault::Tags { fault } => fault.write_text(out),
            PointFault::OutOfMemory => out.extend_from_slice(OUT_OF_MEMORY),
        }
    }
}

#[tactic(auto, using(std::proofs::lemmas::List::append_assoc))]
fn write_bad_byte(at: usize, byte: u8, out: &mut Vec<u8>) -> Result<(), AllocError>
    ensures ok { OnOk result (out.new.items
        ≡ out.old.items ++ (codes " name has byte 0x" ++ hex_byte byte ++ codes " at " ++ decimal at)) }
    ensures err { OnErr result (Keeps out.old.items out.new.items) }
{
    out.extend_from_slice(b" name has byte 0x")?;
    write_byte(byte, out)?;
    out.extend_from_slice(b" at ")?;
    write_number(at as u64, out)
}

fn write_tag(index: usize, out: &mut Vec<u8>) -> Result<(), AllocError>
    ensures ok { OnOk result (out.new.items ≡ out.old.items ++ (codes "tag " ++ decimal index)) }
    ensures err { OnErr result (Keeps out.old.items out.new.items) }
{
    out.extend_from_slice(b"tag ")?;
    write_number(index as u64, out)
}

/// Writes a byte in two hexadecimal digits.
fn write_byte(byte: u8, out: &mut Vec<u8>) -> Result<(), AllocError>
    ensures ok { OnOk result (out.new.items ≡ out.old.items ++ hex_byte byte) }
    ensures err { OnErr result (out.new.items ≡ out.old.items) }
{
    out.extend_from_slice(&[hex_digit(byte / 16), hex_digit(byte % 16)])
}

fn hex_digit(n: u8) -> u8
    requires { n < 16 }
    ensures { result ≡ hex_digit n }
{
    if n < 10 { b'0' + n } else { b'a' - 10 + n }
}
