//! What is told of a line.

use crate::text::Bad;
use std::alloc::Global;

/// A text that grows. Where memory runs out it is cut, which it says at the end.
#[derive(Drop)]
pub struct Told {
    text: String,
    whole: bool,
}

impl Told {
    /// Nothing yet.
    pub fn of(alloc: Global) -> Told {
        Told {
            text: String::new(alloc),
            whole: true,
        }
    }

    /// Adds a text.
    pub fn add(&mut self, text: &str) {
        let added = self.text.push_str(text).is_ok();
        self.whole &= added;
    }

    /// Adds a number.
    pub fn number(&mut self, number: u64) {
        let added = write!(self.text, "{number}").is_ok();
        self.whole &= added;
    }

    /// Adds a number with a sign.
    pub fn signed(&mut self, number: i64) {
        let added = write!(self.text, "{number}").is_ok();
        self.whole &= added;
    }

    /// Adds bytes, which are text wherever they come from names.
    pub fn bytes(&mut self, bytes: &[u8]) {
        match str::from_utf8(bytes) {
            Ok(text) => self.add(text),
            Err(_) => self.add("(no text)"),
        }
    }

    /// Adds bytes in hexadecimal.
    pub fn hex(&mut self, bytes: &[u8]) {
        for byte in bytes {
            let added = write!(self.text, "{byte:02x}").is_ok();
            self.whole &= added;
        }
    }

    /// Ends the last line, if it has no end.
    pub fn end_line(&mut self) {
        if !self.text.as_bytes().ends_with(b"\n") {
            self.add("\n");
        }
    }

    /// Takes all out.
    pub fn clear(&mut self) {
        self.text.clear();
    }

    /// The text, as far as memory sufficed.
    pub fn text(&self) -> &str {
        self.text.as_str()
    }

    /// Notes that something couldn't be added for want of memory.
    pub fn lose(&mut self) {
        self.whole = false;
    }

    /// Whether memory sufficed for all.
    pub fn is_whole(&self) -> bool {
        self.whole
    }

    /// `OutOfMemory` where it didn't.
    pub fn end(&self) -> Result<(), Bad> {
        if self.whole {
            Ok(())
        } else {
            Err(Bad::OutOfMemory)
        }
    }
}
