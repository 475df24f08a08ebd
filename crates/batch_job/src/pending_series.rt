//! What is pending of one series in one form.
ghost use Rattle.std.specs.Prelude.{◌≡◌, ◌∷◌, ◌++◌, [], IfOk, OnErr, OnOk};
ghost use Rattle.batch_job.specs.PendingSeries.{IsOneOf, pushed_if};

use crate::series_text::SeriesText;
use crate::series_values::Values;
use std::alloc::{AllocError, Global};
use tsd_base::text_parts::TextParts;

/// The values of a series, and the text by which it came last.
#[derive(Drop)]
pub struct PendingSeries {
    pub values: Values,
    /// `None` where there was no memory for it.
    pub text: Option<SeriesText>,
}

impl PendingSeries {
    /// A series of one value. It fails only for want of memory.
    pub fn make(
        alloc: Global,
        time: u64,
        value: i64,
        text: Option<SeriesText>,
    ) -> Result<PendingSeries, AllocError>
        ensures values { IfOk result (λ pending. pending.values ≡ (time, value) ∷ []) }
        ensures text { IfOk result (λ pending. pending.text ≡ text) }
    {
        let mut values = Values::make(alloc);
        values.push(time, value)?;
        Ok(PendingSeries { values, text })
    }

    /// Adds the value of the parts of a text, where it is the text of this series; the answer says whether it is.
    /// It fails only for want of memory, and then nothing is changed.
    #[inline]
    pub fn push_of(&mut self, parts: &TextParts<'_>) -> Result<bool, AllocError>
        ensures known { IfOk result (λ known. IsOneOf self.old parts.now known) }
        ensures values { IfOk result (λ known. self.new.values ≡ pushed_if known self.old.values parts.now) }
        ensures err { OnErr result (self.new.values ≡ self.old.values) }
        ensures text { self.new.text ≡ self.old.text }
    {
        if !self.is_of(parts) {
            return Ok(false);
        }
        self.values.push(parts.time, parts.value)?;
        Ok(true)
    }

    /// Whether the parts of a text are those of this series.
    #[inline]
    fn is_of(&self, parts: &TextParts<'_>) -> bool
        ensures { IsOneOf self.now parts.now result }
    {
        match &self.text {
            Some(text) => text.is_of(parts),
            None => false,
        }
    }

    /// Adds a value, and keeps another text where there is one. It fails only for want of memory, and then nothing is changed.
    pub fn push(
        &mut self,
        time: u64,
        value: i64,
        text: Option<SeriesText>,
    ) -> Result<(), AllocError>
        ensures values { OnOk result (self.new.values ≡ self.old.values ++ (time, value) ∷ []) }
        ensures text { OnOk result (self.new.text ≡ text) }
        ensures err { OnErr result (self.new ≡ self.old) }
    {
        self.values.push(time, value)?;
        self.text = text;
        Ok(())
    }

    /// Its values alone.
    pub fn into_values(self) -> Values
        ensures { result ≡ self.values }
    {
        let PendingSeries { values, text: _ } = self;
        values
    }
}
