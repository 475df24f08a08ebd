//! Which names are given ids, and how points are stored, as words say.
ghost use Rattle.std.specs.Prelude.{◌≡◌, IfOk};
ghost use Rattle.command_words.specs.PlainAsked.{plain_names, plain_pattern, plain_patterns};
ghost use Rattle.tsd_run.specs.Runs.{admission_of};

use command_words::{NameOptions, PatternTexts};
use point_put::Config;
use short_bytes::short::Bytes;
use std::alloc::{AllocError, Global};
use tsd_hooks::Patterns;

/// Of which kinds names that have no id are given one, and whether points are appended.
pub fn config_of(names: &NameOptions<'_>, appends: bool) -> Config
    ensures { result ≡ (admission_of (plain_names names.now) appends).config }
{
    Config {
        auto_metric: names.auto_metric,
        auto_tag_key: names.auto_tag_key,
        auto_tag_value: names.auto_tag_value,
        appends,
    }
}

/// Patterns of these texts. It fails only for want of memory.
pub fn patterns_of(alloc: Global, texts: &PatternTexts<'_>) -> Result<Patterns, AllocError>
    ensures { IfOk result (λ patterns. patterns ≡ plain_patterns texts.now) }
{
    Ok(Patterns {
        metric: pattern_of(alloc, texts.metric)?,
        tag_key: pattern_of(alloc, texts.tag_key)?,
        tag_value: pattern_of(alloc, texts.tag_value)?,
    })
}

/// The pattern of a text, where there is one. It fails only for want of memory.
fn pattern_of(alloc: Global, text: Option<&[u8]>) -> Result<Option<Bytes>, AllocError>
    ensures { IfOk result (λ pattern. pattern ≡ plain_pattern text.entry) }
{
    match text {
        Some(text) => Ok(Some(Bytes::of(alloc, text)?)),
        None => Ok(None),
    }
}
