//! What words ask for.

use row_key::Widths;

/// What `batch` is asked: a range of milliseconds since 1970, both ends included, the text of a query, and whether times
/// are told in milliseconds.
#[derive(Clone, Copy, Drop)]
pub struct Batch<'a> {
    pub start: u64,
    pub end: u64,
    pub query: &'a [u8],
    pub ms: bool,
}

/// The texts with which the names of each kind that have no id must begin to be given one. Of a kind without a text each
/// name is allowed.
#[derive(Clone, Copy, Drop)]
pub struct PatternTexts<'a> {
    pub metric: Option<&'a [u8]>,
    pub tag_key: Option<&'a [u8]>,
    pub tag_value: Option<&'a [u8]>,
}

/// Of which kinds names that have no id are given one, and how these must begin.
#[derive(Clone, Copy, Drop)]
pub struct NameOptions<'a> {
    pub auto_metric: bool,
    pub auto_tag_key: bool,
    pub auto_tag_value: bool,
    pub patterns: PatternTexts<'a>,
}

/// What `stdio` is asked: which names are given ids, whether points are appended to the columns of their rows, how many bytes
/// the ids of each kind have, and how the metrics of points begin that are published at the end, if any are.
#[derive(Clone, Copy, Drop)]
pub struct Stdio<'a> {
    pub names: NameOptions<'a>,
    pub appends: bool,
    pub widths: Widths,
    pub publish: Option<&'a [u8]>,
}

/// What `serve` is asked: the port to listen on, or 0 for one that the system chooses, how many daemons there are, how many
/// workers each has, in how many regions data points stand, which names are given ids, whether points are appended to the
/// columns of their rows, whether the store begins from an image on the input, and whether its image is saved at the end.
#[derive(Clone, Copy, Drop)]
pub struct Serve<'a> {
    pub port: u16,
    pub daemons: u32,
    pub workers: u32,
    pub regions: u32,
    pub names: NameOptions<'a>,
    pub appends: bool,
    pub image: bool,
    pub save: bool,
}

/// What `import` is asked: whether rows are compacted, and how many bytes the ids of each kind have.
#[derive(Clone, Copy, Drop)]
pub struct Import {
    pub compact: bool,
    pub widths: Widths,
}

/// What `weave` is asked: the number from which it draws, and how many operations there are, at most 1,000,000.
#[derive(Clone, Copy, Drop)]
pub struct Weave {
    pub seed: u64,
    pub count: u32,
}

/// What words ask for.
#[derive(Clone, Copy, Drop)]
pub enum Asked<'a> {
    /// The answer of a query over points.
    Batch { batch: Batch<'a> },
    /// One connection, over the input and the output.
    Stdio { stdio: Stdio<'a> },
    /// Connections on a port.
    Serve { serve: Serve<'a> },
    /// The listing of a store that has the points of the input.
    Import { import: Import },
    /// The points of a listing whose ids have these widths.
    Dump { widths: Widths },
    /// What is wrong with a listing whose ids have these widths.
    Fsck { widths: Widths },
    /// A listing whose ids have these widths, mended.
    Fix { widths: Widths },
    /// What daemons leave that are interleaved by a number.
    Weave { weave: Weave },
    /// The image of a listing whose ids have these widths.
    Pack { widths: Widths },
    /// The listing of an image.
    Unpack,
}
