//! The bodies that are always the same.
ghost use Rattle.std.specs.Prelude.{◌≡◌};
ghost use Rattle.http_reply.specs.FixedBodies.{version_body, aggregators_body};

/// The version: whole numbers alone, and the interface's second.
pub fn version_body() -> &'static [u8]
    ensures { result.now ≡ version_body }
{
    b"{\"profile\":\"integer\",\"version\":\"2\"}"
}

/// The names of the aggregators, in byte order.
pub fn aggregators_body() -> &'static [u8]
    ensures { result.now ≡ aggregators_body }
{
    b"[\"avg\",\"count\",\"max\",\"mimmax\",\"mimmin\",\"min\",\"none\",\"sum\",\"zimsum\"]"
}
