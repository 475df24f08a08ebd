//! Where the head of a request ends.
ghost use Rattle.std.specs.Prelude.{◌≡◌, ◌<◌, length};
ghost use Rattle.http_requests.specs.HeadEnds.{IsSearched, Ends, is_line_end};
ghost use Rattle.http_requests.specs.HeadSteps.{Fronts, Steps};

/// What stands at the front of some bytes.
#[derive(Clone, Copy)]
enum Front {
    /// An empty line of so many bytes.
    Empty { len: usize },
    /// Something else.
    Other,
    /// What may be still the beginning of an empty line.
    Short,
}

/// What stands at the front.
#[tactic(auto, unfolding(crate::specs::HeadEnds::end_behind))]
fn look_ahead(bytes: &[u8]) -> Front
    ensures { Fronts bytes.now result }
{
    let Some((first, rest)) = bytes.split_first() else {
        return Front::Short;
    };
    if *first == 10 {
        return Front::Empty { len: 1 };
    }
    if *first != 13 {
        return Front::Other;
    }
    let Some((second, _)) = rest.split_first() else {
        return Front::Short;
    };
    if *second == 10 {
        Front::Empty { len: 2 }
    } else {
        Front::Other
    }
}

/// What one byte says of the end of the head.
#[derive(Clone, Copy)]
enum Step {
    /// It isn't told by this byte.
    More { begun: bool },
    /// The head ends here.
    End { end: usize },
    /// It can't be told yet.
    Short,
}

fn is_line_end(byte: u8) -> bool
    ensures { result ≡ is_line_end byte }
{
    byte == 10 || byte == 13
}

/// Looks at one byte.
fn look_at(bytes: &[u8], at: usize, begun: bool) -> Step
    requires { at < length bytes.now }
    ensures { Steps bytes.now at begun result }
{
    let byte = bytes[at];
    if !begun {
        return Step::More {
            begun: !is_line_end(byte),
        };
    }
    if byte != 10 {
        return Step::More { begun: true };
    }
    match look_ahead(&bytes[at + 1..]) {
        Front::Empty { len } => Step::End { end: at + 1 + len },
        Front::Other => Step::More { begun: true },
        Front::Short => Step::Short,
    }
}

/// Looks for the end of the head from a place on, and moves that place. Each byte is looked at once.
pub fn find_end(bytes: &[u8], at: &mut usize, begun: &mut bool) -> Option<usize>
    requires { IsSearched bytes.now at.old begun.old }
    ensures ends { Ends bytes.now result }
    ensures searched { IsSearched bytes.now at.new begun.new }
{
    while *at < bytes.len() {
        match look_at(bytes, *at, *begun) {
            Step::More { begun: seen } => {
                *begun = seen;
                *at += 1;
            }
            Step::End { end } => return Some(end),
            Step::Short => return None,
        }
    }
    None
}
