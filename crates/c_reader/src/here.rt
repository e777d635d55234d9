//! How far a text was taken apart.

ghost use Rattle.std.specs.Prelude.{◌≡◌, ◌+◌, ◌≤◌, ◌<◌, ◌^◌};
ghost use Rattle.c_tree.specs.Scan as spec;
ghost use Rattle.c_reader.specs.Scanning.{here};

/// How far a text was taken apart.
#[derive(Clone, Copy, Debug, PartialEq, Eq)]
pub struct Here {
    /// How many bytes were read.
    pub place: usize,
    /// The line, counted from 1.
    pub line: u32,
    /// How many constants the text has made.
    pub constants: u32,
    /// Whether no token stands in this line yet.
    pub fresh: bool,
}

/// At the beginning of a text.
pub fn start() -> Here
    ensures answer { here result ≡ spec.start }
{
    Here {
        place: 0,
        line: 1,
        constants: 0,
        fresh: true,
    }
}

/// Behind blanks in which so many lines end.
pub fn passed(at: Here, bytes: usize, lines: u32) -> Here
    requires { (at.place + bytes ≤ 262144) × (at.line + lines ≤ 262145) }
    ensures answer { here result ≡ spec.passed (here at) bytes lines }
{
    Here {
        place: at.place + bytes,
        line: at.line + lines,
        constants: at.constants,
        fresh: at.fresh || 0 < lines,
    }
}

/// Behind a token.
pub fn taken(at: Here, bytes: usize) -> Here
    requires { at.place + bytes ≤ 262144 }
    ensures answer { here result ≡ spec.taken (here at) bytes }
{
    Here {
        place: at.place + bytes,
        line: at.line,
        constants: at.constants,
        fresh: false,
    }
}

/// Behind a line that makes a constant.
pub fn made(at: Here, bytes: usize) -> Here
    requires { (at.place + bytes ≤ 262144) × (at.constants ≤ 262144) }
    ensures answer { here result ≡ spec.made (here at) bytes }
{
    Here {
        place: at.place + bytes,
        line: at.line,
        constants: at.constants + 1,
        fresh: false,
    }
}
