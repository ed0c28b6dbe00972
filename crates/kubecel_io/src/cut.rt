//! Cuts a text into its documents, one byte at a time.
ghost use Rattle.kubecel_io.specs.Documents.{closes, depth_after, ends, is_space, mode_after, opens};
ghost use Rattle.std.specs.Prelude.{◌≡◌, ◌≤◌, IfSome};

/// The position of a byte relative to the strings of a document.
#[derive(Clone, Copy, Drop, PartialEq, Eq)]
pub enum Mode {
    /// Outside strings.
    Outside,
    /// Inside a string.
    Within,
    /// After a backslash in a string.
    Escaped,
}

/// Reports whether a byte is JSON white space.
pub(crate) fn is_space(byte: u8) -> bool
    ensures { result ≡ is_space byte }
{
    matches!(byte, b' ' | b'\t' | b'\n' | b'\r')
}

fn opens(byte: u8) -> bool
    ensures { result ≡ opens byte }
{
    matches!(byte, b'{' | b'[')
}

fn closes(byte: u8) -> bool
    ensures { result ≡ closes byte }
{
    matches!(byte, b'}' | b']')
}

impl Mode {
    /// Returns the position of the byte that follows `byte`.
    pub(crate) fn after(self, byte: u8) -> Mode
        ensures { result ≡ mode_after self byte }
    {
        match self {
            Mode::Outside if byte == b'"' => Mode::Within,
            Mode::Outside => Mode::Outside,
            Mode::Within if byte == b'\\' => Mode::Escaped,
            Mode::Within if byte == b'"' => Mode::Outside,
            Mode::Within | Mode::Escaped => Mode::Within,
        }
    }

    /// Returns the number of open brackets after a byte. `None` if it overflows `usize`.
    pub(crate) fn depth_after(self, depth: usize, byte: u8) -> Option<usize>
        ensures { IfSome result (λ n. n ≡ depth_after self depth byte) }
    {
        match self {
            Mode::Outside if opens(byte) => depth.checked_add(1),
            Mode::Outside if closes(byte) => Some(depth.saturating_sub(1)),
            Mode::Outside | Mode::Within | Mode::Escaped => Some(depth),
        }
    }

    /// Returns the number of open brackets after a byte, if at most 127 are open before it.
    pub(crate) fn level_after(self, depth: usize, byte: u8) -> usize
        requires { depth ≤ 127 }
        ensures { result ≡ depth_after self depth byte }
    {
        match self {
            Mode::Outside if opens(byte) => depth + 1,
            Mode::Outside if closes(byte) => depth.saturating_sub(1),
            Mode::Outside | Mode::Within | Mode::Escaped => depth,
        }
    }

    /// Reports whether a document may end after a byte. `left` is the number of brackets still
    /// open.
    pub(crate) fn ends(self, depth: usize, left: usize, byte: u8) -> bool
        requires { left ≡ depth_after self depth byte }
        ensures { result ≡ ends self depth byte }
    {
        match self {
            Mode::Outside => left == 0 && (closes(byte) || is_space(byte)),
            Mode::Within | Mode::Escaped => false,
        }
    }
}
