//! The texts of strings and of keys.
ghost use Rattle.std.specs.Prelude.{◌≡◌, ◌<◌, length, IfOk, MatchOption, bytes_eq, string_bytes, take, drop};
ghost use Rattle.std.specs.Int.{from_le_bytes, to_le_bytes, w16, w32, w64};

use std::alloc::{AllocError, Global};
use std::marker::Model;
use std::rc::Rc;
use std::{fmt, str};

/// The largest number of bytes that a text holds in itself.
const SHORT_LEN: usize = 14;

/// A text of up to 14 bytes. What lies behind its length is zero, so that two texts are equal
/// exactly if their lengths and all their bytes are.
#[derive(Drop)]
struct ShortText {
    len: u8,
    bytes: [u8; 14],
}

impl Model for ShortText {
    ghost use Rattle.std.specs.Prelude.{◌≡◌, ◌-◌, ◌≤◌, ℕ, List, take, drop, replicate, IsUtf8};

    ghost Value = { List ℕ };

    ghost view = { λ s. take s.len s.bytes };

    ghost invariant = { λ s. (s.len ≤ 14) × ∥ IsUtf8 (take s.len s.bytes) ∥₁ × (drop s.len s.bytes ≡ replicate (14 - s.len) 0) };
}

/// Where the bytes of a text are.
#[derive(Drop)]
enum Stored {
    /// In the text itself.
    Short(ShortText),
    /// Behind a shared pointer.
    Long(Rc<String>),
}

/// The text of a string: up to 14 bytes are held in the value itself, more are shared.
pub struct Text {
    stored: Stored,
}

// By hand, so that a proof about code that owns one doesn't go through its parts.
impl Drop for Text {
    fn drop(self) {
        let Text { stored: _ } = self;
    }
}

// A text is moved as two words.
const _: () = prove!(size_of::<Text>() == 16);

impl Model for Text {
    ghost use Rattle.std.specs.Prelude.{ℕ, List};

    ghost Value = { List ℕ };

    ghost use Rattle.cel_value.specs.Stored.{stored_bytes};

    ghost view = { λ t. stored_bytes t.stored };
}

impl ShortText {
    /// A copy of a text, if it is short.
    #[inline]
    fn of(text: &str) -> Option<ShortText>
        ensures { MatchOption result (14 < length text.now) (λ s. s ≡ text.now) }
    {
        let len = text.len();
        if len > SHORT_LEN {
            return None;
        }
        let mut bytes = [0; 14];
        bytes[..len].copy_from_slice(text.as_bytes());
        Some(ShortText {
            len: len as u8,
            bytes,
        })
    }

    #[inline]
    fn as_str(&self) -> &str
        ensures { result.now ≡ self.now }
    {
        unsafe { str::from_utf8_unchecked(&self.bytes[..self.len as usize]) }
    }

    #[inline]
    fn copied(&self) -> ShortText
        ensures { result ≡ self.now }
    {
        ShortText {
            len: self.len,
            bytes: self.bytes,
        }
    }

    /// Whether two short texts are equal. It compares a few words, whatever the lengths.
    #[inline]
    fn is_same(&self, other: &ShortText) -> bool
        ensures { result ≡ bytes_eq self.now other.now }
    {
        are_same(&self.bytes, &other.bytes) && self.len == other.len
    }
}

/// Whether 14 bytes are the same.
#[inline]
fn are_same(a: &[u8; 14], b: &[u8; 14]) -> bool
    ensures { result ≡ bytes_eq a.now b.now }
{
    if first_word(a) != first_word(b) {
        return false;
    }
    if second_word(a) != second_word(b) {
        return false;
    }
    third_word(a) == third_word(b)
}

/// The first 8 of 14 bytes as a number.
#[inline]
fn first_word(bytes: &[u8; 14]) -> u64
    ensures value { result ≡ from_le_bytes w64 (take 8 bytes.now) }
    ensures bytes { to_le_bytes w64 result ≡ take 8 bytes.now }
{
    u64::from_le_bytes(*bytes[..8].first_chunk().unwrap())
}

/// The next 4 of 14 bytes as a number.
#[inline]
fn second_word(bytes: &[u8; 14]) -> u32
    ensures value { result ≡ from_le_bytes w32 (take 4 (drop 8 bytes.now)) }
    ensures bytes { to_le_bytes w32 result ≡ take 4 (drop 8 bytes.now) }
{
    u32::from_le_bytes(*bytes[8..].first_chunk().unwrap())
}

/// The last 2 of 14 bytes as a number.
#[inline]
fn third_word(bytes: &[u8; 14]) -> u16
    ensures value { result ≡ from_le_bytes w16 (take 2 (drop 12 bytes.now)) }
    ensures bytes { to_le_bytes w16 result ≡ take 2 (drop 12 bytes.now) }
{
    u16::from_le_bytes(*bytes[12..].first_chunk().unwrap())
}

impl Text {
    /// The text.
    #[inline]
    pub fn as_str(&self) -> &str
        ensures { result.now ≡ self.now }
    {
        match &self.stored {
            Stored::Short(text) => text.as_str(),
            Stored::Long(text) => text.as_str(),
        }
    }

    /// Whether two texts are equal.
    #[inline]
    pub fn is_same(&self, other: &Text) -> bool
        ensures { result ≡ bytes_eq self.now other.now }
    {
        match (&self.stored, &other.stored) {
            (Stored::Short(a), Stored::Short(b)) => a.is_same(b),
            _ => self.is_same_by_bytes(other),
        }
    }

    /// Equality of texts that aren't both short. It is a call, so that `is_same` stays short enough
    /// to be inlined.
    #[inline(never)]
    fn is_same_by_bytes(&self, other: &Text) -> bool
        ensures { result ≡ bytes_eq self.now other.now }
    {
        self.as_str() == other.as_str()
    }

    /// Returns the text of a string. A string of up to 14 bytes is copied into the text, a longer
    /// one is shared.
    ///
    /// # Errors
    /// [`AllocError`] if there is no memory to share it.
    pub fn of(alloc: Global, text: String) -> Result<Text, AllocError>
        ensures value { IfOk result (λ t. t ≡ string_bytes text) }
    {
        match ShortText::of(text.as_str()) {
            Some(short) => Ok(Text {
                stored: Stored::Short(short),
            }),
            None => Ok(Text::shared(Rc::new(alloc, text)?)),
        }
    }

    /// Returns a copy of a text. It allocates only if the text is longer than 14 bytes.
    ///
    /// # Errors
    /// [`AllocError`] if there is no memory for a copy.
    pub fn of_str(alloc: Global, text: &str) -> Result<Text, AllocError>
        ensures value { IfOk result (λ t. t ≡ text.now) }
    {
        match ShortText::of(text) {
            Some(short) => Ok(Text {
                stored: Stored::Short(short),
            }),
            None => Ok(Text::shared(Rc::new(alloc, String::from_str(alloc, text)?)?)),
        }
    }

    /// Shares a text that is shared already, of any length. It allocates nothing.
    #[inline]
    pub fn shared(text: Rc<String>) -> Text
        ensures { result ≡ string_bytes text.value }
    {
        Text {
            stored: Stored::Long(text),
        }
    }
}

/// Makes a copy. A long text is shared, so a copy allocates nothing.
impl Clone for Text {
    ghost is_clone = { λ text copy. copy ≡ text };

    #[inline]
    fn clone(&self) -> Result<Text, AllocError> {
        let stored = match &self.stored {
            Stored::Short(text) => Stored::Short(text.copied()),
            Stored::Long(text) => Stored::Long(text.clone()?),
        };
        Ok(Text { stored })
    }
}

impl fmt::Debug for Text {
    fn fmt<W: fmt::Write>(&self, f: &mut fmt::Formatter<W>) -> fmt::Result {
        fmt::Debug::fmt(&self.as_str(), f)
    }
}
