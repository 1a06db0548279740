//! Kinds of bytes in texts that have addresses.
ghost use Rattle.std.specs.Prelude.{◌≡◌, ◌+◌, ◌≤◌, length, drop};
ghost use Rattle.std.specs.List.{prefix_len};
ghost use Rattle.mmdb_addresses.specs.Bytes.{is_blank as spec_is_blank, ends_word as spec_ends_word, is_name_byte as spec_is_name_byte};
ghost use Rattle.mmdb_addresses.specs.Kinds.{has as spec_has};

/// A kind of bytes.
#[derive(Clone, Copy)]
pub(crate) enum AddressKind {
    /// A space or a tab.
    Blank,
    /// None that ends a word of a cell.
    InWord,
    /// A letter, a digit, `_`, `-` or `.`.
    Name,
    /// One of these, or `:`.
    InRun,
    /// None of these.
    OffRun,
    /// Any other than this one.
    Not(u8),
}

/// Whether a byte is a space or a tab.
pub(crate) fn is_blank(byte: u8) -> bool
    ensures { result ≡ spec_is_blank byte }
{
    byte == b' ' || byte == b'\t'
}

/// Whether a byte ends a word of a cell: a blank, a comma or a semicolon.
#[inline(always)]
pub(crate) fn ends_word(byte: u8) -> bool
    ensures { result ≡ spec_ends_word byte }
{
    byte == b' ' || byte == b'\t' || byte == b',' || byte == b';'
}

// Whether a byte is a letter or a digit of ASCII, `_`, `-` or `.`.
#[inline(always)]
fn is_name_byte(byte: u8) -> bool
    ensures { result ≡ spec_is_name_byte byte }
{
    match byte {
        b'0'..=b'9' | b'a'..=b'z' | b'A'..=b'Z' | b'_' | b'-' | b'.' => true,
        _ => false,
    }
}

impl AddressKind {
    // Whether a byte is of this kind.
    #[inline(always)]
    fn has(self, byte: u8) -> bool
        ensures { result ≡ spec_has self byte }
    {
        match self {
            AddressKind::Blank => is_blank(byte),
            AddressKind::InWord => !ends_word(byte),
            AddressKind::Name => is_name_byte(byte),
            AddressKind::InRun => is_name_byte(byte) || byte == b':',
            AddressKind::OffRun => !is_name_byte(byte) && byte != b':',
            AddressKind::Not(other) => byte != other,
        }
    }
}

/// Where bytes of a kind end that begin at an index.
#[inline(always)]
pub(crate) fn end_of(kind: AddressKind, text: &[u8], from: usize) -> usize
    requires { from ≤ length text.now }
    ensures end { result ≡ from + prefix_len (spec_has kind) (drop from text.now) }
    ensures within { result ≤ length text.now }
{
    let mut at = from;
    while at < text.len() && kind.has(text[at]) {
        at += 1;
    }
    at
}
