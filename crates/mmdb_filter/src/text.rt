//! The text of a row.
ghost use Rattle.std.specs.Prelude.{◌≡◌, ◌+◌, ◌≤◌, length};
ghost use Rattle.mmdb_filter.specs.Lines.{text_length as spec_text_length, seen_of, is_long as spec_is_long};

/// How many bytes of a row's text additions mostly see.
pub const MOST_SEEN: usize = 65_536;

/// How many bytes of a row's text additions may ask to see.
pub const MOST_ASKED: usize = 1 << 20;

/// How many bytes more are held of a row than are seen: so it is known whether a text is longer, whatever its end is.
pub(crate) const MOST_BEHIND: usize = 3;

/// How long a row is without its end, `\n` or `\r\n`.
#[tactic(auto, unfolding(crate::specs::Lines::text_length))]
pub(crate) fn text_length(row: &[u8]) -> usize
    ensures length { result ≡ spec_text_length row.now }
    ensures within { result ≤ length row.now }
    ensures short { length row.now ≤ result + 2 }
{
    let len = row.len();
    if len > 0 && row[len - 1] == b'\n' {
        if len > 1 && row[len - 2] == b'\r' {
            len - 2
        } else {
            len - 1
        }
    } else {
        len
    }
}

/// What additions see that see so many bytes at most of a row whose text has `len` bytes: the text or, of a longer one, its
/// front, and whether it is longer.
#[inline(always)]
pub(crate) fn seen(row: &[u8], len: usize, most: usize) -> (&[u8], bool)
    requires text { len ≡ spec_text_length row.now }
    requires within { len ≤ length row.now }
    ensures text { result.0.now ≡ seen_of most row.now }
    ensures long { result.1 ≡ spec_is_long most row.now }
{
    let front = len.min(most);
    (&row[..front], len > most)
}
