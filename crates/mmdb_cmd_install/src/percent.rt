//! Shares of a hundred.
use mmdb_arguments::NoRequest;
use std::alloc::{AllocError, Global};

/// How many digits may come after the point.
const MOST_DIGITS: usize = 3;

/// A share, in thousandths of a hundredth.
#[derive(Clone, Copy)]
pub(crate) struct Percent {
    thousandths: u64,
}

/// All.
const WHOLE: u64 = 100_000;

// Whether a text is digits.
fn is_digits(text: &str) -> bool {
    !text.is_empty() && text.as_bytes().iter().all(|byte| byte.is_ascii_digit())
}

// The thousandths that digits after a point spell.
fn thousandths_behind(digits: &str) -> Option<u64> {
    let mut number = digits.parse::<u64>().ok()?;
    for _ in digits.len()..MOST_DIGITS {
        number = number.saturating_mul(10);
    }
    Some(number)
}

// The thousandths that a number spells, with digits after a point or without.
fn thousandths_of(text: &str) -> Option<u64> {
    let (whole, behind) = text.split_once('.').unwrap_or((text, "0"));
    if !is_digits(whole) || !is_digits(behind) || behind.len() > MOST_DIGITS {
        return None;
    }
    let whole = whole.parse::<u64>().ok()?.checked_mul(1000)?;
    whole.checked_add(thousandths_behind(behind)?)
}

/// The share that a text spells.
pub(crate) fn percent_of(alloc: Global, text: &str) -> Result<Percent, NoRequest> {
    match thousandths_of(text) {
        Some(thousandths) if thousandths <= WHOLE => Ok(Percent { thousandths }),
        _ => {
            let wanted = "not a number from 0 to 100, with at most three digits behind the point";
            Err(NoRequest::bad_argument(alloc, "--max-change", wanted))
        }
    }
}

impl Percent {
    /// Whether a part is more of a whole than this share.
    pub(crate) fn is_below(self, part: u64, whole: u64) -> bool {
        let part = u128::from(part).saturating_mul(u128::from(WHOLE));
        part > u128::from(whole).saturating_mul(u128::from(self.thousandths))
    }

    /// The share that a part is of a whole, or the next one up that has three digits behind the point.
    pub(crate) fn of(part: u64, whole: u64) -> Percent {
        let part = u128::from(part).saturating_mul(u128::from(WHOLE));
        let thousandths = part.div_ceil(u128::from(whole.max(1)));
        Percent {
            thousandths: u64::try_from(thousandths).unwrap_or(u64::MAX),
        }
    }

    /// The share as a number, without zeros at its end.
    pub(crate) fn text(self, alloc: Global) -> Result<String, AllocError> {
        let (whole, behind) = (self.thousandths / 1000, self.thousandths % 1000);
        let text: String = format!(in alloc; "{whole}.{behind:03}")?;
        let shown = text.as_str().trim_end_matches('0').trim_end_matches('.');
        String::from_str(alloc, shown)
    }
}
