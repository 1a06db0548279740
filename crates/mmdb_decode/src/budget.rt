//! What a reading has cost.
ghost use Rattle.std.specs.Prelude.{◌≡◌, ◌<◌, ◌^◌, ◌-◌, true};
ghost use Rattle.std.specs.Result.{result_ok};
ghost use Rattle.mmdb_decode.specs.State.{spent_of, begun as spec_begun, Within};

use mmdb_format::decode_error_kind::DecodeErrorKind;

/// The most values of a budget.
pub const MAX_VALUES: usize = 65_536;

/// The most bytes of texts and byte strings of a budget.
pub const MAX_BYTES: usize = 2_097_152;

/// Values and bytes charged so far.
#[derive(Clone, Copy)]
pub struct Charges {
    pub values: u32,
    pub bytes: u32,
}

/// The budget with so much more charged. Without a budget nothing is charged.
#[inline(always)]
pub(crate) fn spent(
    budget: Option<Charges>,
    values: usize,
    bytes: usize,
) -> Result<Option<Charges>, DecodeErrorKind>
    requires within { Within budget }
    requires few { values < 2 ^ 32 }
    requires short { bytes < 2 ^ 32 }
    ensures value { result_ok result ≡ spent_of budget values bytes }
{
    let Some(charges) = budget else {
        return Ok(None);
    };
    let values = charges.values as usize + values;
    let bytes = charges.bytes as usize + bytes;
    if values > MAX_VALUES {
        return Err(DecodeErrorKind::TooManyValues);
    }
    if bytes > MAX_BYTES {
        return Err(DecodeErrorKind::TooManyBytes);
    }
    Ok(Some(Charges {
        values: values as u32,
        bytes: bytes as u32,
    }))
}

/// The budget with `bytes` more bytes charged.
#[inline(always)]
pub(crate) fn spent_bytes(
    budget: Option<Charges>,
    bytes: usize,
) -> Result<Option<Charges>, DecodeErrorKind>
    requires within { Within budget }
    requires short { bytes < 2 ^ 32 }
    ensures value { result_ok result ≡ spent_of budget 0 bytes }
{
    let Some(charges) = budget else {
        return Ok(None);
    };
    let bytes = charges.bytes as usize + bytes;
    if bytes > MAX_BYTES {
        return Err(DecodeErrorKind::TooManyBytes);
    }
    Ok(Some(Charges {
        values: charges.values,
        bytes: bytes as u32,
    }))
}

/// The budget with the bytes charged that are more than the free ones. Where all are free it stays as it is.
#[inline(always)]
#[tactic(auto, using(crate::proofs::StepLaws::nothing_spent))]
pub(crate) fn spent_past(
    budget: Option<Charges>,
    bytes: usize,
    free: usize,
) -> Result<Option<Charges>, DecodeErrorKind>
    requires within { Within budget }
    requires short { bytes < 2 ^ 32 }
    ensures value { result_ok result ≡ spent_of budget 0 (bytes - free) }
{
    if bytes <= free {
        return Ok(budget);
    }
    spent_bytes(budget, bytes - free)
}

/// The budget, begun with one value where it has not begun.
#[inline(always)]
pub(crate) fn begun(budget: Option<Charges>) -> Option<Charges>
    requires { Within budget }
    ensures value { result ≡ spec_begun true budget }
    ensures within { Within result }
{
    match budget {
        Some(charges) => Some(charges),
        None => Some(Charges {
            values: 1,
            bytes: 0,
        }),
    }
}
