//! Texts of addresses.
ghost use Rattle.std.specs.Prelude.{◌≡◌, ◌≤◌, IfSome};

/// The most bytes of an address's text; no address has more than 45.
const ROOM: usize = 47;

/// The text of an address.
#[derive(Clone, Copy)]
pub struct AddressText {
    length: u8,
    bytes: [u8; ROOM],
    ghost fits: { length ≤ 47 },
}

impl AddressText {
    ghost use Rattle.mmdb_addresses.specs.Spelling.{spelling};

    /// None.
    pub fn none() -> AddressText {
        AddressText {
            length: 0,
            bytes: [0; ROOM],
        }
    }

    /// A copy of a text, unless it is too long.
    #[inline(always)]
    pub fn of(text: &[u8]) -> Option<AddressText>
        ensures { IfSome result (λ copy. spelling copy ≡ text.now) }
    {
        let len = text.len();
        if len > ROOM {
            return None;
        }
        let mut bytes = [0; ROOM];
        bytes[..len].copy_from_slice(text);
        Some(AddressText {
            length: len as u8,
            bytes,
        })
    }

    /// Its bytes.
    #[inline(always)]
    pub fn as_slice(&self) -> &[u8]
        ensures { result.now ≡ spelling self.now }
    {
        &self.bytes[..usize::from(self.length)]
    }
}
