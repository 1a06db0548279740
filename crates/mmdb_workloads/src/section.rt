//! Values of a data section.
use crate::keys::Key;
use std::alloc::{AllocError, Global};

/// The pointer's control byte.
const POINTER: u8 = 1 << 5;

/// The kinds of values.
#[derive(Clone, Copy)]
pub(crate) enum Kind {
    Text,
    Double,
    U16,
    U32,
    Map,
    U64,
    Array,
    Bool,
}

impl Kind {
    // Its number in the format.
    fn number(self) -> u8 {
        match self {
            Kind::Text => 2,
            Kind::Double => 3,
            Kind::U16 => 5,
            Kind::U32 => 6,
            Kind::Map => 7,
            Kind::U64 => 9,
            Kind::Array => 11,
            Kind::Bool => 14,
        }
    }
}

/// A data section that grows, and where the texts of keys stand in it.
#[derive(Drop)]
pub(crate) struct Section {
    pub(crate) bytes: Vec<u8>,
    keys: Vec<u32>,
}

// What the control byte says of a size.
fn size_bits(size: usize) -> u8 {
    if size < 29 {
        (size & 31) as u8
    } else if size < 285 {
        29
    } else {
        30
    }
}

impl Section {
    /// With the texts of all keys.
    pub(crate) fn new(alloc: Global) -> Result<Section, AllocError> {
        let mut section = Section {
            bytes: Vec::new(alloc),
            keys: Vec::new(alloc),
        };
        for key in Key::ALL {
            let at = section.place();
            section.keys.push(at)?;
            section.text(key.text())?;
        }
        Ok(section)
    }

    /// Without any key.
    pub(crate) fn without_keys(alloc: Global) -> Section {
        Section {
            bytes: Vec::new(alloc),
            keys: Vec::new(alloc),
        }
    }

    /// Where the next value will stand.
    pub(crate) fn place(&self) -> u32 {
        (self.bytes.len() as u64 & 0xffff_ffff) as u32
    }

    /// A header.
    pub(crate) fn header(&mut self, kind: Kind, size: usize) -> Result<(), AllocError> {
        let bits = size_bits(size);
        let number = kind.number();
        if number < 8 {
            self.bytes.push((number << 5) | bits)?;
        } else {
            self.bytes.push(bits)?;
            self.bytes.push(number.saturating_sub(7))?;
        }
        let [.., high, low] = (size.saturating_sub(285) as u64).to_be_bytes();
        match bits {
            29 => self.bytes.push((size.saturating_sub(29) & 0xff) as u8)?,
            30 => self.bytes.extend_from_slice(&[high, low])?,
            _ => {}
        }
        Ok(())
    }

    /// A pointer.
    pub(crate) fn pointer(&mut self, to: u32) -> Result<(), AllocError> {
        if to < 2048 {
            let [_, _, high, low] = to.to_be_bytes();
            self.bytes.extend_from_slice(&[POINTER | high, low])
        } else if to < 526_336 {
            let [_, high, middle, low] = (to - 2048).to_be_bytes();
            self.bytes
                .extend_from_slice(&[POINTER | 8 | high, middle, low])
        } else {
            let [top, high, middle, low] = (to - 526_336).to_be_bytes();
            self.bytes
                .extend_from_slice(&[POINTER | 16 | (top & 7), high, middle, low])
        }
    }

    /// A text.
    pub(crate) fn text(&mut self, text: &str) -> Result<(), AllocError> {
        self.header(Kind::Text, text.len())?;
        self.bytes.extend_from_slice(text.as_bytes())
    }

    /// A key, by a pointer to its text.
    pub(crate) fn key(&mut self, key: Key) -> Result<(), AllocError> {
        let to = self.keys.get(key as usize).copied().unwrap_or(0);
        self.pointer(to)
    }

    /// An integer, in as few bytes as it needs.
    pub(crate) fn integer(&mut self, kind: Kind, number: u64) -> Result<(), AllocError> {
        let bytes = number.to_be_bytes();
        let zeros = (number.leading_zeros() / 8) as usize;
        let (_, digits) = bytes.split_at(zeros.min(8));
        self.header(kind, digits.len())?;
        self.bytes.extend_from_slice(digits)
    }

    /// A truth value.
    pub(crate) fn truth(&mut self, truth: bool) -> Result<(), AllocError> {
        self.header(Kind::Bool, usize::from(truth))
    }

    /// A number of double precision.
    pub(crate) fn double(&mut self, number: f64) -> Result<(), AllocError> {
        let bits = if number.is_nan() { 0 } else { number.to_bits() };
        self.header(Kind::Double, 8)?;
        self.bytes.extend_from_slice(&bits.to_be_bytes())
    }
}
