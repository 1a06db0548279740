//! The types of the format by name and by number.
ghost use Rattle.std.specs.Prelude.{◌≡◌};
ghost use Rattle.mmdb_format.specs.Kinds.{kind_of_number};

/// The type number of a pointer.
pub const POINTER: u16 = 1;

/// The type number of a text.
pub const TEXT: u16 = 2;

/// The type number of a number of double precision.
pub const DOUBLE: u16 = 3;

/// The type number of a string of bytes.
pub const BYTES: u16 = 4;

/// The type number of an unsigned number of 16 bits.
pub const U16: u16 = 5;

/// The type number of an unsigned number of 32 bits.
pub const U32: u16 = 6;

/// The type number of a map.
pub const MAP: u16 = 7;

/// The type number of a signed number of 32 bits.
pub const I32: u16 = 8;

/// The type number of an unsigned number of 64 bits.
pub const U64: u16 = 9;

/// The type number of an unsigned number of 128 bits.
pub const U128: u16 = 10;

/// The type number of an array.
pub const ARRAY: u16 = 11;

/// The type number of a truth value.
pub const BOOL: u16 = 14;

/// The type number of a number of single precision.
pub const FLOAT: u16 = 15;

/// The type of a value that is no pointer.
#[derive(Clone, Copy, Debug, PartialEq, Eq)]
pub enum Kind {
    Text,
    Double,
    Bytes,
    U16,
    U32,
    Map,
    I32,
    U64,
    U128,
    Array,
    Bool,
    Float,
    /// A type number that the format gives to no value.
    Unknown(u16),
}

impl Kind {
    /// The type that has this number.
    #[inline(always)]
    pub fn of_number(number: u16) -> Kind
        ensures { result ≡ kind_of_number number }
    {
        match number {
            TEXT => Kind::Text,
            DOUBLE => Kind::Double,
            BYTES => Kind::Bytes,
            U16 => Kind::U16,
            U32 => Kind::U32,
            MAP => Kind::Map,
            I32 => Kind::I32,
            U64 => Kind::U64,
            U128 => Kind::U128,
            ARRAY => Kind::Array,
            BOOL => Kind::Bool,
            FLOAT => Kind::Float,
            _ => Kind::Unknown(number),
        }
    }

    /// What errors call the type.
    pub(crate) fn name(self) -> &'static str {
        match self {
            Kind::Text => "string",
            Kind::Double => "double",
            Kind::Bytes => "bytes",
            Kind::U16 => "u16",
            Kind::U32 => "u32",
            Kind::Map => "map",
            Kind::I32 => "i32",
            Kind::U64 => "u64",
            Kind::U128 => "u128",
            Kind::Array => "array",
            Kind::Bool => "bool",
            Kind::Float => "float",
            Kind::Unknown(_) => "value",
        }
    }
}
