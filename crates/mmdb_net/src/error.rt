use thiserror::Error;

/// Why an address and a prefix, or a text, make no network.
#[derive(Clone, Copy, Debug, PartialEq, Eq, Error)]
pub enum IpNetworkError {
    /// The text before the `/` is no address.
    #[error("invalid address")]
    InvalidAddr,
    /// The prefix is above the number of bits of the address, or its text is no number of one to
    /// three ASCII digits.
    #[error("invalid prefix")]
    InvalidPrefix,
    /// The text has more than one `/`.
    #[error("invalid cidr format")]
    InvalidCidrFormat,
}
