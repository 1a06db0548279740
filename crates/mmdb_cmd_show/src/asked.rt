//! What the arguments of `show` name: databases and addresses, in any order.
use std::alloc::{AllocError, Global};
use std::net::IpAddr;

/// Arguments, those that read as addresses apart.
#[derive(Drop)]
pub(crate) struct AskedTexts<'a> {
    pub(crate) addresses: Vec<IpAddr>,
    /// The others, each once.
    pub(crate) names: Vec<&'a str>,
}

impl<'a> AskedTexts<'a> {
    /// These arguments.
    pub(crate) fn new(alloc: Global, texts: &[&'a str]) -> Result<AskedTexts<'a>, AllocError> {
        let mut asked = AskedTexts {
            addresses: Vec::new(alloc),
            names: Vec::new(alloc),
        };
        for text in texts {
            match text.parse::<IpAddr>() {
                Ok(address) => asked.addresses.push(address)?,
                Err(_) if asked.names.contains(text) => {}
                Err(_) => asked.names.push(*text)?,
            }
        }
        Ok(asked)
    }
}
