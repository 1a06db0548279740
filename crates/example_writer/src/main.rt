//! Writes a file of two networks, and looks addresses up in it.
#![tactic(auto)]

use maxminddb::writer::{IpVersion, Options, Row, Writer};
use maxminddb::{Reader, Value};
use std::alloc::{AllocError, Global};
use std::collections::BTreeMap;

// What the file says of itself.
fn options(alloc: Global) -> Result<Options, AllocError> {
    let mut description = BTreeMap::new(alloc);
    let language = String::from_str(alloc, "en")?;
    description.insert(language, String::from_str(alloc, "Our offices")?)?;
    Ok(Options {
        database_type: String::from_str(alloc, "Example-Offices")?,
        description,
        languages: Vec::new(alloc),
        build_epoch: 1,
        ip_version: IpVersion::V4,
        record_size: None,
    })
}

// The bytes of a file in which 10.0.0.0/8 has a value, but for 10.1.0.0/16.
fn file(alloc: Global) -> anyhow::Result<Vec<u8>> {
    let mut writer = Writer::new(alloc, options(alloc)?)?;
    let office = Value::Map(vec![in alloc; ("office", Value::String("Vienna"))]?);
    let index = writer.add_value(alloc, &office)?;
    writer.add_row(Row {
        network: "10.0.0.0/8".parse()?,
        value: Some(index),
    })?;
    writer.add_row(Row {
        network: "10.1.0.0/16".parse()?,
        value: None,
    })?;
    Ok(writer.write(alloc)?)
}

fn main(rt: HostRuntime) -> anyhow::Result<()> {
    let reader = Reader::from_source(rt.alloc(), file(rt.alloc())?)?;
    for address in ["10.0.0.1", "10.1.0.1"] {
        let found = reader.lookup(address.parse()?)?;
        let value: Option<Value<'_>> = found.decode(rt.alloc())?;
        println!(rt; "{address} is in {}: {value:?}", found.network()?)?;
    }
    Ok(())
}
