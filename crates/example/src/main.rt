#![tactic(auto)]

mod city;

use anyhow::Context;
use maxminddb::{Reader, Value, WithinOptions};
use std::net::IpAddr;

fn main(rt: HostRuntime) -> anyhow::Result<()> {
    let file = std::env::args(&rt)?.nth(1).context("no file is named")?;
    let reader = Reader::open_readfile(&rt, rt.alloc(), file.as_str())?;

    let address: IpAddr = "200.0.0.1".parse()?;
    let found = reader.lookup(address)?;
    let value: Option<Value<'_>> = found.decode(rt.alloc())?;
    println!(rt; "{address} is in {}: {value:?}", found.network()?)?;
    for item in reader.networks(rt.alloc(), WithinOptions::default())? {
        let found = item?;
        println!(rt; "{} {:?}", found.network()?, found.offset())?;
    }
    city::show(&rt, &reader.lookup("89.160.20.128".parse()?)?)
}
