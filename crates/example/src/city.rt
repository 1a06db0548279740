//! What a City database says of an address.
use maxminddb::geoip2::City;
use maxminddb::{LookupResult, path};

/// Prints one field, read along a path without the rest of the record, and then what the record says.
pub(crate) fn show(rt: &HostRuntime, found: &LookupResult<'_, Vec<u8>>) -> anyhow::Result<()> {
    let code: Option<&str> = found.decode_path(rt.alloc(), &path!["country", "iso_code"])?;
    println!(rt; "country: {}", code.unwrap_or("-"))?;
    if let Some(city) = found.decode::<City<'_>>(rt.alloc())? {
        println!(rt; "city: {}", city.city.names.english.unwrap_or("-"))?;
        for part in &city.subdivisions {
            println!(rt; "part: {}", part.iso_code.unwrap_or("-"))?;
        }
    }
    Ok(())
}
