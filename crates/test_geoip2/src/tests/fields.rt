//! Each record over a section that has all its fields, in another order than the struct, with unknown
//! fields of every type between them.
use super::memory::{expect_empty, expect_no_record, expect_none};
use super::parts::{Parts, parts_reported};
use super::reads::Reads;
use super::section::{Row, with_unknown};
use mmdb_geoip2::{
    AnonymousIp, Asn, City, ConnectionType, Country, DensityIncome, Domain, Enterprise, Isp, Names,
    city, country, enterprise,
};
use mmdb_record::decode::Decode;
use mmdb_record::first_value::decode;
use mmdb_vectors::answer::shown;
use mmdb_vectors::failures::Failures;
use std::fmt::Debug;

impl Reads {
    // A row's section is read as a record where every allocation fails, and `Debug` shows the record so; so is a map
    // without a pair, and a text is read as none.
    fn expect_read<'de, T: Decode<'de> + Debug>(&'de mut self, row: &Row<'_>) {
        self.room = with_unknown(self.alloc, row);
        let (failures, alloc, section) = (&mut self.failures, self.alloc, self.room.as_slice());
        expect_none::<T>(failures, alloc, section);
        expect_empty::<T>(failures, alloc);
        expect_no_record::<T>(failures, alloc);
        failures.expect_text(
            &section,
            shown(alloc, decode::<T>(alloc, section)),
            row.shown,
        );
    }

    // A field of each part of the record that a row's section is read as; so is a map without a pair.
    fn expect_parts<'de, T: Decode<'de> + Parts>(&'de mut self, row: &Row<'_>) {
        self.room = with_unknown(self.alloc, row);
        let (failures, alloc) = (&mut self.failures, self.alloc);
        expect_empty::<T>(failures, alloc);
        let text = parts_reported::<T>(alloc, self.room.as_slice());
        failures.expect_text(&row.before, text, row.shown);
    }
}

#[test]
fn parts_of_a_country(rt: HostRuntime) -> Result<(), Failures> {
    let mut reads = Reads::new(rt.alloc());
    reads.expect_read::<Names<'_>>(&NAMES);
    reads.expect_read::<country::Continent<'_>>(&CONTINENT);
    reads.expect_read::<country::Country<'_>>(&COUNTRY);
    reads.expect_read::<country::RepresentedCountry<'_>>(&REPRESENTED_COUNTRY);
    reads.expect_read::<country::Traits>(&COUNTRY_TRAITS);
    reads.verdict()
}

#[test]
fn parts_of_a_city(rt: HostRuntime) -> Result<(), Failures> {
    let mut reads = Reads::new(rt.alloc());
    reads.expect_read::<city::City<'_>>(&CITY);
    reads.expect_read::<city::Location<'_>>(&LOCATION);
    reads.expect_read::<city::Postal<'_>>(&POSTAL);
    reads.expect_read::<city::Subdivision<'_>>(&SUBDIVISION);
    reads.verdict()
}

#[test]
fn parts_of_an_enterprise(rt: HostRuntime) -> Result<(), Failures> {
    let mut reads = Reads::new(rt.alloc());
    reads.expect_read::<enterprise::City<'_>>(&ENTERPRISE_CITY);
    reads.expect_read::<enterprise::Country<'_>>(&ENTERPRISE_COUNTRY);
    reads.expect_read::<enterprise::Postal<'_>>(&ENTERPRISE_POSTAL);
    reads.expect_read::<enterprise::Subdivision<'_>>(&ENTERPRISE_SUBDIVISION);
    reads.expect_read::<enterprise::Traits<'_>>(&ENTERPRISE_TRAITS);
    reads.verdict()
}

#[test]
fn records_of_networks(rt: HostRuntime) -> Result<(), Failures> {
    let mut reads = Reads::new(rt.alloc());
    reads.expect_read::<Isp<'_>>(&ISP);
    reads.expect_read::<ConnectionType<'_>>(&CONNECTION_TYPE);
    reads.expect_read::<AnonymousIp>(&ANONYMOUS_IP);
    reads.expect_read::<DensityIncome>(&DENSITY_INCOME);
    reads.expect_read::<Domain<'_>>(&DOMAIN);
    reads.expect_read::<Asn<'_>>(&ASN);
    reads.verdict()
}

/// A country, whose parts have one field each.
#[rattlefmt::skip]
pub const TOP_COUNTRY: Row<'static> = Row {
    before: b"\xF2\x46traits\xE1\x4Ais_anycast\x01\x07\x53represented_country\xE1\x44type\x41r\x52registered_country\xE1\x48iso_code\x41g",
    after: b"\x47country\xE1\x48iso_code\x41c\x49continent\xE1\x44code\x41k",
    shown: "([Some(\"k\"), Some(\"c\"), Some(\"g\"), Some(\"r\")], Some(true))",
};

/// A city, whose parts have one field each. It has two subdivisions.
#[rattlefmt::skip]
pub const TOP_CITY: Row<'static> = Row {
    before: b"\xF6\x46traits\xE1\x4Ais_anycast\x01\x07\x4Csubdivisions\x02\x04\xE1\x48iso_code\x41s\xE1\x48iso_code\x41u\x53represented_country\xE1\x44type\x41r\x52registered_country\xE1\x48iso_code\x41g",
    after: b"\x46postal\xE1\x44code\x41p\x48location\xE1\x49time_zone\x41z\x47country\xE1\x48iso_code\x41c\x49continent\xE1\x44code\x41k\x44city\xE1\x4Ageoname_id\xC1\x01",
    shown: "((Some(1), None, false), [Some(\"k\"), Some(\"c\"), Some(\"z\"), Some(\"p\"), Some(\"g\"), Some(\"r\")], (2, (Some(\"s\"), Some(\"u\"))), Some(true))",
};

/// The same with confidences, and traits of its own.
#[rattlefmt::skip]
pub const TOP_ENTERPRISE: Row<'static> = Row {
    before: b"\xF6\x46traits\xE1\x49user_type\x41t\x4Csubdivisions\x02\x04\xE1\x4Aconfidence\xA1\x05\xE1\x4Aconfidence\xA1\x06\x53represented_country\xE1\x44type\x41r\x52registered_country\xE1\x4Aconfidence\xA1\x04",
    after: b"\x46postal\xE1\x4Aconfidence\xA1\x03\x48location\xE1\x49time_zone\x41z\x47country\xE1\x4Aconfidence\xA1\x02\x49continent\xE1\x44code\x41k\x44city\xE1\x4Aconfidence\xA1\x01",
    shown: "([Some(1), Some(2), Some(3), Some(4)], [Some(\"k\"), Some(\"z\"), Some(\"r\"), Some(\"t\")], [Some(5), Some(6)])",
};

#[test]
fn records_of_all_parts(rt: HostRuntime) -> Result<(), Failures> {
    let mut reads = Reads::new(rt.alloc());
    reads.expect_parts::<Country<'_>>(&TOP_COUNTRY);
    reads.expect_parts::<City<'_>>(&TOP_CITY);
    reads.expect_parts::<Enterprise<'_>>(&TOP_ENTERPRISE);
    reads.verdict()
}

#[rattlefmt::skip]
const NAMES: Row<'static> = Row {
    before: b"\xF5\x45zh-CN\x41h\x42ru\x41g\x45pt-BR\x41f\x42ja\x41e",
    after: b"\x42fr\x41d\x42es\x41c\x42en\x41b\x42de\x41a",
    shown: "Names { german: Some(\"a\"), english: Some(\"b\"), spanish: Some(\"c\"), french: Some(\"d\"), japanese: Some(\"e\"), brazilian_portuguese: Some(\"f\"), russian: Some(\"g\"), simplified_chinese: Some(\"h\") }",
};

#[rattlefmt::skip]
const CONTINENT: Row<'static> = Row {
    before: b"\xF0\x45names\xE1\x42en\x41n\x4Ageoname_id\xC1\x02",
    after: b"\x44code\x41a",
    shown: "Continent { code: Some(\"a\"), geoname_id: Some(2), names: Names { german: None, english: Some(\"n\"), spanish: None, french: None, japanese: None, brazilian_portuguese: None, russian: None, simplified_chinese: None } }",
};

#[rattlefmt::skip]
const COUNTRY: Row<'static> = Row {
    before: b"\xF1\x45names\xE1\x42en\x41n\x48iso_code\x41c",
    after: b"\x54is_in_european_union\x01\x07\x4Ageoname_id\xC1\x01",
    shown: "Country { geoname_id: Some(1), is_in_european_union: Some(true), iso_code: Some(\"c\"), names: Names { german: None, english: Some(\"n\"), spanish: None, french: None, japanese: None, brazilian_portuguese: None, russian: None, simplified_chinese: None } }",
};

#[rattlefmt::skip]
const REPRESENTED_COUNTRY: Row<'static> = Row {
    before: b"\xF2\x44type\x41e\x45names\xE1\x42en\x41n\x48iso_code\x41c",
    after: b"\x54is_in_european_union\x01\x07\x4Ageoname_id\xC1\x01",
    shown: "RepresentedCountry { geoname_id: Some(1), is_in_european_union: Some(true), iso_code: Some(\"c\"), names: Names { german: None, english: Some(\"n\"), spanish: None, french: None, japanese: None, brazilian_portuguese: None, russian: None, simplified_chinese: None }, representation_type: Some(\"e\") }",
};

#[rattlefmt::skip]
const COUNTRY_TRAITS: Row<'static> = Row {
    before: b"\xEE\x4Ais_anycast\x00\x07",
    after: b"",
    shown: "Traits { is_anycast: Some(false) }",
};

#[rattlefmt::skip]
const CITY: Row<'static> = Row {
    before: b"\xEF\x45names\xE1\x42en\x41n",
    after: b"\x4Ageoname_id\xC1\x01",
    shown: "City { geoname_id: Some(1), names: Names { german: None, english: Some(\"n\"), spanish: None, french: None, japanese: None, brazilian_portuguese: None, russian: None, simplified_chinese: None } }",
};

#[rattlefmt::skip]
const LOCATION: Row<'static> = Row {
    before: b"\xF2\x49time_zone\x41e\x4Ametro_code\xA1\x04\x49longitude\x68\x00\x00\x00\x00\x00\x00\x00\x03",
    after: b"\x48latitude\x68\x00\x00\x00\x00\x00\x00\x00\x02\x4Faccuracy_radius\xA1\x01",
    shown: "Location { accuracy_radius: Some(1), latitude: Some(Double { bits: 2 }), longitude: Some(Double { bits: 3 }), metro_code: Some(4), time_zone: Some(\"e\") }",
};

#[rattlefmt::skip]
const POSTAL: Row<'static> = Row {
    before: b"\xEE\x44code\x41a",
    after: b"",
    shown: "Postal { code: Some(\"a\") }",
};

#[rattlefmt::skip]
const SUBDIVISION: Row<'static> = Row {
    before: b"\xF0\x45names\xE1\x42en\x41n\x48iso_code\x41b",
    after: b"\x4Ageoname_id\xC1\x01",
    shown: "Subdivision { geoname_id: Some(1), iso_code: Some(\"b\"), names: Names { german: None, english: Some(\"n\"), spanish: None, french: None, japanese: None, brazilian_portuguese: None, russian: None, simplified_chinese: None } }",
};

#[rattlefmt::skip]
const ENTERPRISE_CITY: Row<'static> = Row {
    before: b"\xF0\x45names\xE1\x42en\x41n\x4Ageoname_id\xC1\x02",
    after: b"\x4Aconfidence\xC2\x00\x01",
    shown: "City { confidence: Some(1), geoname_id: Some(2), names: Names { german: None, english: Some(\"n\"), spanish: None, french: None, japanese: None, brazilian_portuguese: None, russian: None, simplified_chinese: None } }",
};

#[rattlefmt::skip]
const ENTERPRISE_COUNTRY: Row<'static> = Row {
    before: b"\xF2\x45names\xE1\x42en\x41n\x48iso_code\x41d\x54is_in_european_union\x00\x07",
    after: b"\x4Ageoname_id\xC1\x02\x4Aconfidence\xC2\x00\x01",
    shown: "Country { confidence: Some(1), geoname_id: Some(2), is_in_european_union: Some(false), iso_code: Some(\"d\"), names: Names { german: None, english: Some(\"n\"), spanish: None, french: None, japanese: None, brazilian_portuguese: None, russian: None, simplified_chinese: None } }",
};

#[rattlefmt::skip]
const ENTERPRISE_POSTAL: Row<'static> = Row {
    before: b"\xEF\x4Aconfidence\xC2\x00\x02",
    after: b"\x44code\x41a",
    shown: "Postal { code: Some(\"a\"), confidence: Some(2) }",
};

#[rattlefmt::skip]
const ENTERPRISE_SUBDIVISION: Row<'static> = Row {
    before: b"\xF1\x45names\xE1\x42en\x41n\x48iso_code\x41c",
    after: b"\x4Ageoname_id\xC1\x02\x4Aconfidence\xC2\x00\x01",
    shown: "Subdivision { confidence: Some(1), geoname_id: Some(2), iso_code: Some(\"c\"), names: Names { german: None, english: Some(\"n\"), spanish: None, french: None, japanese: None, brazilian_portuguese: None, russian: None, simplified_chinese: None } }",
};

#[rattlefmt::skip]
const ENTERPRISE_TRAITS: Row<'static> = Row {
    before: b"\xFD\x00\x49user_type\x41p\x4Corganization\x41o\x53mobile_network_code\x41n\x53mobile_country_code\x41m\x50is_tor_exit_node\x01\x07\x54is_residential_proxy\x00\x07\x4Fis_public_proxy\x01\x07\x43isp\x41i",
    after: b"\x53is_hosting_provider\x01\x07\x4Ais_anycast\x00\x07\x50is_anonymous_vpn\x01\x07\x4Cis_anonymous\x00\x07\x46domain\x41d\x4Fconnection_type\x41c\x5D\x01autonomous_system_organization\x41b\x58autonomous_system_number\xC1\x01",
    shown: "Traits { autonomous_system_number: Some(1), autonomous_system_organization: Some(\"b\"), connection_type: Some(\"c\"), domain: Some(\"d\"), is_anonymous: Some(false), is_anonymous_vpn: Some(true), is_anycast: Some(false), is_hosting_provider: Some(true), isp: Some(\"i\"), is_public_proxy: Some(true), is_residential_proxy: Some(false), is_tor_exit_node: Some(true), mobile_country_code: Some(\"m\"), mobile_network_code: Some(\"n\"), organization: Some(\"o\"), user_type: Some(\"p\") }",
};

#[rattlefmt::skip]
const ISP: Row<'static> = Row {
    before: b"\xF3\x4Corganization\x41f\x53mobile_network_code\x41e\x53mobile_country_code\x41d",
    after: b"\x43isp\x41c\x5D\x01autonomous_system_organization\x41b\x58autonomous_system_number\xC1\x01",
    shown: "Isp { autonomous_system_number: Some(1), autonomous_system_organization: Some(\"b\"), isp: Some(\"c\"), mobile_country_code: Some(\"d\"), mobile_network_code: Some(\"e\"), organization: Some(\"f\") }",
};

#[rattlefmt::skip]
const CONNECTION_TYPE: Row<'static> = Row {
    before: b"\xEE\x4Fconnection_type\x41a",
    after: b"",
    shown: "ConnectionType { connection_type: Some(\"a\") }",
};

#[rattlefmt::skip]
const ANONYMOUS_IP: Row<'static> = Row {
    before: b"\xF3\x50is_tor_exit_node\x01\x07\x54is_residential_proxy\x00\x07\x4Fis_public_proxy\x01\x07",
    after: b"\x53is_hosting_provider\x00\x07\x50is_anonymous_vpn\x01\x07\x4Cis_anonymous\x00\x07",
    shown: "AnonymousIp { is_anonymous: Some(false), is_anonymous_vpn: Some(true), is_hosting_provider: Some(false), is_public_proxy: Some(true), is_residential_proxy: Some(false), is_tor_exit_node: Some(true) }",
};

#[rattlefmt::skip]
const DENSITY_INCOME: Row<'static> = Row {
    before: b"\xEF\x52population_density\xC1\x02",
    after: b"\x4Eaverage_income\xC1\x01",
    shown: "DensityIncome { average_income: Some(1), population_density: Some(2) }",
};

#[rattlefmt::skip]
const DOMAIN: Row<'static> = Row {
    before: b"\xEE\x46domain\x41a",
    after: b"",
    shown: "Domain { domain: Some(\"a\") }",
};

#[rattlefmt::skip]
const ASN: Row<'static> = Row {
    before: b"\xEF\x5D\x01autonomous_system_organization\x41b",
    after: b"\x58autonomous_system_number\xC1\x01",
    shown: "Asn { autonomous_system_number: Some(1), autonomous_system_organization: Some(\"b\") }",
};
