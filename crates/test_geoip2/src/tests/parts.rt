//! Records that have parts, and what is asked of them.
use mmdb_geoip2::{City, Country, Enterprise, city, country, enterprise};
use mmdb_record::decode::Decode;
use mmdb_record::first_value::decode;
use mmdb_vectors::answer::reported;
use std::alloc::{AllocError, Global};

/// A record that has parts.
pub trait Parts {
    /// The record that says nothing.
    fn nothing(alloc: Global) -> Self;

    /// Whether each part is empty, and no memory is kept.
    fn says_nothing(&self) -> bool;

    /// The codes of the country and of the registered one.
    fn codes(&self) -> (Option<&str>, Option<&str>);

    /// A field of each part.
    fn text(&self, alloc: Global) -> Result<String, AllocError>;
}

impl Parts for Country<'_> {
    fn nothing(_alloc: Global) -> Self {
        Country::default()
    }

    fn says_nothing(&self) -> bool {
        self.continent.is_empty()
            && self.country.is_empty()
            && self.registered_country.is_empty()
            && self.represented_country.is_empty()
            && self.traits.is_empty()
    }

    fn codes(&self) -> (Option<&str>, Option<&str>) {
        (self.country.iso_code, self.registered_country.iso_code)
    }

    // The continent's code, that of the country and the registered one, and the represented one's type.
    fn text(&self, alloc: Global) -> Result<String, AllocError> {
        let texts = [
            self.continent.code,
            self.country.iso_code,
            self.registered_country.iso_code,
            self.represented_country.representation_type,
        ];
        let reported = (texts, self.traits.is_anycast);
        format!(in alloc; "{reported:?}")
    }
}

// The codes of two subdivisions.
fn codes_of_two<'a>(
    subdivisions: &'a [city::Subdivision<'_>],
) -> (Option<&'a str>, Option<&'a str>) {
    match subdivisions {
        [first, second] => (first.iso_code, second.iso_code),
        _ => (None, None),
    }
}

impl Parts for City<'_> {
    fn nothing(alloc: Global) -> Self {
        City::empty(alloc)
    }

    fn says_nothing(&self) -> bool {
        self.city.is_empty()
            && self.continent.is_empty()
            && self.country.is_empty()
            && self.location.is_empty()
            && self.postal.is_empty()
            && self.traits.is_empty()
            && self.registered_country.is_empty()
            && self.represented_country.is_empty()
            && self.subdivisions.is_empty()
            && self.subdivisions.capacity() == 0
            && self.city == city::City::default()
            && self.postal == city::Postal::default()
    }

    fn codes(&self) -> (Option<&str>, Option<&str>) {
        (self.country.iso_code, self.registered_country.iso_code)
    }

    // The city's number, English name and emptiness; a text of each other part; the count of subdivisions, and the
    // codes of two.
    fn text(&self, alloc: Global) -> Result<String, AllocError> {
        let city = (
            self.city.geoname_id,
            self.city.names.english,
            self.city.is_empty(),
        );
        let texts = [
            self.continent.code,
            self.country.iso_code,
            self.location.time_zone,
            self.postal.code,
            self.registered_country.iso_code,
            self.represented_country.representation_type,
        ];
        let subdivisions = self.subdivisions.as_slice();
        let codes = (subdivisions.len(), codes_of_two(subdivisions));
        let reported = (city, texts, codes, self.traits.is_anycast);
        format!(in alloc; "{reported:?}")
    }
}

// The confidences of two subdivisions.
fn confidences_of_two(subdivisions: &[enterprise::Subdivision<'_>]) -> [Option<u8>; 2] {
    match subdivisions {
        [first, second] => [first.confidence, second.confidence],
        _ => [None, None],
    }
}

impl Parts for Enterprise<'_> {
    fn nothing(alloc: Global) -> Self {
        Enterprise::empty(alloc)
    }

    fn says_nothing(&self) -> bool {
        self.traits.is_empty()
            && self.subdivisions.is_empty()
            && self.subdivisions.capacity() == 0
            && self.city == enterprise::City::default()
            && self.traits == enterprise::Traits::default()
    }

    fn codes(&self) -> (Option<&str>, Option<&str>) {
        (self.country.iso_code, self.registered_country.iso_code)
    }

    // The confidences of the city, the country, the postal code and the registered country; a text of each other
    // part; the confidences of two subdivisions.
    fn text(&self, alloc: Global) -> Result<String, AllocError> {
        let confidences = [
            self.city.confidence,
            self.country.confidence,
            self.postal.confidence,
            self.registered_country.confidence,
        ];
        let texts = [
            self.continent.code,
            self.location.time_zone,
            self.represented_country.representation_type,
            self.traits.user_type,
        ];
        let reported = (
            confidences,
            texts,
            confidences_of_two(self.subdivisions.as_slice()),
        );
        format!(in alloc; "{reported:?}")
    }
}

/// A field of each part of the record that a section is read as, or the text of the error.
pub fn parts_reported<'de, T: Decode<'de> + Parts>(
    alloc: Global,
    section: &'de [u8],
) -> Result<String, AllocError> {
    match decode::<T>(alloc, section) {
        Ok(record) => record.text(alloc),
        Err(error) => reported(alloc, Err::<(), _>(error)),
    }
}

/// What holds of a record that was rejected.
pub fn rejected<E: Drop>(_error: E) -> bool {
    false
}

/// A value that says nothing where none of its fields stands.
pub trait Empty {
    fn says_nothing(&self) -> bool;
}

impl Empty for country::Country<'_> {
    fn says_nothing(&self) -> bool {
        self.is_empty()
    }
}

impl Empty for city::Location<'_> {
    fn says_nothing(&self) -> bool {
        self.is_empty()
    }
}
