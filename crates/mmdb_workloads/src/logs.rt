//! The lines of logs.
use crate::random::Random;
use std::alloc::{AllocError, Global};

/// How many clients make most lines.
const CLIENTS: usize = 3000;

const PATHS: &[&str] = &[
    "/",
    "/index.html",
    "/assets/app-3f9c2b1.js",
    "/api/v2/accounts/81/transactions?from=2026-10-01&to=2026-10-31",
    "/wp-login.php",
    "/images/2026/11/harbour-at-night.webp",
    "/search?q=proved+reader",
    "/robots.txt",
];

const AGENTS: &[&str] = &[
    "Mozilla/5.0 (Windows NT 10.0; Win64; x64) AppleWebKit/537.36 (KHTML, like Gecko) Chrome/131.0.0.0 Safari/537.36",
    "Mozilla/5.0 (iPhone; CPU iPhone OS 18_1 like Mac OS X) AppleWebKit/605.1.15 (KHTML, like Gecko) Version/18.1 Mobile/15E148 Safari/604.1",
    "Mozilla/5.0 (X11; Linux x86_64; rv:132.0) Gecko/20100101 Firefox/132.0",
    "curl/8.10.1",
    "Mozilla/5.0 (compatible; Googlebot/2.1; +http://www.google.com/bot.html)",
];

const SHORT_AGENTS: &[&str] = &[
    "curl/8.10.1",
    "Wget/1.24",
    "Go-http-client/2.0",
    "okhttp/4.12",
];

const REQUESTS: &[&str] = &[
    "GET / HTTP/1.1",
    "GET /a?b=1, 2 HTTP/1.1",
    "POST /api HTTP/2",
    "GET /\"\"x\"\" HTTP/1.1",
];

const STATUSES: &[&str] = &["200", "200", "200", "200", "304", "301", "404", "500"];

/// What stands in the place of an address.
const OTHERS: &[&str] = &[
    "-",
    "unknown",
    "example.org",
    "10.0.0",
    "1.2.3.4:80",
    "fe80::1%eth0",
    "",
    "999.1.1.1",
];

/// The addresses that come in a log: of a few clients, or any.
#[derive(Drop)]
pub(crate) struct Clients {
    pub(crate) random: Random,
    known: Vec<u32>,
    /// The texts of the known ones.
    texts: Vec<Vec<u8>>,
    known_of_256: u32,
}

// A number with a digit at least.
fn put_decimal(number: u8, out: &mut Vec<u8>) -> Result<(), AllocError> {
    if number >= 100 {
        out.push(b'0'.wrapping_add(number / 100))?;
    }
    if number >= 10 {
        out.push(b'0'.wrapping_add(number / 10 % 10))?;
    }
    Ok(out.push(b'0'.wrapping_add(number % 10))?)
}

// An IPv4 address.
fn put_ipv4(bits: u32, out: &mut Vec<u8>) -> Result<(), AllocError> {
    let [a, b, c, d] = bits.to_be_bytes();
    put_decimal(a, out)?;
    for byte in [b, c, d] {
        out.push(b'.')?;
        put_decimal(byte, out)?;
    }
    Ok(())
}

// Four hexadecimal digits.
fn put_group(group: u16, out: &mut Vec<u8>) -> Result<(), AllocError> {
    for shift in [12u32, 8, 4, 0] {
        let digit = ((group >> shift) & 15) as u8;
        let base = if digit < 10 { b'0' } else { b'a' - 10 };
        out.push(base.wrapping_add(digit))?;
    }
    Ok(())
}

// An IPv6 address of 2000::/3.
fn put_ipv6(random: &mut Random, out: &mut Vec<u8>) -> Result<(), AllocError> {
    let [a, b, c, d, e, f, ..] = ((random.word() >> 3) | (1 << 61)).to_be_bytes();
    put_group(u16::from_be_bytes([a, b]), out)?;
    for group in [[c, d], [e, f]] {
        out.push(b':')?;
        put_group(u16::from_be_bytes(group), out)?;
    }
    out.extend_from_slice(b"::1")
}

// The text of an IPv4 address.
fn text_of(alloc: Global, bits: u32) -> Result<Vec<u8>, AllocError> {
    let mut text = Vec::new(alloc);
    put_ipv4(bits, &mut text)?;
    Ok(text)
}

impl Clients {
    /// Of which some in 256 lines have a known one.
    pub(crate) fn new(alloc: Global, seed: u64, known_of_256: u32) -> Result<Clients, AllocError> {
        let mut random = Random::of(seed);
        let mut known = Vec::new(alloc);
        let mut texts = Vec::new(alloc);
        for _ in 0..CLIENTS {
            let bits = random.bits();
            known.push(bits)?;
            texts.push(text_of(alloc, bits)?)?;
        }
        Ok(Clients {
            random,
            known,
            texts,
            known_of_256,
        })
    }

    // The place of a known client, of whom the first ones come most often.
    fn any_known(&mut self) -> usize {
        let first = self.random.below(CLIENTS);
        first.min(self.random.below(CLIENTS))
    }

    /// An IPv4 address.
    pub(crate) fn any_ipv4(&mut self) -> u32 {
        if !self.random.chance(self.known_of_256) {
            return self.random.bits();
        }
        let place = self.any_known();
        self.known.get(place).copied().unwrap_or(0)
    }

    // An IPv4 address.
    fn put_any_ipv4(&mut self, out: &mut Vec<u8>) -> Result<(), AllocError> {
        if !self.random.chance(self.known_of_256) {
            return put_ipv4(self.random.bits(), out);
        }
        let place = self.any_known();
        match self.texts.get(place) {
            Some(text) => out.extend_from_slice(text.as_slice()),
            None => Ok(()),
        }
    }

    // An address: one in sixteen is of IPv6.
    fn put_address(&mut self, out: &mut Vec<u8>) -> Result<(), AllocError> {
        if self.random.chance(16) {
            put_ipv6(&mut self.random, out)
        } else {
            self.put_any_ipv4(out)
        }
    }

    fn put_text(&mut self, texts: &[&'static str], out: &mut Vec<u8>) -> Result<(), AllocError> {
        out.extend_from_slice(self.random.text_of(texts).as_bytes())
    }

    // Digits of any length.
    fn put_digits(&mut self, out: &mut Vec<u8>) -> Result<(), AllocError> {
        let [_, a, b, c] = (self.random.bits() >> 8).to_be_bytes();
        out.extend_from_slice(&[
            b'0'.wrapping_add(a % 10),
            b'0'.wrapping_add(b % 10),
            b'0'.wrapping_add(c % 10),
            b'0'.wrapping_add(a / 32),
            b'0'.wrapping_add(b / 32),
        ])
    }

    /// An address alone.
    pub(crate) fn put_plain(&mut self, out: &mut Vec<u8>) -> Result<(), AllocError> {
        self.put_address(out)?;
        Ok(out.push(b'\n')?)
    }

    /// A line of an access log, its address in the first of some columns between tabs.
    pub(crate) fn put_access(&mut self, out: &mut Vec<u8>) -> Result<(), AllocError> {
        self.put_address(out)?;
        out.extend_from_slice(b"\t2026-11-26T10:11:12.345Z\tGET\t")?;
        self.put_text(PATHS, out)?;
        out.push(b'\t')?;
        self.put_text(STATUSES, out)?;
        out.push(b'\t')?;
        self.put_digits(out)?;
        out.extend_from_slice(b"\thttps://www.example.org/\t")?;
        self.put_text(AGENTS, out)?;
        Ok(out.push(b'\n')?)
    }

    /// A row of CSV, with cells in quotes before and behind the address.
    pub(crate) fn put_csv(&mut self, out: &mut Vec<u8>) -> Result<(), AllocError> {
        out.extend_from_slice(b"2026-11-26T10:11:12Z,\"")?;
        self.put_text(REQUESTS, out)?;
        out.extend_from_slice(b"\",")?;
        self.put_address(out)?;
        out.push(b',')?;
        self.put_text(STATUSES, out)?;
        out.extend_from_slice(b",\"")?;
        self.put_text(SHORT_AGENTS, out)?;
        out.extend_from_slice(b"\",")?;
        self.put_digits(out)?;
        out.extend_from_slice(b"\r\n")
    }

    /// A line of JSON, with the address one level down.
    pub(crate) fn put_json(&mut self, out: &mut Vec<u8>) -> Result<(), AllocError> {
        out.extend_from_slice(b"{\"time\":\"2026-11-26T10:11:12.345Z\",\"client\":{\"ip\":\"")?;
        self.put_address(out)?;
        out.extend_from_slice(b"\",\"port\":51234},\"request\":{\"method\":\"GET\",\"path\":\"")?;
        self.put_text(PATHS, out)?;
        out.extend_from_slice(b"\"},\"status\":")?;
        self.put_text(STATUSES, out)?;
        out.extend_from_slice(b",\"bytes\":1")?;
        self.put_digits(out)?;
        out.extend_from_slice(b",\"agent\":\"")?;
        self.put_text(AGENTS, out)?;
        out.extend_from_slice(b"\"}\n")
    }

    /// A line in which mostly no address stands where one should be, or that has a hundred columns before it.
    pub(crate) fn put_odd(&mut self, out: &mut Vec<u8>) -> Result<(), AllocError> {
        for _ in 0..100 {
            out.extend_from_slice(b"a1\t")?;
        }
        if self.random.chance(200) {
            self.put_text(OTHERS, out)?;
        } else {
            self.put_address(out)?;
        }
        Ok(out.push(b'\n')?)
    }

    /// A line of JSON with escapes, values in one another, and the address last.
    pub(crate) fn put_odd_json(&mut self, out: &mut Vec<u8>) -> Result<(), AllocError> {
        out.extend_from_slice(
            b"{ \"note\" : \"caf\\u00e9 \\\"quoted\\\" \\n\\t end\" , \"tags\" : [ ",
        )?;
        for _ in 0..20 {
            out.extend_from_slice(b"[[\"x\", {\"k\": [1.5e3, true, null, -0.25]}]], ")?;
        }
        out.extend_from_slice(b"0 ], \"path\" : \"")?;
        self.put_text(PATHS, out)?;
        out.extend_from_slice(b"\", \"peer\" : { \"port\" : 1")?;
        self.put_digits(out)?;
        out.extend_from_slice(b", \"ip\" : \"")?;
        if self.random.chance(64) {
            self.put_text(OTHERS, out)?;
        } else {
            self.put_address(out)?;
        }
        out.extend_from_slice(b"\" } }\n")
    }

    /// A row of more than 64 KiB, the address in its first column.
    pub(crate) fn put_long(&mut self, out: &mut Vec<u8>) -> Result<(), AllocError> {
        self.put_address(out)?;
        for _ in 0..1200 {
            out.push(b'\t')?;
            self.put_text(PATHS, out)?;
            self.put_text(AGENTS, out)?;
        }
        Ok(out.push(b'\n')?)
    }
}
