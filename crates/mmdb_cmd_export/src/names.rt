//! How sets, tables, chains and variables may be named.
use mmdb_arguments::Format;
use mmdb_blocks::{is_set_name, is_table_name, is_variable_name};

/// The most bytes of a chain's name, for iptables.
const MOST_OF_CHAIN: usize = 28;

const NOT_A_SET: &str =
    "not the beginning of a set's name: 1 to 22 letters, digits, _, - and ., the first a letter or _";

const NOT_A_CHAIN: &str =
    "not a chain's name: 1 to 28 letters, digits, _, - and ., the first a letter or _";

const NOT_A_VARIABLE: &str =
    "not a variable's name: 1 to 26 letters, digits and _, the first no digit";

const NOT_A_TABLE: &str =
    "not a table's name: 1 to 26 letters, digits, _, - and ., the first a letter or _";

/// The words of nft's grammar that it does not take for a table's name.
#[rattlefmt::skip]
const WORDS_OF_NFT: &[&str] = &[
    "accept", "add", "ah", "all", "and", "arp", "auto-merge", "bridge", "cgroup", "chain", "comment", "comp", "constant",
    "continue", "counter", "cpu", "create", "ct", "day", "dccp", "define", "delete", "describe", "destroy", "device",
    "devices", "dnat", "drop", "dst", "dup", "dynamic", "ecn", "element", "elements", "eq", "esp", "ether", "exists",
    "expires", "export", "exthdr", "fib", "flags", "flow", "flowtable", "flush", "frag", "fwd", "ge", "goto", "gt",
    "handle", "hook", "hour", "icmp", "icmpv6", "igmp", "iif", "iifgroup", "iifname", "iiftype", "import", "include",
    "index", "inet", "insert", "interval", "ip", "ip6", "ipsec", "jhash", "jump", "le", "limit", "list", "log", "lshift",
    "lt", "map", "mark", "masquerade", "meta", "meter", "missing", "monitor", "ne", "netdev", "nftrace", "not", "notrack",
    "numgen", "oif", "oifgroup", "oifname", "oiftype", "or", "osf", "pkttype", "policy", "position", "priority", "queue",
    "quota", "random", "redefine", "redirect", "reject", "rename", "replace", "reset", "return", "rshift", "rt",
    "rtclassid", "rule", "ruleset", "sctp", "secmark", "set", "size", "skgid", "skuid", "snat", "socket", "symhash",
    "synproxy", "table", "tcp", "th", "time", "timeout", "tproxy", "type", "typeof", "udp", "udplite", "undefine",
    "update", "vlan", "vmap", "xor", "xt",
];

/// The chains and targets that iptables has itself.
#[rattlefmt::skip]
const CHAINS_OF_IPTABLES: &[&str] = &[
    "ACCEPT", "DROP", "FORWARD", "INPUT", "LOG", "OUTPUT", "POSTROUTING", "PREROUTING", "QUEUE", "REJECT", "RETURN",
];

/// The variables that nginx has itself, with the modules that Debian builds: of most it takes no second one, and the
/// others have a meaning of their own.
#[rattlefmt::skip]
const VARIABLES_OF_NGINX: &[&str] = &[
    "args", "binary_remote_addr", "body_bytes_sent", "bytes_sent", "connection", "connection_requests", "connection_time",
    "connections_active", "connections_reading", "connections_waiting", "connections_writing", "content_length",
    "content_type", "date_gmt", "date_local", "document_root", "document_uri", "fastcgi_path_info", "fastcgi_script_name",
    "gzip_ratio", "host", "hostname", "http2", "http3", "http_cookie", "http_host", "http_referer", "http_user_agent",
    "http_via", "http_x_forwarded_for", "https", "invalid_referer", "is_args", "limit_conn_status", "limit_rate",
    "limit_req_status", "msec", "nginx_version", "pid", "pipe", "proxy_add_x_forwarded_for", "proxy_host",
    "proxy_internal_body_length", "proxy_internal_chunked", "proxy_port", "proxy_protocol_addr", "proxy_protocol_port",
    "proxy_protocol_server_addr", "proxy_protocol_server_port", "query_string", "realip_remote_addr", "realip_remote_port",
    "realpath_root", "remote_addr", "remote_port", "remote_user", "request", "request_body", "request_body_file",
    "request_completion", "request_filename", "request_id", "request_length", "request_method", "request_time",
    "request_uri", "scheme", "secure_link", "secure_link_expires", "sent_http_cache_control", "sent_http_connection",
    "sent_http_content_length", "sent_http_content_type", "sent_http_keep_alive", "sent_http_last_modified",
    "sent_http_link", "sent_http_location", "server_addr", "server_name", "server_port", "server_protocol", "slice_range",
    "status", "tcpinfo_rcv_space", "tcpinfo_rtt", "tcpinfo_rttvar", "tcpinfo_snd_cwnd", "time_iso8601", "time_local",
    "uid_got", "uid_set", "upstream_addr", "upstream_bytes_received", "upstream_bytes_sent", "upstream_cache_status",
    "upstream_connect_time", "upstream_header_time", "upstream_response_length", "upstream_response_time",
    "upstream_status", "uri",
];

// Whether a name is one of some names.
fn is_one_of(name: &str, names: &[&str]) -> bool {
    names.iter().any(|other| *other == name)
}

// Whether a name is one of some names, in upper or lower case.
fn is_one_in_any_case(name: &str, names: &[&str]) -> bool {
    names.iter().any(|other| other.eq_ignore_ascii_case(name))
}

// Whether a text may be a chain's name: not the beginning of an option, and not too long.
fn is_chain_name(name: &str) -> bool {
    let bytes = name.as_bytes();
    let Some(first) = bytes.first() else {
        return false;
    };
    let is_part = |byte: &u8| byte.is_ascii_alphanumeric() || matches!(*byte, b'_' | b'-' | b'.');
    let is_begun = first.is_ascii_alphabetic() || *first == b'_';
    is_begun && bytes.len() <= MOST_OF_CHAIN && bytes.iter().all(is_part)
}

// What is wrong with a text as the name of a chain.
fn fault_of_chain(name: &str) -> Option<&'static str> {
    if !is_chain_name(name) {
        return Some(NOT_A_CHAIN);
    }
    is_one_of(name, CHAINS_OF_IPTABLES).then_some(
        "a chain or a target of iptables itself; give another --name",
    )
}

// What is wrong with a text as the name of a variable.
fn fault_of_variable(name: &str) -> Option<&'static str> {
    if !is_variable_name(name) {
        return Some(NOT_A_VARIABLE);
    }
    is_one_in_any_case(name, VARIABLES_OF_NGINX).then_some(
        "a variable of nginx itself; give another --name",
    )
}

/// What is wrong with a text as the name of the sets, the chain or the variable of a format.
pub(crate) fn fault_of_name(format: Format, name: &str) -> Option<&'static str> {
    match format {
        Format::Iptables => fault_of_chain(name),
        Format::Nginx => fault_of_variable(name),
        _ => (!is_set_name(name)).then_some(NOT_A_SET),
    }
}

/// What is wrong with a text as the name of a table of nft.
pub(crate) fn fault_of_table(name: &str) -> Option<&'static str> {
    if !is_table_name(name) {
        return Some(NOT_A_TABLE);
    }
    is_one_of(name, WORDS_OF_NFT).then_some("a word of nft itself; give another --table")
}
