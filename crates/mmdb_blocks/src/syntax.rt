//! How a list of networks is written.
ghost use Rattle.std.specs.Prelude.{◌≡◌, ◌++◌, not, IfOk, OnOk, codes};
ghost use Rattle.std.specs.String.{string_bytes};
ghost use Rattle.mmdb_net.specs.Network.{short_text_of};
ghost use Rattle.mmdb_blocks.specs.Texts.{set_of, sign_of, option_of, definition_of, ipset_command, ipset_front, ipset_back, ipset_type_of, line_of, opening_of, closing_of, breaking_of, making_of, head_of, beginning_of, between_elements, of_wanted, of_kinds, ipset_line_of, swaps_of, IsEnding};
ghost use Rattle.mmdb_blocks.specs.Lists.{takes_all};

use crate::kind::{BlockKind, Kinds};
use mmdb_net::IpNetwork;
use std::alloc::{AllocError, Global};

/// The most bytes of the name of a chain's target, a table or a variable.
const MOST_NAME: usize = 26;

/// The most bytes of the beginning of a set's name: ipset takes 31, and `_ipv4.new` follows it.
const MOST_SET_NAME: usize = 22;

/// The most bytes of a value.
const MOST_VALUE: usize = 64;

/// Above the bytes of a network's line without a set's name.
const LINE_BYTES: usize = 80;

/// Both kinds of addresses, in the order in which lists have them.
const KINDS: [BlockKind; 2] = [BlockKind::Ipv4, BlockKind::Ipv6];

/// A line that neither haproxy nor pf takes for an address, nor for a name that it might look up.
const NO_ADDRESS: &str = "this-list/is-not-whole\n";

/// How a list of networks is written.
#[derive(Clone, Copy)]
pub enum Syntax<'a> {
    /// One network a line.
    Cidr,
    /// A file for `nft -f`: two named sets in a table. The elements are in definitions, and all commands in the last line.
    Nft {
        family: &'a str,
        table: &'a str,
        name: &'a str,
    },
    /// A file for `ipset restore`: two sets of `hash:net`. New ones are filled beside them, and take their place in the last
    /// lines.
    Ipset {
        name: &'a str,
    },
    /// A file for `iptables-restore --noflush` and `ip6tables-restore --noflush`: a chain of rules.
    Iptables {
        chain: &'a str,
        target: &'a str,
    },
    /// A block `geo` of nginx, which sets a variable.
    Nginx {
        variable: &'a str,
        value: &'a str,
    },
    /// A map of haproxy.
    Haproxy {
        value: &'a str,
    },
    /// The file of a table of pf.
    Pf,
}

/// What is done with the networks of a list.
#[derive(Clone, Copy, PartialEq, Eq)]
pub enum Action {
    /// Sets are made and emptied, and filled with them.
    Fill,
    /// They are taken out of sets.
    Remove,
    /// They are put into sets.
    Add,
}

// Whether a text has at most `most` letters, digits and other bytes of ASCII, the first of them a letter or `_`.
fn is_name(name: &str, most: usize, others: &[u8]) -> bool {
    let bytes = name.as_bytes();
    let Some(first) = bytes.first() else {
        return false;
    };
    if bytes.len() > most || !(first.is_ascii_alphabetic() || *first == b'_') {
        return false;
    }
    bytes.iter().all(|byte| byte.is_ascii_alphanumeric() || others.contains(byte))
}

/// Whether a text may be the beginning of a set's name, for nft and for ipset: at most 22 letters, digits, `_`, `-` and `.` of
/// ASCII, the first of them a letter or `_`.
pub fn is_set_name(name: &str) -> bool {
    is_name(name, MOST_SET_NAME, b"_-.")
}

/// Whether a text may be the name of a table of nft, or of a target of iptables: as that of a set, and at most 26.
pub fn is_table_name(name: &str) -> bool {
    is_name(name, MOST_NAME, b"_-.")
}

/// Whether a text may be the name of a variable of nginx: at most 26 letters, digits and `_` of ASCII, the first of them
/// no digit.
pub fn is_variable_name(name: &str) -> bool {
    is_name(name, MOST_NAME, b"_")
}

/// Whether a text may be the value of a network: 1 to 64 letters, digits, `_`, `-` and `.` of ASCII.
pub fn is_list_value(value: &str) -> bool {
    let bytes = value.as_bytes();
    let is_part = |byte: &u8| byte.is_ascii_alphanumeric() || matches!(*byte, b'_' | b'-' | b'.');
    !bytes.is_empty() && bytes.len() <= MOST_VALUE && bytes.iter().all(is_part)
}

// What follows a name for the set of a kind.
fn suffix(kind: BlockKind) -> &'static str
    ensures { result.now ≡ set_of kind }
{
    match kind {
        BlockKind::Ipv4 => "ipv4",
        BlockKind::Ipv6 => "ipv6",
    }
}

// What lets only the program of a kind take a rule.
fn rule_kind(kind: BlockKind) -> &'static str
    ensures { result.now ≡ option_of kind }
{
    match kind {
        BlockKind::Ipv4 => " -4 -s ",
        BlockKind::Ipv6 => " -6 -s ",
    }
}

// Adds a text.
fn push_text(text: &str, line: &mut Vec<u8>) -> Result<(), AllocError>
    ensures { OnOk result (line.new.items ≡ line.old.items ++ text.now) }
{
    line.extend_from_slice(text.as_bytes())
}

// Adds a network and the end of its line.
fn push_whole(network: IpNetwork, line: &mut Vec<u8>) -> Result<(), AllocError>
    ensures { OnOk result
        (line.new.items ≡ line.old.items ++ (short_text_of network ++ codes "\n")) }
{
    network.push_text(line)?;
    line.push(b'\n')?;
    Ok(())
}

// Adds a network and the end of its line, and before it the sign of a change.
fn push_signed(action: Action, network: IpNetwork, line: &mut Vec<u8>) -> Result<(), AllocError>
    ensures { OnOk result (line.new.items
        ≡ line.old.items ++ (sign_of action ++ short_text_of network ++ codes "\n")) }
{
    action.push_sign(line)?;
    push_whole(network, line)
}

// Adds an element of a definition, the first or another one.
fn push_element(is_first: bool, network: IpNetwork, line: &mut Vec<u8>) -> Result<(), AllocError>
    ensures { OnOk result (line.new.items
        ≡ line.old.items ++ (between_elements is_first ++ short_text_of network)) }
{
    if !is_first {
        line.extend_from_slice(b",\n")?;
    }
    network.push_text(line)
}

// Adds a network between two texts.
fn push_between(
    before: &str,
    network: IpNetwork,
    behind: &str,
    line: &mut Vec<u8>,
) -> Result<(), AllocError>
    ensures { OnOk result
        (line.new.items ≡ line.old.items ++ (before.now ++ short_text_of network ++ behind.now)) }
{
    push_text(before, line)?;
    network.push_text(line)?;
    push_text(behind, line)
}

// Adds the line of a network for a set of ipset.
fn push_member(
    action: Action,
    name: &str,
    kind: BlockKind,
    network: IpNetwork,
    line: &mut Vec<u8>,
) -> Result<(), AllocError>
    ensures { OnOk result (line.new.items
        ≡ line.old.items ++ (ipset_command action ++ name.now ++ codes "_" ++ set_of kind
        ++ ipset_front action ++ short_text_of network ++ ipset_back action)) }
{
    let (command, before, behind) = action.of_ipset();
    push_text(command, line)?;
    push_text(name, line)?;
    push_text("_", line)?;
    push_text(suffix(kind), line)?;
    push_between(before, network, behind, line)
}

// Adds the rule of a network for a chain.
fn push_rule(
    chain: &str,
    kind: BlockKind,
    network: IpNetwork,
    target: &str,
    line: &mut Vec<u8>,
) -> Result<(), AllocError>
    ensures { OnOk result (line.new.items
        ≡ line.old.items ++ (codes "-A " ++ chain.now ++ option_of kind ++ short_text_of network
        ++ (codes " -j " ++ target.now ++ codes "\n"))) }
{
    push_text("-A ", line)?;
    push_text(chain, line)?;
    push_between(rule_kind(kind), network, " -j ", line)?;
    push_text(target, line)?;
    push_text("\n", line)
}

// Adds the line of a network with its value.
fn push_with_value(
    before: &str,
    network: IpNetwork,
    value: &str,
    behind: &str,
    line: &mut Vec<u8>,
) -> Result<(), AllocError>
    ensures { OnOk result (line.new.items
        ≡ line.old.items ++ (before.now ++ short_text_of network
        ++ (codes " " ++ value.now ++ behind.now))) }
{
    push_between(before, network, " ", line)?;
    push_text(value, line)?;
    push_text(behind, line)
}

// The commands that make a set for nft, if it is not there, and empty it.
fn nft_set(
    alloc: Global,
    family: &str,
    table: &str,
    name: &str,
    kind: BlockKind,
) -> Result<String, AllocError> {
    let set = suffix(kind);
    format!(in alloc;
        "add set {family} {table} {name}_{set} {{ type {set}_addr; flags interval; }}; flush set {family} {table} {name}_{set}"
    )
}

// The beginning of the definition with the elements of a set of nft.
fn nft_opening(
    alloc: Global,
    name: &str,
    kind: BlockKind,
    action: Action,
) -> Result<String, AllocError>
    ensures { IfOk result (λ text. string_bytes text
        ≡ codes "define " ++ name.now ++ codes "_" ++ set_of kind ++ definition_of action
        ++ codes " = {\n") }
{
    let (set, which) = (suffix(kind), action.of_definition());
    format!(in alloc; "define {name}_{set}{which} = {{\n")
}

// The type of a set of ipset, with room for each network.
fn ipset_type(alloc: Global, kind: BlockKind) -> Result<String, AllocError>
    ensures { IfOk result (λ text. string_bytes text ≡ ipset_type_of kind) }
{
    let family = match kind {
        BlockKind::Ipv4 => "inet",
        BlockKind::Ipv6 => "inet6",
    };
    format!(in alloc; "hash:net family {family} maxelem 4294967295")
}

// The line that makes a new set for ipset. It is an error where one is there, which a list left that was cut.
fn ipset_new(alloc: Global, name: &str, kind: BlockKind) -> Result<String, AllocError>
    ensures { IfOk result (λ text. string_bytes text
        ≡ codes "create " ++ name.now ++ codes "_" ++ set_of kind ++ codes ".new "
        ++ ipset_type_of kind ++ codes "\n") }
{
    let (set, made) = (suffix(kind), ipset_type(alloc, kind)?);
    format!(in alloc; "create {name}_{set}.new {made}\n")
}

/// What the last lines of a list for ipset do with a kind of addresses, in this order.
#[derive(Clone, Copy)]
enum IpsetStep {
    /// The set is made, if it is not there.
    Make,
    /// The new set takes its place.
    Swap,
    /// The old set, which has the name of the new one then, is taken away.
    Destroy,
}

// The line by which a set is made, if it is not there.
fn ipset_made(alloc: Global, name: &str, kind: BlockKind) -> Result<String, AllocError>
    ensures { IfOk result (λ text. string_bytes text
        ≡ codes "create " ++ name.now ++ codes "_" ++ set_of kind ++ codes " "
        ++ ipset_type_of kind ++ codes " -exist\n") }
{
    let (set, made) = (suffix(kind), ipset_type(alloc, kind)?);
    format!(in alloc; "create {name}_{set} {made} -exist\n")
}

// The line of a step. Within quotes a line that is cut is an error: `destroy` alone takes away every set.
fn ipset_line(
    alloc: Global,
    step: IpsetStep,
    name: &str,
    kind: BlockKind,
) -> Result<String, AllocError>
    ensures { IfOk result (λ text. string_bytes text ≡ ipset_line_of step name.now kind) }
{
    let set = suffix(kind);
    match step {
        IpsetStep::Make => ipset_made(alloc, name, kind),
        IpsetStep::Swap => format!(in alloc; "swap {name}_{set}.new \"{name}_{set}\"\n"),
        IpsetStep::Destroy => format!(in alloc; "\"destroy\" \"{name}_{set}.new\"\n"),
    }
}

// Adds the line of a step, where its kind is wanted.
fn push_step(
    alloc: Global,
    step: IpsetStep,
    name: &str,
    kinds: Kinds,
    kind: BlockKind,
    text: &mut String,
) -> Result<(), AllocError>
    ensures { OnOk result (string_bytes text.new
        ≡ string_bytes text.old ++ of_wanted kinds (ipset_line_of step name.now) kind) }
{
    if kinds.has(kind) {
        text.push_str(ipset_line(alloc, step, name, kind)?.as_str())?;
    }
    Ok(())
}

// Adds the lines of a step for each wanted kind.
fn push_steps(
    alloc: Global,
    step: IpsetStep,
    name: &str,
    kinds: Kinds,
    text: &mut String,
) -> Result<(), AllocError>
    ensures { OnOk result (string_bytes text.new
        ≡ string_bytes text.old ++ of_kinds kinds (ipset_line_of step name.now)) }
{
    push_step(alloc, step, name, kinds, BlockKind::Ipv4, text)?;
    push_step(alloc, step, name, kinds, BlockKind::Ipv6, text)
}

// The lines that put the new sets of ipset of the wanted kinds in the place of the old ones, and take those away.
fn ipset_swaps(alloc: Global, name: &str, kinds: Kinds) -> Result<String, AllocError>
    ensures { IfOk result (λ text. string_bytes text ≡ swaps_of name.now kinds) }
{
    let mut text = String::new(alloc);
    push_steps(alloc, IpsetStep::Make, name, kinds, &mut text)?;
    push_steps(alloc, IpsetStep::Swap, name, kinds, &mut text)?;
    push_steps(alloc, IpsetStep::Destroy, name, kinds, &mut text)?;
    Ok(text)
}

/// What a list has of networks, by which its last lines are made.
#[derive(Clone, Copy)]
pub(crate) struct Filled {
    pub(crate) action: Action,
    pub(crate) kind: BlockKind,
}

impl Action {
    // What nft does with elements.
    fn of_nft(self) -> &'static str {
        match self {
            Action::Fill | Action::Add => "add",
            Action::Remove => "delete",
        }
    }

    // What follows the name of a set in that of the definition with its elements.
    fn of_definition(self) -> &'static str
        ensures { result.now ≡ definition_of self }
    {
        match self {
            Action::Fill => "",
            Action::Remove => "_removed",
            Action::Add => "_added",
        }
    }

    // What ipset does with a network, what follows the name of the set, and what follows the network. Where the set has or lacks
    // the network already, a change goes on.
    fn of_ipset(self) -> (&'static str, &'static str, &'static str)
        ensures command { result.0.now ≡ ipset_command self }
        ensures before { result.1.now ≡ ipset_front self }
        ensures behind { result.2.now ≡ ipset_back self }
    {
        match self {
            Action::Fill => ("add ", ".new ", "\n"),
            Action::Add => ("add ", " ", " -exist\n"),
            Action::Remove => ("del ", " ", " -exist\n"),
        }
    }

    // Adds what comes before a network of a line of its own.
    fn push_sign(self, line: &mut Vec<u8>) -> Result<(), AllocError>
        ensures { OnOk result (line.new.items ≡ line.old.items ++ sign_of self) }
    {
        match self {
            Action::Fill => {}
            Action::Remove => line.push(b'-')?,
            Action::Add => line.push(b'+')?,
        }
        Ok(())
    }
}

// Adds a command to those of a line.
fn push_command(command: &str, line: &mut String) -> Result<(), AllocError> {
    if !line.is_empty() {
        line.push_str("; ")?;
    }
    line.push_str(command)
}

// Adds what nft does with the elements of each definition of a kind.
fn push_elements(
    alloc: Global,
    [family, table, name]: [&str; 3],
    kind: BlockKind,
    filled: &[Filled],
    line: &mut String,
) -> Result<(), AllocError> {
    let set = suffix(kind);
    for part in filled {
        if part.kind == kind {
            let (done, which) = (part.action.of_nft(), part.action.of_definition());
            let command: String = format!(in alloc;
                "{done} element {family} {table} {name}_{set} ${name}_{set}{which}"
            )?;
            push_command(command.as_str(), line)?;
        }
    }
    Ok(())
}

// The line of all commands for nft: sets of the wanted kinds are made and emptied, where they are filled, and what is in
// definitions is put in or taken out.
fn nft_commands(
    alloc: Global,
    names: [&str; 3],
    kinds: Kinds,
    action: Action,
    filled: &[Filled],
) -> Result<String, AllocError> {
    let [family, table, name] = names;
    let mut line = String::new(alloc);
    if action == Action::Fill {
        let command: String = format!(in alloc; "add table {family} {table}")?;
        push_command(command.as_str(), &mut line)?;
    }
    for kind in KINDS {
        if action == Action::Fill && kinds.has(kind) {
            let command = nft_set(alloc, family, table, name, kind)?;
            push_command(command.as_str(), &mut line)?;
        }
        push_elements(alloc, names, kind, filled, &mut line)?;
    }
    line.push('\n')?;
    Ok(line)
}

impl Syntax<'_> {
    // What comes before all sets and networks.
    fn head(&self, alloc: Global) -> Result<String, AllocError>
        ensures { IfOk result (λ text. string_bytes text ≡ head_of self.now) }
    {
        match self {
            Syntax::Iptables { chain, .. } => format!(in alloc; "*filter\n:{chain} - [0:0]\n"),
            Syntax::Nginx { variable, .. } => format!(in alloc; "geo ${variable} {{\n"),
            _ => Ok(String::new(alloc)),
        }
    }

    // What comes before the networks of a set of ipset.
    fn set(&self, alloc: Global, kind: BlockKind) -> Result<String, AllocError>
        ensures { IfOk result (λ text. string_bytes text ≡ making_of self.now kind) }
    {
        match self {
            Syntax::Ipset { name } => ipset_new(alloc, *name, kind),
            _ => Ok(String::new(alloc)),
        }
    }

    // Adds what comes before the networks of a set of ipset, where its kind is wanted.
    fn push_set(
        &self,
        alloc: Global,
        kinds: Kinds,
        kind: BlockKind,
        text: &mut String,
    ) -> Result<(), AllocError>
        ensures { OnOk result (string_bytes text.new
            ≡ string_bytes text.old ++ of_wanted kinds (making_of self.now) kind) }
    {
        if kinds.has(kind) {
            text.push_str(self.set(alloc, kind)?.as_str())?;
        }
        Ok(())
    }

    /// What comes before all networks.
    pub(crate) fn beginning(&self, alloc: Global, kinds: Kinds) -> Result<String, AllocError>
        ensures { IfOk result (λ text. string_bytes text ≡ beginning_of self.now kinds) }
    {
        let mut text = self.head(alloc)?;
        self.push_set(alloc, kinds, BlockKind::Ipv4, &mut text)?;
        self.push_set(alloc, kinds, BlockKind::Ipv6, &mut text)?;
        Ok(text)
    }

    /// What comes before the first network of a kind.
    pub(crate) fn opening(
        &self,
        alloc: Global,
        kind: BlockKind,
        action: Action,
    ) -> Result<String, AllocError>
        ensures { IfOk result (λ text. string_bytes text ≡ opening_of self.now kind action) }
    {
        match self {
            Syntax::Nft { name, .. } => nft_opening(alloc, *name, kind, action),
            _ => Ok(String::new(alloc)),
        }
    }

    /// What comes after the last network of a kind.
    pub(crate) fn closing(&self) -> &'static str
        ensures { result.now ≡ closing_of self.now }
    {
        match self {
            Syntax::Nft { .. } => "\n}\n",
            _ => "",
        }
    }

    /// What comes after all networks of a list that is whole, and lets it be loaded. Networks of these kinds came.
    pub(crate) fn ending(
        &self,
        alloc: Global,
        kinds: Kinds,
        action: Action,
        filled: &[Filled],
    ) -> Result<String, AllocError>
        ensures { IfOk result (λ text. IsEnding self.now kinds action (string_bytes text)) }
    {
        match self {
            Syntax::Nft {
                family,
                table,
                name,
            } => nft_commands(alloc, [*family, *table, *name], kinds, action, filled),
            Syntax::Iptables { .. } => String::from_str(alloc, "COMMIT\n"),
            Syntax::Nginx { .. } => String::from_str(alloc, "}\n"),
            Syntax::Ipset { name } if action == Action::Fill => ipset_swaps(alloc, *name, kinds),
            _ => Ok(String::new(alloc)),
        }
    }

    /// What comes after the networks of a list that is not whole, so that it is not loaded: of most what ends them is
    /// missing.
    pub(crate) fn breaking(&self) -> &'static str
        ensures { result.now ≡ breaking_of self.now }
    {
        match self {
            Syntax::Haproxy { .. } | Syntax::Pf => NO_ADDRESS,
            _ => "",
        }
    }

    /// The most bytes that are added for a network.
    pub(crate) fn most_bytes(&self) -> usize {
        let texts = match self {
            Syntax::Cidr | Syntax::Nft { .. } | Syntax::Pf => 0,
            Syntax::Ipset { name } => name.len(),
            Syntax::Iptables { chain, target } => chain.len().saturating_add(target.len()),
            Syntax::Nginx { value, .. } | Syntax::Haproxy { value } => value.len(),
        };
        texts.saturating_add(LINE_BYTES)
    }

    /// Adds a network of a kind, the first of its kind or another one.
    pub(crate) fn push_network(
        &self,
        kind: BlockKind,
        action: Action,
        is_first: bool,
        network: IpNetwork,
        line: &mut Vec<u8>,
    ) -> Result<(), AllocError>
        ensures { OnOk result (line.new.items
            ≡ line.old.items ++ line_of self.now kind action is_first (short_text_of network)) }
    {
        match self {
            Syntax::Nft { .. } => push_element(is_first, network, line),
            Syntax::Cidr => push_signed(action, network, line),
            Syntax::Pf => push_whole(network, line),
            Syntax::Ipset { name } => push_member(action, *name, kind, network, line),
            Syntax::Iptables { chain, target } => push_rule(*chain, kind, network, *target, line),
            Syntax::Nginx { value, .. } => push_with_value("    ", network, *value, ";\n", line),
            Syntax::Haproxy { value } => push_with_value("", network, *value, "\n", line),
        }
    }

    /// Whether a block of all addresses of a kind has to be written as its halves: a set of `hash:net` takes no prefix
    /// of 0.
    pub(crate) fn halves_all(&self) -> bool
        ensures { result ≡ not (takes_all self.now) }
    {
        matches!(self, Syntax::Ipset { .. })
    }
}
