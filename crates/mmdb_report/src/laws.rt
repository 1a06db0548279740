//! Laws of reports, each the contract of a function that does nothing.
ghost use Rattle.mmdb_report.specs.Counts.{CountsAreOfNetworks};

/// An item is counted by the kind and the prefix of the network that shows it.
pub fn counts_are_of_networks()
    ensures { CountsAreOfNetworks }
{}
