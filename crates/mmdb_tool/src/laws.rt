//! Laws of lines and sinks, each the contract of a function that does nothing.
ghost use Rattle.mmdb_net.specs.Clones.{IsCloneSame, NeverFails};
ghost use Rattle.mmdb_format.specs.Equality.{IsEqualityOf};
ghost use Rattle.mmdb_tool.specs.Lines.{LeafTextsShowNetworks};

use crate::sink::Fault;

/// The text of a leaf is the full text of the network that shows it.
pub fn leaf_texts_show_networks()
    ensures { LeafTextsShowNetworks }
{}

/// Faults of a sink are equal exactly where they are the same one.
pub fn faults_equal_where_same()
    ensures { IsEqualityOf ⟦<Fault as PartialEq>⟧.eq (λ fault. fault) }
{}

/// A clone of a sink's fault is its source, and never fails.
pub fn fault_clones_are_same()
    ensures same { IsCloneSame ⟦<Fault as Clone>⟧.is_clone }
    ensures given { NeverFails ⟦<Fault as Clone>⟧.is_infallible }
{}
