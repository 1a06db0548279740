//! Laws of data and of the format: each is the contract of a function that does nothing.
ghost use Rattle.mmdb_net.specs.Clones.{IsCloneSame, NeverFails};
ghost use Rattle.mmdb_format.specs.Equality.{IsEqualityOf};
ghost use Rattle.mmdb_format.specs.Error.{HoldsCause};
ghost use Rattle.mmdb_format.specs.Unfolding.{OneTreeUnfolds};
ghost use Rattle.mmdb_format.specs.declared.error.MaxMindDbError.TheVariants.{InvalidNetwork, Io};

use crate::content::{Content, Double, Float};
use crate::decode_error_kind::DecodeErrorKind;
use crate::error::MaxMindDbError;
use crate::header::{Direct, Header, Pointer};
use crate::kind::Kind;
use crate::message::Text;
use mmdb_net::IpNetworkError;
use std::io;

/// `==` is equality of data: of numbers that are not whole it compares the bits, so that it distinguishes the
/// zeros, and no number from itself.
pub fn scalars_equal_where_same()
    ensures double { IsEqualityOf ⟦<Double as PartialEq>⟧.eq (λ x. x.bits) }
    ensures float { IsEqualityOf ⟦<Float as PartialEq>⟧.eq (λ x. x.bits) }
    ensures kind { IsEqualityOf ⟦<Kind as PartialEq>⟧.eq (λ kind. kind) }
{}

/// A clone of a number, a kind, a fault, a fixed text, a header, a pointer or a content is its source, and is
/// never an error.
pub fn scalar_clones_are_same()
    ensures double { IsCloneSame ⟦<Double as Clone>⟧.is_clone }
    ensures float { IsCloneSame ⟦<Float as Clone>⟧.is_clone }
    ensures kind { IsCloneSame ⟦<Kind as Clone>⟧.is_clone }
    ensures fault { IsCloneSame ⟦<DecodeErrorKind as Clone>⟧.is_clone }
    ensures text { IsCloneSame ⟦<Text as Clone>⟧.is_clone }
    ensures header { IsCloneSame ⟦<Header as Clone>⟧.is_clone }
    ensures pointer { IsCloneSame ⟦<Pointer as Clone>⟧.is_clone }
    ensures direct { IsCloneSame ⟦<Direct as Clone>⟧.is_clone }
    ensures content { IsCloneSame ⟦<Content<'static> as Clone>⟧.is_clone }
    ensures double_given { NeverFails ⟦<Double as Clone>⟧.is_infallible }
    ensures float_given { NeverFails ⟦<Float as Clone>⟧.is_infallible }
    ensures kind_given { NeverFails ⟦<Kind as Clone>⟧.is_infallible }
    ensures fault_given { NeverFails ⟦<DecodeErrorKind as Clone>⟧.is_infallible }
    ensures text_given { NeverFails ⟦<Text as Clone>⟧.is_infallible }
    ensures header_given { NeverFails ⟦<Header as Clone>⟧.is_infallible }
    ensures pointer_given { NeverFails ⟦<Pointer as Clone>⟧.is_infallible }
    ensures direct_given { NeverFails ⟦<Direct as Clone>⟧.is_infallible }
    ensures content_given { NeverFails ⟦<Content<'static> as Clone>⟧.is_infallible }
{}

/// An error made of an error of the system, or of a network's, holds the error that was handed in.
pub fn errors_hold_their_causes()
    ensures io { HoldsCause Io ⟦<MaxMindDbError as From<io::Error>>⟧.from_gives }
    ensures network { HoldsCause InvalidNetwork
        ⟦<MaxMindDbError as From<IpNetworkError>>⟧.from_gives }
{}

/// At most one tree unfolds at an offset, and it has one end.
pub fn one_tree_unfolds()
    ensures { OneTreeUnfolds }
{}
