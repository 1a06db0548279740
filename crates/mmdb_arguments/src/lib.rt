//! The arguments of the program `mmdb`.
#![tactic(auto)]

mod commands;
mod rejected;
mod request;
mod shown;

pub use rejected::{ArgumentMessage, NoRequest};
pub use request::{
    BuildArguments, ConditionTexts, DiffArguments, EnrichArguments, ExportArguments, Format, Hop,
    InfoArguments, InstallArguments, ListArguments, ListDiffArguments, Request, Reserved,
    RowFormat, ShowArguments, VerifyArguments, request_of,
};
pub use shown::shown_text;
