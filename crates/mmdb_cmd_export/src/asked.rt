//! What the texts of `export` name: files, and a network.
use mmdb_arguments::{ExportArguments, NoRequest};
use mmdb_reader::IpNetwork;
use std::alloc::{AllocError, Global};

/// The files and the network that arguments name.
#[derive(Drop)]
pub(crate) struct AskedTexts<'a> {
    /// The names of files, each once.
    pub(crate) files: Vec<&'a str>,
    pub(crate) range: Option<IpNetwork>,
}

impl<'a> AskedTexts<'a> {
    // Takes a name that is no network.
    fn take_name(&mut self, name: &'a str) -> Result<(), AllocError> {
        if !self.files.contains(&name) {
            self.files.push(name)?;
        }
        Ok(())
    }

    // Takes a text: the network, or the name of a file.
    fn take(&mut self, alloc: Global, text: &'a str) -> Result<(), NoRequest> {
        match text.parse::<IpNetwork>() {
            Ok(_) if self.range.is_some() => {
                Err(NoRequest::bad_argument(alloc, text, "a second network; one is asked for"))
            }
            Ok(range) => {
                self.range = Some(range);
                Ok(())
            }
            Err(_) => Ok(self.take_name(text)?),
        }
    }
}

/// What the arguments name, in any order. An `Err` where there is no file, and where there are two networks.
pub(crate) fn asked_texts<'a>(
    alloc: Global,
    arguments: &ExportArguments<'a>,
) -> Result<AskedTexts<'a>, NoRequest> {
    let mut asked = AskedTexts {
        files: Vec::new(alloc),
        range: None,
    };
    asked.take(alloc, arguments.file)?;
    for text in &arguments.others {
        asked.take(alloc, *text)?;
    }
    if asked.files.is_empty() {
        return Err(NoRequest::bad_argument(alloc, "export", "needs a file"));
    }
    Ok(asked)
}
