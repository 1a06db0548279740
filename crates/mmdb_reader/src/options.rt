//! Which networks are listed.
ghost use Rattle.std.specs.Prelude.{◌≡◌};

/// Which networks of a range are listed. By default aliased networks and networks without data are
/// not, and empty values are listed as all others.
///
///     for item in reader.networks(rt.alloc(), WithinOptions::default())? {
///         let found = item?;
///         println!(rt; "{} {:?}", found.network()?, found.offset())?;
///     }
#[derive(Clone, Copy, Debug, PartialEq, Eq)]
pub struct WithinOptions {
    aliased_networks: bool,
    networks_without_data: bool,
    empty_values_skipped: bool,
}

impl Default for WithinOptions {
    ghost use Rattle.mmdb_reader.specs.Options.{default_options};

    ghost is_default = { λ options. options ≡ default_options };

    fn default() -> WithinOptions {
        WithinOptions {
            aliased_networks: false,
            networks_without_data: false,
            empty_values_skipped: false,
        }
    }
}

impl WithinOptions {
    ghost use Rattle.mmdb_reader.specs.Options.{includes_aliased, includes_without_data, skips_empty, with_aliased, with_networks_without_data, with_empty_skipped};

    /// Lists networks below aliases too: other ways of an IPv6 tree to where its IPv4 addresses begin.
    pub fn include_aliased_networks(self) -> WithinOptions
        ensures { result ≡ with_aliased self }
    {
        WithinOptions {
            aliased_networks: true,
            ..self
        }
    }

    /// Lists networks without data too.
    pub fn include_networks_without_data(self) -> WithinOptions
        ensures { result ≡ with_networks_without_data self }
    {
        WithinOptions {
            networks_without_data: true,
            ..self
        }
    }

    /// Leaves out networks whose value is an empty map or array, directly or through one pointer.
    pub fn skip_empty_values(self) -> WithinOptions
        ensures { result ≡ with_empty_skipped self }
    {
        WithinOptions {
            empty_values_skipped: true,
            ..self
        }
    }

    // Whether networks below aliases are listed.
    pub(crate) fn includes_aliased(self) -> bool
        ensures { result ≡ includes_aliased self }
    {
        self.aliased_networks
    }

    // Whether networks without data are listed.
    pub(crate) fn includes_without_data(self) -> bool
        ensures { result ≡ includes_without_data self }
    {
        self.networks_without_data
    }

    // Whether networks with empty values are left out.
    pub(crate) fn skips_empty(self) -> bool
        ensures { result ≡ skips_empty self }
    {
        self.empty_values_skipped
    }
}
