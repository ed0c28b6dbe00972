//! `KubeUrl`: parsing, its parts, equality and copies.
ghost use Rattle.std.specs.BTreeMap.{get_by_text};
ghost use Rattle.std.specs.Cmp.{on_per, on_equiv, partial_equiv_from_equiv};
ghost use Rattle.std.specs.Option.{option_map};
ghost use Rattle.std.specs.Prelude.{◌≡◌, ◌≤◌, length, ℕ, List, IfOk, IfErr, string_bytes};
ghost use Rattle.kube_types_refused.specs.declared.Refused.TheVariants.{Memory, TooLarge};
ghost use Rattle.kube_types.specs.Url.Equality.{same_url, same_url_equiv};
ghost use Rattle.kube_types.specs.Url.Query.{pairs_of, values_of};
ghost use Rattle.kube_types.specs.Url.Reading.{url_of};
ghost use Rattle.kube_types.specs.Url.Shown.{url_view, texts};

use crate::urls::parts::of_url;
use crate::urls::query::{grouped, pairs};
use crate::urls::reading::{full_text, parsed};
use kube_types_refused::Refused;
use std::alloc::Global;
use std::collections::BTreeMap;

/// A URL, or an absolute path in place of one.
#[derive(Debug)]
pub struct KubeUrl {
    /// The URL in full.
    pub(crate) text: String,
    /// Whether it was parsed from a path.
    pub(crate) is_path: bool,
    pub(crate) scheme: String,
    /// The host, with its port.
    pub(crate) host: String,
    /// The host without port and brackets.
    pub(crate) hostname: String,
    pub(crate) port: Option<u16>,
    pub(crate) path: String,
    pub(crate) query: String,
}

// By hand, so that a proof about code that owns one doesn't go through its parts.
impl Drop for KubeUrl {
    fn drop(self) {
        let KubeUrl {
            text: _,
            is_path: _,
            scheme: _,
            host: _,
            hostname: _,
            port: _,
            path: _,
            query: _,
        } = self;
    }
}

impl KubeUrl {
    /// Parses a URL or an absolute path, or returns None if the text is neither.
    ///
    /// A text that starts with `/` is a path. It is parsed
    /// as a URL with `http://localhost` in front of it.
    ///
    /// # Errors
    /// [`Refused::Memory`] if memory is refused. [`Refused::TooLarge`] if `url` returns `Overflow`,
    /// which is never reported for a text of less than 256 MiB.
    pub fn read(alloc: Global, text: &str) -> Result<Option<KubeUrl>, Refused>
        ensures url { IfOk result (λ url. option_map url_view url ≡ url_of text.now) }
        ensures large { IfErr result (λ e. e ≡ TooLarge → 268_435_456 ≤ length text.now) }
    {
        let is_path = text.starts_with('/');
        let full = full_text(alloc, text)?;
        match parsed(alloc, full.as_str(), text.len())? {
            Some(url) => Ok(Some(of_url(alloc, &url, is_path)?)),
            None => Ok(None),
        }
    }

    /// Returns the scheme, which is empty for a path.
    ///
    /// # Errors
    /// [`Refused::Memory`] if memory is refused.
    pub fn scheme(&self, alloc: Global) -> Result<String, Refused>
        ensures answer { IfOk result (λ scheme. string_bytes scheme ≡ (url_view self.now).scheme) }
        ensures memory { IfErr result (λ e. e ≡ Memory) }
    {
        Ok(String::from_str(alloc, self.scheme_str())?)
    }

    /// The scheme, borrowed.
    pub fn scheme_str(&self) -> &str
        ensures { result.now ≡ (url_view self.now).scheme }
    {
        self.scheme.as_str()
    }

    /// Returns the host, followed by `:` and the port if the URL has
    /// one. It is `localhost` for a path, and empty if there is no host.
    ///
    /// A URL doesn't keep a port that is the default of its scheme.
    ///
    /// # Errors
    /// [`Refused::Memory`] if memory is refused.
    pub fn host(&self, alloc: Global) -> Result<String, Refused>
        ensures answer { IfOk result (λ host. string_bytes host ≡ (url_view self.now).host) }
        ensures memory { IfErr result (λ e. e ≡ Memory) }
    {
        Ok(String::from_str(alloc, self.host.as_str())?)
    }

    /// Returns the host without a port and without the brackets of an IPv6 address. It is
    /// `localhost` for a path, and empty if there is no host.
    ///
    /// # Errors
    /// [`Refused::Memory`] if memory is refused.
    pub fn hostname(&self, alloc: Global) -> Result<String, Refused>
        ensures answer { IfOk result (λ name. string_bytes name ≡ (url_view self.now).hostname) }
        ensures memory { IfErr result (λ e. e ≡ Memory) }
    {
        Ok(String::from_str(alloc, self.hostname_str())?)
    }

    /// The host without port and brackets, borrowed.
    pub fn hostname_str(&self) -> &str
        ensures { result.now ≡ (url_view self.now).hostname }
    {
        self.hostname.as_str()
    }

    /// Returns the port in decimal, or an empty string if the URL has none.
    ///
    /// # Errors
    /// [`Refused::Memory`] if memory is refused.
    pub fn port(&self, alloc: Global) -> Result<String, Refused>
        ensures answer { IfOk result (λ port. string_bytes port ≡ (url_view self.now).port) }
        ensures memory { IfErr result (λ e. e ≡ Memory) }
    {
        match self.port {
            Some(port) => Ok(format!(in alloc; "{port}")?),
            None => Ok(String::new(alloc)),
        }
    }

    /// Returns the path, percent-encoded.
    ///
    /// # Errors
    /// [`Refused::Memory`] if memory is refused.
    pub fn escaped_path(&self, alloc: Global) -> Result<String, Refused>
        ensures answer { IfOk result (λ path. string_bytes path ≡ (url_view self.now).path) }
        ensures memory { IfErr result (λ e. e ≡ Memory) }
    {
        Ok(String::from_str(alloc, self.escaped_path_str())?)
    }

    /// The path, percent-encoded and borrowed.
    pub fn escaped_path_str(&self) -> &str
        ensures { result.now ≡ (url_view self.now).path }
    {
        self.path.as_str()
    }

    /// Returns the query as a map from each name to its
    /// values, which are in the order of the query.
    ///
    /// The query is split at `&`, and empty pieces are dropped. A piece is split at its first `=`
    /// into a name and a value; without a `=` the value is empty. In names and values, `+` is a
    /// space, escapes are decoded, and invalid UTF-8 is replaced.
    ///
    /// # Errors
    /// [`Refused::Memory`] if memory is refused.
    pub fn query(&self, alloc: Global) -> Result<BTreeMap<String, Vec<String>>, Refused>
        ensures answer { IfOk result (λ query. (name : List ℕ) → option_map texts (get_by_text query name)
            ≡ values_of (pairs_of (url_view self.now).query) name) }
        ensures memory { IfErr result (λ e. e ≡ Memory) }
    {
        let pairs = pairs(alloc, self.query.as_str())?;
        let query = grouped(alloc, pairs)?;
        Ok(query)
    }

    /// Returns a copy of this URL.
    ///
    /// # Errors
    /// [`Refused::Memory`] if memory is refused.
    pub fn try_clone(&self) -> Result<KubeUrl, Refused>
        ensures same { IfOk result (λ copy. url_view copy ≡ url_view self.now) }
        ensures memory { IfErr result (λ e. e ≡ Memory) }
    {
        Ok(KubeUrl {
            text: self.text.clone()?,
            is_path: self.is_path,
            scheme: self.scheme.clone()?,
            host: self.host.clone()?,
            hostname: self.hostname.clone()?,
            port: self.port,
            path: self.path.clone()?,
            query: self.query.clone()?,
        })
    }
}

/// Two URLs are equal if their texts are, and either both or neither were parsed from a path.
impl PartialEq for KubeUrl {
    ghost eq = { λ a b. same_url (url_view a) (url_view b) };

    ghost laws = { on_per url_view (partial_equiv_from_equiv same_url_equiv) };

    fn eq(&self, other: &KubeUrl) -> bool {
        self.text == other.text && self.is_path == other.is_path
    }
}

impl Eq for KubeUrl {
    ghost laws = { on_equiv url_view same_url_equiv };
}
