//! The parts of a URL as calls give them, taken from the kit's `Url`.
ghost use Rattle.std.specs.Prelude.{◌≡◌, ◌++◌, ℕ, List, codes, IfOk, string_bytes};
ghost use Rattle.kube_types.specs.Url.Parts.{scheme_of, host_of, hostname_of, shown_of};
ghost use Rattle.kube_types.specs.Url.Shown.{url_view};

use crate::urls::kube_url::KubeUrl;
use std::alloc::{AllocError, Global};
use url::{Host, Url};

/// The scheme, which is empty for a path.
fn scheme(url: &Url, is_path: bool) -> &str
    ensures { result.now ≡ scheme_of url.now is_path }
{
    if is_path { "" } else { url.scheme() }
}

/// The host with its port.
fn host(alloc: Global, url: &Url, is_path: bool) -> Result<String, AllocError>
    ensures answer { IfOk result (λ host. string_bytes host ≡ host_of url.now is_path) }
{
    if is_path {
        return String::from_str(alloc, "localhost");
    }
    let host = url.host_str().unwrap_or("");
    match url.port() {
        Some(port) => format!(in alloc; "{host}:{port}"),
        None => String::from_str(alloc, host),
    }
}

/// The host without its brackets.
fn without_brackets(host: &str) -> &str
    ensures { (inner : List ℕ) → host.now ≡ codes "[" ++ inner ++ codes "]" → result.now ≡ inner }
{
    let Some(rest) = host.strip_prefix('[') else {
        return host;
    };
    let Some(inner) = rest.strip_suffix(']') else {
        return host;
    };
    inner
}

/// The host without port and brackets.
fn hostname(url: &Url, is_path: bool) -> &str
    ensures { result.now ≡ hostname_of url.now is_path }
{
    if is_path {
        return "localhost";
    }
    let host = url.host_str().unwrap_or("");
    match url.host() {
        Some(Host::Ipv6(_)) => without_brackets(host),
        _ => host,
    }
}

/// The URL with its parts, and whether it was parsed from a path.
pub(crate) fn of_url(alloc: Global, url: &Url, is_path: bool) -> Result<KubeUrl, AllocError>
    ensures answer { IfOk result (λ shown. url_view shown ≡ shown_of url.now is_path) }
{
    Ok(KubeUrl {
        text: String::from_str(alloc, url.as_str())?,
        is_path,
        scheme: String::from_str(alloc, scheme(url, is_path))?,
        host: host(alloc, url, is_path)?,
        hostname: String::from_str(alloc, hostname(url, is_path))?,
        port: url.port(),
        path: String::from_str(alloc, url.path())?,
        query: String::from_str(alloc, url.query().unwrap_or(""))?,
    })
}
