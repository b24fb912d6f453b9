//! The host of a URL.
ghost use Rattle.std.specs.Prelude.{◌≡◌, IfOk, option_copied, string_bytes};
ghost use Rattle.url.specs.Host.{borrowed_host};
ghost use Rattle.url.specs.Parts.{nonempty_host};
ghost use Rattle.mysql_url.specs.Hosts.{host_name, host_of, unless_local};

use conn_model::Text;
use std::alloc::{AllocError, Global};
use url::{Host, Url};

/// The name of the host, or its address. That of an IPv6 address has no brackets and is written in groups of
/// hexadecimal digits alone, as in the URL: std would end an address that holds one of IPv4 with dots.
fn name_of(alloc: Global, host: Host<&str>) -> Result<String, AllocError>
    ensures { IfOk result (λ name. string_bytes name ≡ host_name (borrowed_host host.entry)) }
{
    match host {
        Host::Domain(domain) => String::from_str(alloc, domain),
        Host::Ipv4(address) => format!(in alloc; "{address}"),
        Host::Ipv6(address) => format!(in alloc; "{}", address.hex_groups()),
    }
}

/// The name, unless it is `localhost` beside a socket: a client that is given both goes by the socket.
fn unless_it_is_local(
    alloc: Global,
    socket: Option<&Text>,
    name: &str,
) -> Result<Option<Text>, AllocError>
    ensures { IfOk result (λ host. host ≡ unless_local (option_copied socket.entry) name.now) }
{
    if socket.is_some() && name == "localhost" {
        return Ok(None);
    }
    Ok(Some(Text::new(alloc, name)?))
}

/// The host of the URL, where this socket is named.
pub fn host_in(alloc: Global, socket: Option<&Text>, url: &Url) -> Result<Option<Text>, AllocError>
    ensures { IfOk result
        (λ host. host ≡ host_of (option_copied socket.entry) (nonempty_host url.now)) }
{
    let Some(host) = url.host() else {
        return Ok(None);
    };
    let name = name_of(alloc, host)?;
    unless_it_is_local(alloc, socket, name.as_str())
}
