//! The addresses of links, by the targets that name them.

ghost use Rattle.std.specs.Prelude.{◌≡◌, option_map};
ghost use Rattle.aseba_tools.specs.Address as spec;

use aseba_text::number_from;

/// Whether a target is a link and no file.
pub fn names_link(target: &str) -> bool
    ensures { result ≡ spec.names_link target.now }
{
    target.as_bytes().starts_with(b"tcp:")
}

/// The address of the link that a target names, if it is `tcp:HOST:PORT`.
pub fn address_of(target: &str) -> Option<&str>
    ensures { option_map (λ address. address.now) result ≡ spec.address_of target.now }
{
    let address = target.strip_prefix("tcp:")?;
    if is_address(address) {
        Some(address)
    } else {
        None
    }
}

/// Whether a text is a host without a colon, a colon, and a port from 1 to 65535.
fn is_address(text: &str) -> bool
    ensures { result ≡ spec.is_address text.now }
{
    match text.split_once(':') {
        Some((host, port)) => {
            !host.is_empty() && number_from(1, 65_535, port.as_bytes()).is_some()
        }
        None => false,
    }
}
