//! An IPv4 address, and the text that writes it.

ghost use Rattle.std.specs.Prelude.{◌≡◌, IfOk, map, option_map};
ghost use Rattle.claim_file.specs.Address as spec;

use std::alloc::{AllocError, Global};
use std::net::Ipv4Addr;

/// The four numbers of an address: decimal, without leading zeros, with dots between them.
pub(crate) fn read_address(text: &str) -> Option<[u8; 4]>
    ensures { result ≡ spec.address_of text.now }
{
    match text.parse::<Ipv4Addr>() {
        Ok(address) => Some(address.octets()),
        Err(_) => None,
    }
}

/// The addresses that texts write, None if one writes none.
pub(crate) fn read_addresses(
    alloc: Global,
    texts: &[&str],
) -> Result<Option<Vec<[u8; 4]>>, AllocError>
    ensures { IfOk result (λ found.
        option_map (λ v. v.items) found ≡ spec.addresses_of (map (λ text. text.now) texts.now)) }
{
    let mut found = Vec::new(alloc);
    for text in texts {
        match read_address(text) {
            Some(address) => found.push(address)?,
            None => return Ok(None),
        }
    }
    Ok(Some(found))
}

/// Whether no address stands twice.
pub(crate) fn are_different(addresses: &[[u8; 4]]) -> bool
    ensures { result ≡ spec.are_different addresses.now }
{
    match addresses {
        [] => true,
        [address, rest @ ..] => !rest.contains(address) && are_different(rest),
    }
}
