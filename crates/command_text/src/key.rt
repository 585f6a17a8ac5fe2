//! How a place shows a key.
ghost use Rattle.std.specs.Prelude.{◌≡◌};
ghost use Rattle.command_text.specs.Places.{masked, shown};

use net_base::Text;

/// A graphic octet, or a question mark in its place.
pub fn mask(octet: u8) -> u8
    ensures { result ≡ masked octet }
{
    if octet < 0x21 || octet > 0x7E {
        b'?'
    } else {
        octet
    }
}

/// The first 32 octets of a key, with `?` in place of each that is not graphic.
#[tactic(auto, unfolding(crate::specs::Places::shown))]
pub fn key_text(key: &[u8]) -> Text<32>
    ensures { result ≡ shown key.now }
{
    let (front, _) = key.split_at(key.len().min(32));
    let mut octets = [0u8; 32];
    for (i, octet) in front.iter().enumerate() {
        octets[i] = mask(*octet);
    }
    let (held, _) = octets.split_at(front.len());
    Text::read(held).unwrap()
}
