// The keys that a device key gives.
ghost use Rattle.std.specs.Prelude.{◌≡◌};
ghost use Rattle.hmac_tag.specs.DeviceKeys.{keys_of};

use crate::mac::{HmacKey, first_16};

/// The keys that a device key gives.
#[derive(Clone, Copy)]
pub struct Keys {
    /// Enciphers the lines, by AES-128.
    pub enc_key: [u8; 16],
    /// Tags the data lines.
    pub line_key: [u8; 32],
    /// Tags the nodes of the tree.
    pub tree_key: [u8; 32],
    /// Signs the reports.
    pub report_key: [u8; 32],
}

/// Each key is the HMAC of its name under the device key; `enc_key` is the first 16 bytes of it.
#[tactic(auto, unfolding(crate::specs::Hmac::hmac_of))]
pub fn derive(device: &[u8; 32]) -> Keys
    ensures { result ≡ keys_of device.now }
{
    let device = HmacKey::new(device);
    Keys {
        enc_key: first_16(&device.mac(b"enc")),
        line_key: device.mac(b"data"),
        tree_key: device.mac(b"tree"),
        report_key: device.mac(b"report"),
    }
}
