// Clients as bytes: oracle/REPLAY.md has the format. A byte past the end reads as 0.
#![tactic(auto)]

ghost use Rattle.std.specs.Prelude.{◌≡◌};
ghost use Rattle.format.specs.Format.{client_bytes, client_of, is_client};

use protocol::SdoClientInfo;

// Whether a client's kind is 0 or 1.
// (Any byte may stand there, and past the end reads as 0, so it stays a number.)
pub fn is_client(s: &[u8]) -> bool
    ensures { result ≡ is_client s.now }
{
    octets::byte_at(s, 0) < 2
}

// The client in its bytes.
// (Here and in client_bytes the first byte becomes a variant, and a variant its byte: 0 is ASnd, any other is read as UDP.)
pub fn client_in(s: &[u8; 8]) -> SdoClientInfo
    ensures { result ≡ client_of s.now }
{
    match *s {
        [0, node, a, b, c, d, e, f] => SdoClientInfo::Asnd {
            node,
            mac: u64::from_be_bytes([0, 0, a, b, c, d, e, f]),
        },
        [_, a, b, c, d, low, high, _] => SdoClientInfo::Udp {
            ip: u32::from_be_bytes([a, b, c, d]),
            port: u16::from_le_bytes([low, high]),
        },
    }
}

// The client in these bytes.
pub fn client_of(s: &[u8]) -> SdoClientInfo
    ensures { result ≡ client_of s.now }
{
    client_in(&octets::bytes_at(s, 0))
}

// A client's eight bytes.
pub fn client_bytes(client: SdoClientInfo) -> [u8; 8]
    ensures { result ≡ client_bytes client }
{
    match client {
        SdoClientInfo::Asnd { node, mac } => {
            let [_, _, a, b, c, d, e, f] = mac.to_be_bytes();
            [0, node, a, b, c, d, e, f]
        }
        SdoClientInfo::Udp { ip, port } => {
            let [a, b, c, d] = ip.to_be_bytes();
            let [low, high] = port.to_le_bytes();
            [1, a, b, c, d, low, high, 0]
        }
    }
}
