ghost use Rattle.std.specs.Prelude.{◌≤◌};

use hmac_tag::{HmacTagger, Keys, XorTagger, derive, hmac};
use sec_base::Tagger;
use std::fmt::Write;
use std::test::Fail;

// The bytes as digits, two for each.
pub(crate) fn digits(rt: &HostRuntime, bytes: &[u8]) -> Result<String, Fail> {
    let mut text = String::new(rt.alloc());
    for byte in bytes {
        write!(text, "{byte:02x}")?;
    }
    Ok(text)
}

// The bytes 00, 01, 02 and so on.
pub(crate) fn counting<const N: usize>() -> [u8; N]
    requires { N ≤ 256 }
{
    let mut bytes = [0; N];
    for i in 0..N {
        bytes[i] = i as u8;
    }
    bytes
}

// RFC 4231, test cases 1, 2, 3, 4, 6 and 7.
#[test]
fn rfc_4231(rt: HostRuntime) -> Result<(), Fail> {
    let cases: [(&[u8], &[u8], &str); 6] = [
        (
            &[0x0b; 20],
            b"Hi There",
            "b0344c61d8db38535ca8afceaf0bf12b881dc200c9833da726e9376c2e32cff7",
        ),
        (
            b"Jefe",
            b"what do ya want for nothing?",
            "5bdcc146bf60754e6a042426089575c75a003f089d2739839dec58b964ec3843",
        ),
        (
            &[0xaa; 20],
            &[0xdd; 50],
            "773ea91e36800e46854db8ebd09181a72959098b3ef8c122d9635514ced565fe",
        ),
        (
            &counting::<26>()[1..],
            &[0xcd; 50],
            "82558a389a443c0ea4cc819899f2083a85f0faa3e578f8077a2e3ff46729665b",
        ),
        (
            &[0xaa; 131],
            b"Test Using Larger Than Block-Size Key - Hash Key First",
            "60e431591ee0b67f0d8a26aacbf5b77f8e0bc6213728c5140546040f0ee37f54",
        ),
        (
            &[0xaa; 131],
            b"This is a test using a larger than block-size key and a larger than block-size data. The key needs to be hashed before being used by the HMAC algorithm.",
            "9b09ffa71b942fcb27635fbcd5b0e944bfdc63644f0713938a7f51535c3a35e2",
        ),
    ];
    for (key, text, expected) in cases {
        assert_eq!(rt; digits(&rt, &hmac(key, text))?.as_str(), expected);
    }
    Ok(())
}

// No key and keys around the length of a block, 00 01 02 .., and the text `abc`: from Python's `hmac` and `hashlib`.
#[test]
fn keys_around_a_block(rt: HostRuntime) -> Result<(), Fail> {
    let key = counting::<65>();
    let cases: [(&[u8], &str); 4] = [
        (
            &[],
            "fd7adb152c05ef80dccf50a1fa4c05d5a3ec6da95575fc312ae7c5d091836351",
        ),
        (
            &key[..63],
            "d2bee6f325e7ec9e0e412319f6775134f43f4e16e168b7386de22a29c70a7b9d",
        ),
        (
            &key[..64],
            "6ab541b4869dca71c4ca11d8bb1b02533b789a557583161429292c7404bc21f6",
        ),
        (
            &key,
            "dfbffee4671bad00ed5d1e1999d55ed3b0cc774ac357f9ebf649c1612414fcec",
        ),
    ];
    for (key, expected) in cases {
        assert_eq!(rt; digits(&rt, &hmac(key, b"abc"))?.as_str(), expected);
    }
    Ok(())
}

// The tag of a data message and that of a node message.
fn tags<T: Tagger>(tagger: &T, data: &[u8; 78], node: &[u8; 70]) -> ([u8; 16], [u8; 16]) {
    (tagger.data_tag(data), tagger.node_tag(node))
}

// The device key 00 01 02 .. 1f: from Python's `hmac` and `hashlib`.
#[test]
fn keys_and_tags_of_a_device(rt: HostRuntime) -> Result<(), Fail> {
    let keys = derive(&counting());
    let tagger = HmacTagger::new(&keys);
    // Line 5 under the counter (0, 1), all zeros.
    let mut data = [0; 78];
    data[0] = 0x44;
    data[1] = 5;
    data[13] = 1;
    // Level 1, index 2, the block 00 01 02 .. 3f.
    let mut node = [0; 70];
    node[0] = 0x4e;
    node[1] = 1;
    node[2] = 2;
    node[6..].copy_from_slice(&counting::<64>());
    let (data_tag, node_tag) = tags(&tagger, &data, &node);
    let cases: [(&[u8], &str); 6] = [
        (&keys.enc_key, "0dea1b7f592f4cbd46f023760bf849c3"),
        (
            &keys.line_key,
            "9dd78fa36b26c332831fb2809d0ebb4398009accfaebbe45763a0459a214486f",
        ),
        (
            &keys.tree_key,
            "83d9bd2ef93fe00084eb9f1953edd10315b57879dfbfa84d22e79ad45baecbc6",
        ),
        (
            &keys.report_key,
            "f35a46dc464ffae93b3fbee67896fe725f54073e899207cd3198163534a06683",
        ),
        (&data_tag, "502468e4330029485ec3fea6e74289b4"),
        (&node_tag, "168d3af536b1bcaf79cdf4b3d3ee62ff"),
    ];
    for (bytes, expected) in cases {
        assert_eq!(rt; digits(&rt, bytes)?.as_str(), expected);
    }
    Ok(())
}

// Keys whose line key and tree key are these.
fn keys_of_messages(line_key: [u8; 32], tree_key: [u8; 32]) -> Keys {
    Keys {
        enc_key: [0; 16],
        line_key,
        tree_key,
        report_key: [0; 32],
    }
}

// Line 5 under the counter (0, 1), all zeros, and node 2 of level 1 with a byte in each piece, the last a part of one:
// from Python, and the first two by hand. Of a key 16 bytes count.
#[test]
fn tags_by_xor(rt: HostRuntime) -> Result<(), Fail> {
    let mut data = [0; 78];
    data[0] = 0x44;
    data[1] = 5;
    data[13] = 1;
    let mut node = [0; 70];
    node[0] = 0x4e;
    node[1] = 1;
    node[2] = 2;
    node[19] = 0x11;
    node[36] = 0x22;
    node[53] = 0x33;
    node[69] = 0x44;
    let mut line_key = [0xff; 32];
    line_key[..16].copy_from_slice(&counting::<16>());
    let mut tree_key = [0x0f; 32];
    tree_key[..16].copy_from_slice(&[0xf0; 16]);
    let cases = [
        (
            keys_of_messages([0; 32], [0; 32]),
            "44050000000000000000000000010000",
            "4e010211227700000000000000000000",
        ),
        (
            keys_of_messages(counting(), tree_key),
            "440402030405060708090a0b0c0c0e0f",
            "bef1f2e1d287f0f0f0f0f0f0f0f0f0f0",
        ),
        (
            keys_of_messages(line_key, [0xf0; 32]),
            "440402030405060708090a0b0c0c0e0f",
            "bef1f2e1d287f0f0f0f0f0f0f0f0f0f0",
        ),
    ];
    for (keys, data_tag, node_tag) in cases {
        let (of_data, of_node) = tags(&XorTagger::new(&keys), &data, &node);
        assert_eq!(rt; digits(&rt, &of_data)?.as_str(), data_tag);
        assert_eq!(rt; digits(&rt, &of_node)?.as_str(), node_tag);
    }
    Ok(())
}
