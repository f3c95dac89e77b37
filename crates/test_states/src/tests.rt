// State files by a model outside the program: AES by FIPS 197 in plain Python, HMAC and SHA-256 by Python's hashlib and
// hmac; the pads and the HMAC of the first one also by OpenSSL 3. The keys are of the device key 00 to 1f.

use hex::FromHex;
use pad_stream::PadEngine;
use sealed_state::{ChipState, StateFault, seal, unseal};
use sec_base::Counter;
use std::test::Fail;

// The first 16 bytes of the HMAC of `enc` under the device key.
const ENC_KEY: [u8; 16] = [
    0x0d, 0xea, 0x1b, 0x7f, 0x59, 0x2f, 0x4c, 0xbd, 0x46, 0xf0, 0x23, 0x76, 0x0b, 0xf8, 0x49, 0xc3,
];

// The HMAC of `state` under the device key.
const STATE_KEY: [u8; 32] = [
    0x8c, 0xee, 0x1a, 0x3a, 0xd5, 0xcc, 0xbc, 0xaa, 0x29, 0xdf, 0xda, 0x42, 0x39, 0x8f, 0x32, 0xf7,
    0xc8, 0x99, 0xd3, 0xb5, 0x5b, 0x12, 0xb1, 0xc7, 0x99, 0x10, 0xfd, 0xd4, 0xb0, 0x93, 0x6f, 0xf3,
];

const STATE: ChipState = ChipState {
    pc: 0x0001_0204,
    regs: [
        0x01a0_b001,
        0x02a0_b002,
        0x03a0_b003,
        0x04a0_b004,
        0x05a0_b005,
        0x06a0_b006,
        0x07a0_b007,
        0x08a0_b008,
        0x09a0_b009,
        0x0aa0_b00a,
        0x0ba0_b00b,
        0x0ca0_b00c,
        0x0da0_b00d,
        0x0ea0_b00e,
        0x0fa0_b00f,
        0x10a0_b010,
        0x11a0_b011,
        0x12a0_b012,
        0x13a0_b013,
        0x14a0_b014,
        0x15a0_b015,
        0x16a0_b016,
        0x17a0_b017,
        0x18a0_b018,
        0x19a0_b019,
        0x1aa0_b01a,
        0x1ba0_b01b,
        0x1ca0_b01c,
        0x1da0_b01d,
        0x1ea0_b01e,
        0x1fa0_b01f,
    ],
    position: 0x1112_1314_1516_1718,
    first_break: 0x2122_2324,
    brk: 0x3132_3334,
    retired: 0x4142_4344_4546_4748,
};

const NUMBER: u64 = 0x0807_0605_0403_0201;

// The file of that state under that number, in digits.
const FILE: &str =
    "5301020304050607084fe4e2bc5a04b6ad8d255194b78b99a2d3485f957b5720a05868ba9c837a3fb36f920c\
    5e179c4de24c6efa14a28dcd29b5440dcd45767a5c47c3cbf211f146cd0fb0ad2afc5418aed9df28940d7933\
    6ba4fb3635c7697321185810f79dd52dd9334a8bf3bd164f2cca4be8c3f14519d4c1e277d946f875fba2dd40\
    45a54fdac011f63c1b9d75800e87211167475ddf333b4966f66e2d33e24a07194afd2e498a54d2f973d3dbea\
    cfbf3da716a0612d86317c81f424f5c700bf4c6929760d9e35e236d3e6ae59bf9dd3a4ab485e4779867a9a05\
    5fe5531529c82ad5a179d148d0";

// The same, but for the bytes 01 to 28 behind the fields in place of zeros.
const FILE_WITH_SPARE_BYTES: &str =
    "5301020304050607084fe4e2bc5a04b6ad8d255194b78b99a2d3485f957b5720a05868ba9c837a3fb36f920c\
    5e179c4de24c6efa14a28dcd29b5440dcd45767a5c47c3cbf211f146cd0fb0ad2afc5418aed9df28940d7933\
    6ba4fb3635c7697321185810f79dd52dd9334a8bf3bd164f2cca4be8c3f14519d4c1e277d946f875fba2dd40\
    45a54fdac011f63c1b9d75800e87211167475ddf333b4966f66e2d33e24b051a4ef8284e825dd8f27fded5e5\
    dfae2fb402b5773a9e28669ae839ebd8209e6e4a0d532bb91d6cbabe1119c94df7d8866394651e5c55962cb7\
    0adeba321cd10c310d61f053d6";

// The bytes of a file's digits.
fn bytes_of(digits: &str) -> Result<[u8; 233], Fail> {
    Ok(<[u8; 233]>::from_hex(digits.as_bytes())?)
}

#[test]
fn a_state_is_sealed_and_found_again(rt: HostRuntime) -> Result<(), Fail> {
    let rows = [
        (NUMBER, FILE),
        (
            1,
            "530100000000000000aa147dd68daedbca4b5350d7dfbd9452cf7aa6f9cda221606da1486411140db8a81426\
                3a64030caa39e0af52e316b4b54d8bc2b7994485fbf4fb2a758ba828010792d1b7587e340d33f0d80e84aa7b\
                f6d263f188a00bdd711358b7089d53ff0da62c965a54e09901579d4471b8cf468301a754da5ac2a224bd6229\
                0797cefdfaf98f21ddbdf65fd8507caa5435dd20f7078681a64ee01c9f32f732b90edf323a320a843c1f8c15\
                615f95d5e1008231747024c27b7938f33225a11543aaee2b55ec27ae7df4365c99507af57ed99cbeddaebfa8\
                982fee3390a119cab912e7bef5",
        ),
        (
            255,
            "53ff00000000000000d366697d85fe02deb589a5550b2ef52214d7a55c95edad1e07f0faa35791f805f3afa4\
                4a2e14d781548e4e0ebcfe49428a006d97f257e04851e7d2bf3326210ee9b8bc3af337a0ae416c26b02a2729\
                03b0d11a62799ca612ac98d3c41a7ff27a6a1a9821760daecbb928a35f4a28c060e3f4d3a8c25992dc880687\
                c2c1203af66d117ae5ca0bd44c47ce3f66359d43d5ceecd06aae05dbddbd866a1090cc54eb66621c68454b8f\
                fc10f982a0f6082ef69971dde325aec8057cd8dcd63a3310cae8dde60a35d083b61ec7a11b31308937c2d297\
                7bced65800259d4bff58f18a04",
        ),
        (
            1 << 40,
            "530000000000010000656672b791cdb74b82d2c5b77a3cc934b2aceee49d082751b5e9cef672feb078b2708d\
                9ef076ceef533b57204e0879c4d5072df0580839d42fbda20906897af5793fe198b1d9e99cda8fb7ab9e6d5a\
                5369f179e19b625be245eb00466322cf1073aafdf0d591796475825ff7295666e0cee63fcaf7ded5e951ff0c\
                b20528d41f07550c556cd911a640e567cd3c3dc9a3d508dcb0ff7763ce84b2c1787160bc743c2ec90be6d8af\
                903d66e5be87a05315062079ce12d6e3aaca066e37bccc4c61f96b397878add5c8704507481e18a928f36bc1\
                27827415e0866145b7684f5207",
        ),
    ];
    let mut pads = PadEngine::new(rt.alloc(), &ENC_KEY)?;
    let mut entries = Vec::new(rt.alloc());
    for (number, digits) in rows {
        let file = seal(&mut pads, &STATE, number, &STATE_KEY)?;
        assert_eq!(rt; hex::encode(rt.alloc(), file)?.as_str(), digits);
        assert_eq!(rt; unseal(&pads, &file, number, &STATE_KEY), Ok(STATE));
        let counter = Counter {
            page: number,
            line: 0,
        };
        for line in 0xffff_ff00..0xffff_ff03 {
            entries.push((line, counter))?;
        }
    }
    assert_eq!(rt; pads.finish().as_slice(), entries.as_slice());
    Ok(())
}

// The blocks of zeros are the pads themselves.
#[test]
fn a_state_of_zeros_is_sealed_and_found_again(rt: HostRuntime) -> Result<(), Fail> {
    let zeros = ChipState {
        pc: 0,
        regs: [0; 31],
        position: 0,
        first_break: 0,
        brk: 0,
        retired: 0,
    };
    let mut pads = PadEngine::new(rt.alloc(), &ENC_KEY)?;
    pads.reserve(3)?;
    let file = seal(&mut pads, &zeros, 1, &STATE_KEY)?;
    let wanted =
        "530100000000000000ae167cd68c1e7bcb49e3f0d5dc0d3451cbca06fdc81281656b11e86216a4adbfa0a486\
        326db3aca333500f58e8a614be413b62bb94f425f6fa4b8a7b8418880e172271a749ce941c2140781c971adb\
        e5c6d3519cb5bb7d6405e8171e8ae35f1abe9c36424d5039184d2de46ba37fe6981d17f4c647720239a3d289\
        19887e5de5e19837c8a9e54dc9745f887501ee12c64fc1c7e30aa35ede32f732b90edf323a320a843c1f8c15\
        615f95d5e1008231747024c27b7938f33225a11543aaee2b551fff2464675e8c4001d7fa99c0d392e858090d\
        78253dfccbd7b81b027814f34f";
    assert_eq!(rt; hex::encode(rt.alloc(), file)?.as_str(), wanted);
    assert_eq!(rt; unseal(&pads, &file, 1, &STATE_KEY), Ok(zeros));
    Ok(())
}

#[test]
fn the_bytes_behind_the_fields_may_be_any(rt: HostRuntime) -> Result<(), Fail> {
    let pads = PadEngine::new(rt.alloc(), &ENC_KEY)?;
    for digits in [FILE, FILE_WITH_SPARE_BYTES] {
        let file = bytes_of(digits)?;
        assert_eq!(rt; unseal(&pads, &file, NUMBER, &STATE_KEY), Ok(STATE));
    }
    Ok(())
}

// Where several faults hold, the first one is named.
#[test]
fn each_fault_is_told_in_its_order(rt: HostRuntime) -> Result<(), Fail> {
    let pads = PadEngine::new(rt.alloc(), &ENC_KEY)?;
    let file = bytes_of(FILE)?;
    let mut longer = [0; 234];
    longer[..233].copy_from_slice(&file);
    let mut other_kind = file;
    other_kind[0] = 0x54;
    let other_key = [0; 32];
    let rows: [(&str, &[u8], u64, &[u8; 32], StateFault); 10] = [
        ("no byte", &[], NUMBER, &STATE_KEY, StateFault::Length),
        (
            "a byte less",
            &file[..232],
            NUMBER,
            &STATE_KEY,
            StateFault::Length,
        ),
        (
            "a byte more",
            &longer,
            NUMBER,
            &STATE_KEY,
            StateFault::Length,
        ),
        (
            "a byte less of another kind",
            &other_kind[..232],
            NUMBER,
            &STATE_KEY,
            StateFault::Length,
        ),
        (
            "another kind",
            &other_kind,
            NUMBER,
            &STATE_KEY,
            StateFault::Kind,
        ),
        (
            "of another number",
            &other_kind,
            NUMBER + 1,
            &STATE_KEY,
            StateFault::Kind,
        ),
        ("another key", &file, NUMBER, &other_key, StateFault::Tag),
        (
            "another key and number",
            &file,
            NUMBER + 1,
            &other_key,
            StateFault::Tag,
        ),
        (
            "the next number",
            &file,
            NUMBER + 1,
            &STATE_KEY,
            StateFault::Number,
        ),
        (
            "the number, the highest byte first",
            &file,
            0x0102_0304_0506_0708,
            &STATE_KEY,
            StateFault::Number,
        ),
    ];
    for (case, file, number, key, fault) in rows {
        assert_eq!(rt; unseal(&pads, file, number, key), Err(fault), "{case}");
    }
    Ok(())
}

// Also one of the number is told as a wrong tag, whatever the chip's number is.
#[test]
fn a_flipped_bit_of_each_byte_is_told(rt: HostRuntime) -> Result<(), Fail> {
    let pads = PadEngine::new(rt.alloc(), &ENC_KEY)?;
    let mut file = bytes_of(FILE)?;
    for place in 0..233 {
        let fault = if place == 0 {
            StateFault::Kind
        } else {
            StateFault::Tag
        };
        for number in [NUMBER, NUMBER ^ 1] {
            file[place] ^= 1;
            assert_eq!(rt;
                unseal(&pads, &file, number, &STATE_KEY),
                Err(fault),
                "byte {place}"
            );
            file[place] ^= 1;
        }
    }
    assert_eq!(rt; unseal(&pads, &file, NUMBER, &STATE_KEY), Ok(STATE));
    Ok(())
}

#[test]
fn each_fault_has_its_number_and_its_name(rt: HostRuntime) -> Result<(), Fail> {
    let rows = [
        (StateFault::Length, 1, "Length"),
        (StateFault::Kind, 2, "Kind"),
        (StateFault::Tag, 3, "Tag"),
        (StateFault::Number, 4, "Number"),
    ];
    for (fault, code, name) in rows {
        assert_eq!(rt; fault.code(), code);
        assert_eq!(rt; fault.name(), name);
        assert_eq!(rt; format!(in rt.alloc(); "{fault}")?.as_str(), name);
    }
    Ok(())
}
