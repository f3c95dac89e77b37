use std::test::Fail;
use workload_gen::make;

// The words before the last: from GNU as 2.40, with the text's two pseudoinstructions that it spells by AUIPC, `la` and
// `call`, written as LUI and ADDI and as JAL.
const CODE: [u32; 59] = [
    0x0000_0437,
    0x0ec4_0413,
    0x0004_2483,
    0x0004_8913,
    0x0002_09b7,
    0x0004_0a37,
    0xffca_0a13,
    0x0000_5ab7,
    0xe20a_8a93,
    0x0ac0_00ef,
    0x0144_f2b3,
    0x0132_82b3,
    0x0092_a023,
    0xfffa_8a93,
    0xfe0a_96e3,
    0x0008_0bb7,
    0x0008_1c37,
    0x0008_2cb7,
    0x12c0_0a93,
    0x015b_a023,
    0x015c_2023,
    0x015c_a023,
    0xfffa_8a93,
    0xfe0a_98e3,
    0x0009_0493,
    0x0000_5ab7,
    0xe20a_8a93,
    0x0000_0b13,
    0x01f0_0e93,
    0x05c0_00ef,
    0x0144_f2b3,
    0x0132_82b3,
    0x0002_ae03,
    0x03db_0b33,
    0x01cb_0b33,
    0xfffa_8a93,
    0xfe0a_92e3,
    0x000b_ae03,
    0x01cb_0b33,
    0x000c_2e03,
    0x01cb_0b33,
    0x000c_ae03,
    0x01cb_0b33,
    0x0164_2023,
    0x0010_0513,
    0x0004_0593,
    0x0040_0613,
    0x0400_0893,
    0x0000_0073,
    0x0ffb_7513,
    0x05d0_0893,
    0x0000_0073,
    0x00d4_9f13,
    0x01e4_c4b3,
    0x0114_df13,
    0x01e4_c4b3,
    0x0054_9f13,
    0x01e4_c4b3,
    0x0000_8067,
];

#[test]
fn images_of_numbers(rt: HostRuntime) -> Result<(), Fail> {
    let cases = [
        (0, [0, 0, 0, 0]),
        (1, [1, 0, 0, 0]),
        (0x0102_0304, [4, 3, 2, 1]),
        (0xffff_fffe, [0xfe, 0xff, 0xff, 0xff]),
    ];
    for (number, last) in cases {
        let image = make(rt.alloc(), number).ok().ok_or("no memory")?;
        assert_eq!(rt;
            (image.entry, image.size, image.segments.len()),
            (0, 1_048_576, 1)
        );
        let segment = image.segments.get(0).ok_or("no segment")?;
        assert_eq!(rt; (segment.addr, segment.length), (0, 240));
        let bytes = segment.bytes.as_slice();
        assert_eq!(rt; bytes.len(), 240);
        for (at, word) in CODE.iter().enumerate() {
            assert_eq!(rt;
                &bytes[4 * at..4 * at + 4],
                word.to_le_bytes().as_slice(),
                "word {at}"
            );
        }
        assert_eq!(rt; &bytes[236..], last.as_slice(), "number {number}");
    }
    Ok(())
}
