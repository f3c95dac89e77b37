// Programs by their words, and one as an ELF file. The bytes are put together by hand from the format's tables.

/// It exits with 7.
pub const EXIT_7: [u32; 3] = [
    0x0070_0513, // addi a0, zero, 7
    0x05d0_0893, // addi a7, zero, 93
    0x0000_0073, // ecall
];

/// A byte is stored at 1000, loaded from there, and is the exit code.
pub const EXIT_65: [u32; 6] = [
    0x0000_12b7, // lui t0, 0x1
    0x0410_0313, // addi t1, zero, 65
    0x0062_a023, // sw t1, 0(t0)
    0x0002_a503, // lw a0, 0(t0)
    0x05d0_0893, // addi a7, zero, 93
    0x0000_0073, // ecall
];

/// It prints that byte, and exits with what the service answered.
pub const PRINT_A: [u32; 10] = [
    0x0000_12b7, // lui t0, 0x1
    0x0410_0313, // addi t1, zero, 65
    0x0062_a023, // sw t1, 0(t0)
    0x0010_0513, // addi a0, zero, 1
    0x0002_8593, // addi a1, t0, 0
    0x0010_0613, // addi a2, zero, 1
    0x0400_0893, // addi a7, zero, 64
    0x0000_0073, // ecall
    0x05d0_0893, // addi a7, zero, 93
    0x0000_0073, // ecall
];

/// The bytes of the program that exits with 7.
pub const EXIT_7_BYTES: &[u8] = b"\x13\x05\x70\0\x93\x08\xd0\x05\x73\0\0\0";

/// Its assembly text.
pub const EXIT_7_TEXT: &[u8] = b"li a0, 7\nli a7, 93\necall\n";

/// Its ELF file: a file header, a program header, and three words.
pub const EXIT_7_ELF: [u8; 96] = [
    0x7f, 0x45, 0x4c, 0x46, 1, 1, 1, 0, 0, 0, 0, 0, 0, 0, 0, 0, // ident
    2, 0, 243, 0, 1, 0, 0, 0, 0, 0, 0, 0, 52, 0, 0, 0, // kind, machine, version, entry, table
    0, 0, 0, 0, 0, 0, 0, 0, // sections, flags
    52, 0, 32, 0, 1, 0, 0, 0, 0, 0, 0, 0, // sizes and numbers of headers
    1, 0, 0, 0, 84, 0, 0, 0, 0, 0, 0, 0, 0, 0, 0, 0, // kind, offset, address twice
    12, 0, 0, 0, 12, 0, 0, 0, 7, 0, 0, 0, 1, 0, 0, 0, // lengths, flags, alignment
    0x13, 0x05, 0x70, 0x00, 0x93, 0x08, 0xd0, 0x05, 0x73, 0x00, 0x00, 0x00,
];
