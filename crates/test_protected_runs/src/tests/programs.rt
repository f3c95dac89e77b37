// The words of the programs. They were put together by hand from the RISC-V unprivileged manual.

pub(super) const EXIT_7: [u32; 3] = [0x0070_0513, 0x05d0_0893, 0x0000_0073];

// Exits with the word at 0x1000, and with that at 0x1004.
pub(super) const EXIT_WITH_FIRST: [u32; 4] = [0x0000_12b7, 0x0002_a503, 0x05d0_0893, 0x0000_0073];

pub(super) const EXIT_WITH_SECOND: [u32; 4] = [0x0000_12b7, 0x0042_a503, 0x05d0_0893, 0x0000_0073];

// Stores 65 in lines 2053, 4101 and 6149, then 66 and then 67, and exits with the byte of line 2053. These lines share a set,
// and so do the counter blocks of their pages, 32, 64 and 96, and the nodes above those.
pub(super) const STORE_FAR_APART: [u32; 14] = [
    0x0002_02b7,
    0x0004_0337,
    0x0006_03b7,
    0x0410_0e13,
    0x0030_0e93,
    0x15c2_8023,
    0x15c3_0023,
    0x15c3_8023,
    0x001e_0e13,
    0xfffe_8e93,
    0xfe0e_96e3,
    0x1402_c503,
    0x05d0_0893,
    0x0000_0073,
];

// Prints the 8 bytes from 0xffc on, and exits with 8.
pub(super) const PRINT_8: [u32; 8] = [
    0x0000_15b7,
    0xffc5_8593,
    0x0010_0513,
    0x0080_0613,
    0x0400_0893,
    0x0000_0073,
    0x05d0_0893,
    0x0000_0073,
];

// Stores 65 at 0x1000, which is line 64, loads it, and exits with it.
pub(super) const EXIT_65: [u32; 6] = [
    0x0000_12b7,
    0x0410_0313,
    0x0062_a023,
    0x0002_a503,
    0x05d0_0893,
    0x0000_0073,
];

// The code of the next four programs is line 0, which is in one set with lines 64 and 128. It is used last at each
// fetch, so a load of line 128 evicts line 64.

// Stores 65 in line 64, loads from line 128, loads line 64 again, and exits with it.
pub(super) const EXIT_WITH_65_AGAIN: [u32; 8] = [
    0x0000_12b7,
    0x0000_23b7,
    0x0410_0313,
    0x0062_a023,
    0x0003_ae03,
    0x0002_a503,
    0x05d0_0893,
    0x0000_0073,
];

// The same, but the store and the load from line 128 are done twice.
pub(super) const STORE_65_TWICE: [u32; 10] = [
    0x0000_12b7,
    0x0000_23b7,
    0x0410_0313,
    0x0062_a023,
    0x0003_ae03,
    0x0062_a023,
    0x0003_ae03,
    0x0002_a503,
    0x05d0_0893,
    0x0000_0073,
];

// Stores 65 in line 64, prints that byte, loads from line 128, prints the byte again, and exits with 1.
pub(super) const PRINT_A_AGAIN: [u32; 13] = [
    0x0000_12b7,
    0x0000_23b7,
    0x0410_0313,
    0x0062_a023,
    0x0010_0513,
    0x0002_8593,
    0x0010_0613,
    0x0400_0893,
    0x0000_0073,
    0x0003_ae03,
    0x0000_0073,
    0x05d0_0893,
    0x0000_0073,
];

// Stores 200, 199, and so on to 1 in line 64, with a load from line 128 behind each store, and exits with 0.
pub(super) const WEAR_LINE_64: [u32; 9] = [
    0x0000_12b7,
    0x0000_23b7,
    0x0c80_0313,
    0x0062_a023,
    0x0003_ae03,
    0xfff3_0313,
    0xfe03_1ae3,
    0x05d0_0893,
    0x0000_0073,
];

// Stores 65 at 0x1000, prints that byte, and exits with 1.
pub(super) const PRINT_A: [u32; 10] = [
    0x0000_12b7,
    0x0410_0313,
    0x0062_a023,
    0x0010_0513,
    0x0002_8593,
    0x0010_0613,
    0x0400_0893,
    0x0000_0073,
    0x05d0_0893,
    0x0000_0073,
];

// Stores a word in each of the 130 lines from 0x1000 to 0x3080, loads one from each of them, loads them all once more,
// and exits with 0.
pub(super) const OVER_130_LINES: [u32; 16] = [
    0x0000_12b7,
    0x0000_3337,
    0x0803_0313,
    0x0002_8393,
    0x0053_a023,
    0x0403_8393,
    0xfe63_9ce3,
    0x0020_0413,
    0x0002_8393,
    0x0003_a483,
    0x0403_8393,
    0xfe63_9ce3,
    0xfff4_0413,
    0xfe04_16e3,
    0x05d0_0893,
    0x0000_0073,
];

// Stores 200, 199, and so on to 1 at 0x1000, and exits with 0.
pub(super) const COUNT_DOWN: [u32; 8] = [
    0x0000_12b7,
    0x0002_8293,
    0x0c80_0313,
    0x0062_a023,
    0xfff3_0313,
    0xfe03_1ce3,
    0x05d0_0893,
    0x0000_0073,
];
