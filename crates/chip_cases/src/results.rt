// What commands print of the program that exits with 7: worked out by hand, and the digests by another program (hashlib in
// Python).

pub const LISTING: &[u8] = b"00000000 00700513 addi a0, zero, 7
00000004 05d00893 addi a7, zero, 93
00000008 00000073 ecall
";

/// SHA-256 of 36 bytes: entry, size, one segment, its address and lengths, and its bytes.
pub const DIGEST: &[u8] = b"16f50c65e5d32ef308c297c15f9cdae14c3f482dd9e03853348a497b7abe0a1a\n";

/// The fields of its report.
pub const FIELDS: &[u8] = b"\
measurement 16f50c65e5d32ef308c297c15f9cdae14c3f482dd9e03853348a497b7abe0a1a
input e3b0c44298fc1c149afbf4c8996fb92427ae41e4649b934ca495991b7852b855
output e3b0c44298fc1c149afbf4c8996fb92427ae41e4649b934ca495991b7852b855
retired 3
ending 0 code 7
nonce 00000000000000000000000000000000
layout 1
";
