// Programs by their assembly texts.

/// A byte is stored in lines of memory that a small cache would hold in one place, and then printed.
pub const STORE_AND_PRINT: &[u8] = b"_start: li   t0, 0x140
        lui  t1, 0x1
        add  t1, t1, t0
        lui  t2, 0x2
        add  t2, t2, t0
        li   t3, 65
        sb   t3, 0(t0)
        sb   t3, 64(t0)
        sb   t3, 0(t1)
        sb   t3, 64(t1)
        sb   t3, 0(t2)
        sb   t3, 64(t2)
        li   a0, 1
        mv   a1, t2
        li   a2, 1
        li   a7, 64
        ecall
        lbu  a0, 0(t0)
        li   a7, 93
        ecall
";

/// Three of those lines are stored again: what is read is the later byte.
pub const STORE_TWICE: &[u8] = b"_start: li   t0, 0x140
        lui  t1, 0x1
        add  t1, t1, t0
        lui  t2, 0x2
        add  t2, t2, t0
        li   t3, 65
        li   t4, 2
again:  sb   t3, 0(t0)
        sb   t3, 0(t1)
        sb   t3, 0(t2)
        addi t3, t3, 1
        addi t4, t4, -1
        bnez t4, again
        lbu  a0, 0(t0)
        li   a7, 93
        ecall
";

/// It prints A and then B, and exits with what the service answered.
pub const PRINT_TWICE: &[u8] = b"_start: la   a1, text
        li   a2, 1
        li   a0, 1
        li   a7, 64
        ecall
        addi a1, a1, 1
        li   a0, 1
        ecall
        li   a7, 93
        ecall
text:   .ascii \"AB\"
";

/// It stores to one line 200 times, and the line stays on the chip.
pub const STORE_200_TIMES: &[u8] = b"        li   t0, 0x1000
        li   t1, 200
again:  sw   t1, 0(t0)
        addi t1, t1, -1
        bnez t1, again
        li   a7, 93
        ecall
";

/// A byte is stored in three lines of one set, and loaded from two pages whose counter blocks share a set with the one of page
/// 0, and where nothing was stored: so that one goes out. It exits with the byte that it reads back.
pub const READ_UNTOUCHED: &[u8] = b"_start: li   t0, 0x140
        lui  t1, 0x1
        add  t1, t1, t0
        lui  t2, 0x2
        add  t2, t2, t0
        sb   t0, 0(t0)
        sb   t0, 0(t1)
        sb   t0, 0(t2)
        lui  t1, 0x10
        lui  t2, 0x20
        lbu  a0, 128(t1)
        lbu  a0, 128(t2)
        lbu  a0, 0(t0)
        li   a7, 93
        ecall
";

/// It stores three times into three lines whose counter blocks share a set, and so do the nodes above them.
pub const STORE_FAR_APART: &[u8] = b"_start: lui  t0, 0x20
        lui  t1, 0x40
        lui  t2, 0x60
        li   t3, 65
        li   t4, 3
again:  sb   t3, 320(t0)
        sb   t3, 320(t1)
        sb   t3, 320(t2)
        addi t3, t3, 1
        addi t4, t4, -1
        bnez t4, again
        lbu  a0, 320(t0)
        li   a7, 93
        ecall
";
