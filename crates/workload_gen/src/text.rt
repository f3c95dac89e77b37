// The text of the generated program.

pub(crate) const TEXT: &str = "\
_start: la   s0, cell
        lw   s1, 0(s0)
        mv   s2, s1
        lui  s3, 0x20
        li   s4, 0x3fffc
        li   s5, 20000
fill:   call step
        and  t0, s1, s4
        add  t0, t0, s3
        sw   s1, 0(t0)
        addi s5, s5, -1
        bnez s5, fill
        lui  s7, 0x80
        lui  s8, 0x81
        lui  s9, 0x82
        li   s5, 300
hot:    sw   s5, 0(s7)
        sw   s5, 0(s8)
        sw   s5, 0(s9)
        addi s5, s5, -1
        bnez s5, hot
        mv   s1, s2
        li   s5, 20000
        li   s6, 0
        li   t4, 31
back:   call step
        and  t0, s1, s4
        add  t0, t0, s3
        lw   t3, 0(t0)
        mul  s6, s6, t4
        add  s6, s6, t3
        addi s5, s5, -1
        bnez s5, back
        lw   t3, 0(s7)
        add  s6, s6, t3
        lw   t3, 0(s8)
        add  s6, s6, t3
        lw   t3, 0(s9)
        add  s6, s6, t3
        sw   s6, 0(s0)
        li   a0, 1
        mv   a1, s0
        li   a2, 4
        li   a7, 64
        ecall
        andi a0, s6, 255
        li   a7, 93
        ecall
step:   slli t5, s1, 13
        xor  s1, s1, t5
        srli t5, s1, 17
        xor  s1, s1, t5
        slli t5, s1, 5
        xor  s1, s1, t5
        ret
cell:   .word 0
";
