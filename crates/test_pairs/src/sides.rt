// Programs, and what each comes to as the first one and as the second one. Endings and counts are those of their runs alone,
// and reports are from an independent model in Python (hashlib, hmac).
use chip_cases::{EXIT_7_TEXT, PRINT_TWICE, STORE_AND_PRINT};

/// A program by its assembly text, and what an adversary does to its memory.
#[derive(Clone, Copy)]
pub(crate) struct Program<'a> {
    pub text: &'a [u8],
    pub script: &'a [u8],
}

/// A program that is run beside another one.
#[derive(Clone, Copy, Debug, PartialEq, Eq)]
pub(crate) enum Side {
    /// It exits with 7.
    Exits,
    /// A breakpoint.
    Traps,
    /// It stores an A in lines that go out, prints it, reads it back, and halts with it.
    Stores,
    /// The same, where a bit of that line is flipped before it is read.
    Caught,
    /// It prints A and then B, and halts with 1.
    Prints,
}

impl Side {
    /// What it comes to.
    pub(crate) fn outcome(self) -> Outcome<'static> {
        match self {
            Side::Exits => EXITS,
            Side::Traps => TRAPS,
            Side::Stores => STORES,
            Side::Caught => CAUGHT,
            Side::Prints => PRINTS,
        }
    }

    pub(crate) fn program(self) -> Program<'static> {
        self.outcome().program
    }
}

/// A program, what it prints, and what is told of it: as the first one, whose key is the bytes 00 to 1f, and as the second
/// one, whose key is the bytes 20 to 3f.
#[derive(Clone, Copy)]
pub(crate) struct Outcome<'a> {
    pub program: Program<'a>,
    pub printed: &'a [u8],
    pub told_first: &'a [u8],
    pub told_second: &'a [u8],
}

pub(crate) const FLIP: &[u8] = b"read data 5 1: flip data 5 0 01\n";

const EXITS: Outcome<'static> = Outcome {
    program: Program {
        text: EXIT_7_TEXT,
        script: b"",
    },
    printed: b"",
    told_first: b"halted 7\nretired 3\nlies 0\n\
    report \
    020116f50c65e5d32ef308c297c15f9cdae14c3f482dd9e03853348a497b7abe0a1a\
    e3b0c44298fc1c149afbf4c8996fb92427ae41e4649b934ca495991b7852b855\
    e3b0c44298fc1c149afbf4c8996fb92427ae41e4649b934ca495991b7852b855\
    0300000000000000000700000000000000000000000000000000000000\
    81e559c48eb173a699be68f86f6a16eaf31a8f353212150f6009039db0c6161c\n",
    told_second: b"halted 7\nretired 3\nlies 0\n\
    report \
    020116f50c65e5d32ef308c297c15f9cdae14c3f482dd9e03853348a497b7abe0a1a\
    e3b0c44298fc1c149afbf4c8996fb92427ae41e4649b934ca495991b7852b855\
    e3b0c44298fc1c149afbf4c8996fb92427ae41e4649b934ca495991b7852b855\
    0300000000000000000700000000000000000000000000000000000000\
    4eab726c181b90aee6e5cf3849bb4054edf0820babb59c03336679a9683fa7be\n",
};

const TRAPS: Outcome<'static> = Outcome {
    program: Program {
        text: b"ebreak\n",
        script: b"",
    },
    printed: b"",
    told_first: b"trapped breakpoint pc 00000000\nretired 0\nlies 0\n\
    report \
    02018380590e36d067634ae927006a1b7bdc83a63844e22dbb8cab8a37b0f2146459\
    e3b0c44298fc1c149afbf4c8996fb92427ae41e4649b934ca495991b7852b855\
    e3b0c44298fc1c149afbf4c8996fb92427ae41e4649b934ca495991b7852b855\
    0000000000000000010500000000000000000000000000000000000000\
    7cbcf10f128b898a05066357eea4a57888abd89f6d6a8967ec71499ca58c034c\n",
    told_second: b"trapped breakpoint pc 00000000\nretired 0\nlies 0\n\
    report \
    02018380590e36d067634ae927006a1b7bdc83a63844e22dbb8cab8a37b0f2146459\
    e3b0c44298fc1c149afbf4c8996fb92427ae41e4649b934ca495991b7852b855\
    e3b0c44298fc1c149afbf4c8996fb92427ae41e4649b934ca495991b7852b855\
    0000000000000000010500000000000000000000000000000000000000\
    1d56e3c49857c330becd7237db5af19716433777b26ee0982caa9bf42dd3f88a\n",
};

const STORES: Outcome<'static> = Outcome {
    program: Program {
        text: STORE_AND_PRINT,
        script: b"",
    },
    printed: b"A",
    told_first: b"halted 65\nretired 20\nlies 0\n\
    report \
    020138262e99038ad3eff5c2711844b300aacfe263ccbfdbcf9787563f0b7308ab7a\
    e3b0c44298fc1c149afbf4c8996fb92427ae41e4649b934ca495991b7852b855\
    559aead08264d5795d3909718cdd05abd49572e84fe55590eef31a88a08fdffd\
    1400000000000000004100000000000000000000000000000000000000\
    43eb7103d39b0ac3f3e8e85975f8c6d1d0b2fc43fb7d51f465661e51942c9333\n",
    told_second: b"halted 65\nretired 20\nlies 0\n\
    report \
    020138262e99038ad3eff5c2711844b300aacfe263ccbfdbcf9787563f0b7308ab7a\
    e3b0c44298fc1c149afbf4c8996fb92427ae41e4649b934ca495991b7852b855\
    559aead08264d5795d3909718cdd05abd49572e84fe55590eef31a88a08fdffd\
    1400000000000000004100000000000000000000000000000000000000\
    b2ab9aa6f6a166db108a3adfd38b2b81b1f7312c54f5673e57b0b66469ccc028\n",
};

const CAUGHT: Outcome<'static> = Outcome {
    program: Program {
        text: STORE_AND_PRINT,
        script: FLIP,
    },
    printed: b"A",
    told_first: b"tampered data 5\nretired 17\nlies 1\n\
    report \
    020138262e99038ad3eff5c2711844b300aacfe263ccbfdbcf9787563f0b7308ab7a\
    e3b0c44298fc1c149afbf4c8996fb92427ae41e4649b934ca495991b7852b855\
    559aead08264d5795d3909718cdd05abd49572e84fe55590eef31a88a08fdffd\
    1100000000000000050000000000000000000000000000000000000000\
    c1327b079ac46e4500d8cd791e13ec0cb33c04c30b25aa1658d2d0d818e4f1e5\n",
    told_second: b"tampered data 5\nretired 17\nlies 1\n\
    report \
    020138262e99038ad3eff5c2711844b300aacfe263ccbfdbcf9787563f0b7308ab7a\
    e3b0c44298fc1c149afbf4c8996fb92427ae41e4649b934ca495991b7852b855\
    559aead08264d5795d3909718cdd05abd49572e84fe55590eef31a88a08fdffd\
    1100000000000000050000000000000000000000000000000000000000\
    411b6fbe1835a284291cb00199fd3cae36e1b1777bc15fa8875f7aaa1ca56f17\n",
};

const PRINTS: Outcome<'static> = Outcome {
    program: Program {
        text: PRINT_TWICE,
        script: b"",
    },
    printed: b"AB",
    told_first: b"halted 1\nretired 11\nlies 0\n\
    report \
    0201c15e4f0f0f8213648a8b623a52c70e4450c981cb088cbc593137fc4de3293275\
    e3b0c44298fc1c149afbf4c8996fb92427ae41e4649b934ca495991b7852b855\
    38164fbd17603d73f696b8b4d72664d735bb6a7c88577687fd2ae33fd6964153\
    0b00000000000000000100000000000000000000000000000000000000\
    336488779c745080ef44c7d5360177297982e7454c07d2b98184b7c8d4a2ba00\n",
    told_second: b"halted 1\nretired 11\nlies 0\n\
    report \
    0201c15e4f0f0f8213648a8b623a52c70e4450c981cb088cbc593137fc4de3293275\
    e3b0c44298fc1c149afbf4c8996fb92427ae41e4649b934ca495991b7852b855\
    38164fbd17603d73f696b8b4d72664d735bb6a7c88577687fd2ae33fd6964153\
    0b00000000000000000100000000000000000000000000000000000000\
    b6c02381535fda5156a5408cf2fa85499444a417e9770d9149da8370fa21df6f\n",
};
