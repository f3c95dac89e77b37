//! The memory that the processor sees: numbers in lines that stand outside the chip, of which it keeps copies. It answers its
//! first stop to each later call.
#![tactic(auto)]

mod secure_ram;

pub use secure_ram::SecureRam;
