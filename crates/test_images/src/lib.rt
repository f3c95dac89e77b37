//! ELF files, flat files, and generated programs.
#![tactic(auto)]

#[cfg(test)]
mod elf_files;
#[cfg(test)]
mod generated;
