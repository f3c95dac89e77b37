// The file header, and what it shows of a file.

ghost use Rattle.elf_load.specs.Format.{file_header};
ghost use Rattle.elf_load.specs.Refusals.{first_holding, has_bad_table, header_refusals};
ghost use Rattle.std.specs.Prelude.{IfOk, length, ◌*◌, ◌+◌, ◌≡◌, ◌≤◌};
ghost use Rattle.std.specs.Result.{result_err};

use crate::fault::ElfFault;
use crate::fields::{u16_at, u32_at};
use crate::table::PROGRAM_HEADER_LEN;
use std::marker::Model;

/// The bytes of a file header.
pub const FILE_HEADER_LEN: usize = 52;

/// How an ELF file begins.
pub const MAGIC: [u8; 4] = [0x7f, b'E', b'L', b'F'];

/// 32 bits, lowest byte first, version 1.
pub const CLASS: [u8; 3] = [1, 1, 1];

/// ET_EXEC.
pub const EXECUTABLE: u16 = 2;

/// EM_RISCV.
pub const RISCV: u16 = 243;

// EF_RISCV_RVC.
const COMPRESSED: u32 = 1;

// The most program headers that are taken.
const MOST_HEADERS: u16 = 64;

/// The fields of a file header that are looked at ("ELF Header").
#[derive(Clone, Copy)]
pub struct FileHeader {
    /// e_type: what kind of file it is.
    pub kind: u16,
    /// e_machine: which machine it is for.
    pub machine: u16,
    /// e_entry: where the program begins.
    pub entry: u32,
    /// e_phoff: where the program headers begin.
    pub table: u32,
    /// e_flags: what the machine has to know.
    pub flags: u32,
    /// e_phentsize: the bytes of a program header.
    pub header_size: u16,
    /// e_phnum: how many program headers there are.
    pub count: u16,
}

impl Model for FileHeader {
    ghost use Rattle.elf_load.specs.Format as format;

    ghost Value = { format.FileHeader };

    ghost view = { λ h. record {
      kind = h.kind;
      machine = h.machine;
      entry = h.entry;
      table = h.table;
      flags = h.flags;
      header_size = h.header_size;
      count = h.count;
    } };

    ghost inverse = { λ h. record {
      kind = h.kind;
      machine = h.machine;
      entry = h.entry;
      table = h.table;
      flags = h.flags;
      header_size = h.header_size;
      count = h.count;
    } };
}

impl FileHeader {
    /// The header of a file, or the first refusal that it shows.
    pub fn read(file: &[u8]) -> Result<FileHeader, ElfFault>
        ensures header { IfOk result (λ header. header ≡ file_header file.now) }
        ensures few { IfOk result (λ header. header.count ≤ 64) }
        ensures inside { IfOk result (λ header. 1 ≤ header.count → header.table + 32 * header.count
            ≤ length file.now) }
        ensures first { first_holding (header_refusals file.now) ≡ result_err result }
    {
        if file.len() < FILE_HEADER_LEN {
            return Err(ElfFault::Short);
        }
        if !file.starts_with(&MAGIC) {
            return Err(ElfFault::Magic);
        }
        if !file[MAGIC.len()..].starts_with(&CLASS) {
            return Err(ElfFault::Class);
        }
        let header = FileHeader::new(file);
        if header.kind != EXECUTABLE {
            return Err(ElfFault::Kind);
        }
        if header.machine != RISCV {
            return Err(ElfFault::Machine);
        }
        if header.flags & COMPRESSED != 0 {
            return Err(ElfFault::Compressed);
        }
        if header.has_bad_table(file.len()) {
            return Err(ElfFault::Table);
        }
        Ok(header)
    }

    // Whether the program headers are too many, of another size, or end past a file of so many bytes.
    fn has_bad_table(&self, file_len: usize) -> bool
        ensures { result ≡ has_bad_table file_len self.now }
    {
        let end = u64::from(self.table) + PROGRAM_HEADER_LEN as u64 * u64::from(self.count);
        self.count > MOST_HEADERS
            || (self.count > 0
                && (usize::from(self.header_size) != PROGRAM_HEADER_LEN || end > file_len as u64))
    }

    // The header that a file begins with.
    fn new(file: &[u8]) -> FileHeader
        requires { 52 ≤ length file.now }
        ensures { result ≡ file_header file.now }
    {
        FileHeader {
            kind: u16_at(file, 16),
            machine: u16_at(file, 18),
            entry: u32_at(file, 24),
            table: u32_at(file, 28),
            flags: u32_at(file, 36),
            header_size: u16_at(file, 42),
            count: u16_at(file, 44),
        }
    }
}
