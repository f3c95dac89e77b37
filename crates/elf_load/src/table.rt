// The program headers.

ghost use Rattle.elf_load.specs.Format.{headers_from, program_header};
ghost use Rattle.elf_load.specs.Refusals.{is_interp, is_load, is_misfit};
ghost use Rattle.std.specs.List.{list_any};
ghost use Rattle.std.specs.Prelude.{IfOk, length, ◌*◌, ◌+◌, ◌≡◌, ◌≤◌};

use crate::fields::u32_at;
use crate::header::FileHeader;
use sec_base::NoMemory;
use std::alloc::Global;
use std::marker::Model;

/// The bytes of a program header.
pub const PROGRAM_HEADER_LEN: usize = 32;

/// PT_LOAD.
pub const LOAD: u32 = 1;

// PT_INTERP.
const INTERP: u32 = 3;

/// The fields of a program header that are looked at ("Program Header").
#[derive(Clone, Copy)]
pub struct ProgramHeader {
    /// p_type: what it is the header of.
    pub kind: u32,
    /// p_offset: where its bytes begin in the file.
    pub offset: u32,
    /// p_vaddr: where it begins in the memory.
    pub address: u32,
    /// p_filesz: how many bytes it has in the file.
    pub file_length: u32,
    /// p_memsz: how many bytes it has in the memory.
    pub memory_length: u32,
}

impl Model for ProgramHeader {
    ghost use Rattle.elf_load.specs.Format as format;

    ghost Value = { format.ProgramHeader };

    ghost view = { λ h. record {
      kind = h.kind;
      offset = h.offset;
      address = h.address;
      file_length = h.file_length;
      memory_length = h.memory_length;
    } };

    ghost inverse = { λ h. record {
      kind = h.kind;
      offset = h.offset;
      address = h.address;
      file_length = h.file_length;
      memory_length = h.memory_length;
    } };
}

impl ProgramHeader {
    // The header at a place of a file.
    fn new(file: &[u8], at: usize) -> ProgramHeader
        requires { at + 32 ≤ length file.now }
        ensures { result ≡ program_header file.now at }
    {
        ProgramHeader {
            kind: u32_at(file, at),
            offset: u32_at(file, at + 4),
            address: u32_at(file, at + 8),
            file_length: u32_at(file, at + 16),
            memory_length: u32_at(file, at + 20),
        }
    }

    /// Whether it asks for an interpreter.
    pub fn is_interp(&self) -> bool
        ensures { result ≡ is_interp self.now }
    {
        self.kind == INTERP
    }

    /// Whether it is the header of a segment that is loaded.
    pub fn is_load(&self) -> bool
        ensures { result ≡ is_load self.now }
    {
        self.kind == LOAD
    }

    /// Whether it is a segment that is loaded and has more bytes than memory, or ends past a file of so many bytes
    /// or past a memory of `size`.
    pub fn is_misfit(&self, file_len: usize, size: u32) -> bool
        ensures { result ≡ is_misfit file_len size self.now }
    {
        let end_in_file = u64::from(self.offset) + u64::from(self.file_length);
        let end_in_memory = u64::from(self.address) + u64::from(self.memory_length);
        self.is_load()
            && (self.file_length > self.memory_length
                || (self.file_length > 0 && end_in_file > file_len as u64)
                || end_in_memory > u64::from(size))
    }
}

/// Whether one of them asks for an interpreter.
pub fn any_interp(headers: &[ProgramHeader]) -> bool
    ensures { result ≡ list_any is_interp headers.now }
{
    headers.iter().any(|header| header.is_interp())
}

/// Whether one of them is a misfit.
pub fn any_misfit(headers: &[ProgramHeader], file_len: usize, size: u32) -> bool
    ensures { result ≡ list_any (is_misfit file_len size) headers.now }
{
    headers
        .iter()
        .any(|header| header.is_misfit(file_len, size))
}

/// The program headers of a file, in the order of its table.
pub fn program_headers(
    alloc: Global,
    file: &[u8],
    header: &FileHeader,
) -> Result<Vec<ProgramHeader>, NoMemory>
    requires { 1 ≤ header.now.count → header.now.table + 32 * header.now.count ≤ length file.now }
    ensures { IfOk result (λ headers. headers.items
        ≡ headers_from file.now header.now.table header.now.count) }
{
    let table = header.table as usize;
    let mut headers = Vec::new(alloc);
    for index in 0..usize::from(header.count) {
        headers.push(ProgramHeader::new(file, table + PROGRAM_HEADER_LEN * index))?;
    }
    Ok(headers)
}
