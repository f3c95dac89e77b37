// What words ask for.
use sec_base::Geometry;

/// What the words ask for.
#[derive(Clone, Copy, Debug, PartialEq, Eq)]
pub enum Request<'a> {
    /// To run a program on protected memory.
    Run(ProtectedRun<'a>),
    /// To run a program on the plain machine.
    Plain(Execution<'a>),
    /// To make the ELF file of an assembly text.
    Asm(ProgramFile<'a>),
    /// To list a program's instructions.
    Dis(ProgramFile<'a>),
    /// To tell a program's measurement.
    Measure(ProgramFile<'a>),
    /// To check a report, and to tell what it says.
    Verify(ReportFile<'a>),
    /// To run the generated program of this number on protected memory.
    Bench(u32),
    /// To run a program on protected memory, and to write down what its bus was asked and answered.
    Trace(ProtectedRun<'a>),
    /// To judge a trace.
    Judge(JudgedTrace<'a>),
    /// To run two programs that share the core.
    Pair(PairRun<'a>),
}

/// What is to be run on protected memory, and on what terms.
#[derive(Clone, Copy, Debug, PartialEq, Eq)]
pub struct ProtectedRun<'a> {
    /// What is to be run, and how.
    pub execution: Execution<'a>,
    /// The file of what an adversary does to the memory outside the chip, where there is one.
    pub script: Option<&'a str>,
    /// How its memory is protected.
    pub terms: Terms,
}

/// A trace's file, and what its run was to execute, and how.
#[derive(Clone, Copy, Debug, PartialEq, Eq)]
pub struct JudgedTrace<'a> {
    /// What was to be run, and how.
    pub execution: Execution<'a>,
    /// The trace's file.
    pub trace: &'a str,
}

/// Two programs that are to share the core.
#[derive(Clone, Copy, Debug, PartialEq, Eq)]
pub struct PairRun<'a> {
    /// The first program.
    pub first: SideRun<'a>,
    /// The second program.
    pub second: SideRun<'a>,
    /// The file of whose turn it is, where there is one.
    pub order: Option<&'a str>,
}

/// One of two programs that are to share the core, and what is its own.
#[derive(Clone, Copy, Debug, PartialEq, Eq)]
pub struct SideRun<'a> {
    /// The program's file.
    pub name: &'a str,
    /// The file of what an adversary does to its memory, where there is one.
    pub script: Option<&'a str>,
    /// The key that the keys of its device are derived from.
    pub device_key: [u8; 32],
}

/// How the memory of a run is protected.
#[derive(Clone, Copy, Debug, PartialEq, Eq)]
pub struct Terms {
    /// The key that the keys of the device are derived from.
    pub device_key: [u8; 32],
    /// How messages are tagged.
    pub tags: Tags,
    /// How high a page counter may rise.
    pub page_limit: u64,
    /// What a report of the run is to answer.
    pub nonce: [u8; 16],
}

/// How messages are tagged.
#[derive(Clone, Copy, Debug, PartialEq, Eq)]
pub enum Tags {
    /// By HMAC with SHA-256.
    Hmac,
    /// By an exclusive or of the message's pieces, which can be forged and is for teaching.
    Xor,
}

/// A report's file, and the key of the device that it is checked for.
#[derive(Clone, Copy, Debug, PartialEq, Eq)]
pub struct ReportFile<'a> {
    /// The file's name.
    pub name: &'a str,
    /// The key that the keys of the device are derived from.
    pub device_key: [u8; 32],
}

/// What is to be run, and how.
#[derive(Clone, Copy, Debug, PartialEq, Eq)]
pub struct Execution<'a> {
    /// The program.
    pub file: ProgramFile<'a>,
    /// The file of the program's input, where it has one.
    pub input: Option<&'a str>,
    /// How many instructions may be retired.
    pub steps: u64,
}

/// A program's file, and the memory that the program is for.
#[derive(Clone, Copy, Debug, PartialEq, Eq)]
pub struct ProgramFile<'a> {
    /// The file's name.
    pub name: &'a str,
    /// What the file is read as.
    pub form: ProgramForm,
    /// How large the memory is.
    pub geometry: Geometry,
}

/// What a program's file is read as.
#[derive(Clone, Copy, Debug, PartialEq, Eq)]
pub enum ProgramForm {
    /// An ELF file.
    ElfFile,
    /// The program's bytes and nothing else.
    FlatFile,
    /// An assembly text.
    AssemblyText,
}
