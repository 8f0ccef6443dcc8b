// What a run works on, and what it tells.
use logparser_cli::run;
use lp_outside::{Name, Sink, Source};
use lp_values::{Bytes, TextList};
use memory_outside::{MemoryDisk, MemoryLogs, MemorySink, MemorySource};
use std::alloc::{AllocError, Global};
use std::test::Fail;

/// The logs, the disk, the input and the outputs of a run.
#[derive(Drop)]
pub(crate) struct Outside<I, S> {
    pub(crate) logs: MemoryLogs,
    pub(crate) disk: MemoryDisk,
    pub(crate) input: I,
    pub(crate) out: S,
    pub(crate) err: MemorySink,
}

impl<I: Source, S: Sink> Outside<I, S> {
    /// No logs and no files, beside an input and an output.
    pub(crate) fn beside(alloc: Global, input: I, out: S) -> Self {
        Outside {
            logs: MemoryLogs::new(alloc),
            disk: MemoryDisk::new(alloc),
            input,
            out,
            err: MemorySink::new(alloc),
        }
    }

    /// The code of a run of words at a moment.
    pub(crate) fn run(&mut self, alloc: Global, words: &TextList, moment: i64) -> u8 {
        let status = run(
            alloc,
            words,
            moment,
            &mut self.logs,
            &mut self.disk,
            &mut self.input,
            &mut self.out,
            &mut self.err,
        );
        status.code()
    }
}

/// An outside that is all in memory.
pub(crate) type InMemory = Outside<MemorySource, MemorySink>;

/// An outside whose input gives these bytes.
pub(crate) fn giving(alloc: Global, bytes: Bytes) -> InMemory {
    let input = MemorySource::new(alloc, bytes);
    Outside::beside(alloc, input, MemorySink::new(alloc))
}

fn add_outputs(to: &mut Bytes, outside: &InMemory) -> Result<(), AllocError> {
    to.add(outside.out.bytes())?;
    to.push(b'|')?;
    to.add(outside.err.bytes())
}

/// Runs words at a moment, and tells the code and what went to out and to err, as `code out|err`.
pub(crate) fn told_outputs(
    outside: &mut InMemory,
    alloc: Global,
    words: &TextList,
    moment: i64,
) -> Result<Bytes, AllocError> {
    let mut told = code_text(alloc, outside.run(alloc, words, moment))?;
    add_outputs(&mut told, outside)?;
    Ok(told)
}

/// A code and the blank behind it.
pub(crate) fn code_text(alloc: Global, code: u8) -> Result<Bytes, AllocError> {
    let code = format!(in alloc; "{code} ")?;
    let mut text = Bytes::new(alloc);
    text.add(code.as_str().as_bytes())?;
    Ok(text)
}

/// What a file of a disk holds, behind a text.
pub(crate) fn add_file(to: &mut Bytes, disk: &MemoryDisk, file: &str) -> Result<(), Fail> {
    let file = name(file)?;
    Ok(to.add(disk.bytes(&file))?)
}

pub(crate) fn name(text: &str) -> Result<Name, Fail> {
    Ok(Name::read(text).map_err(|_| "no name")?)
}
