// A query file of several pieces, and logs that fail at each call.
use crate::outside::name;
use crate::rows::words_of;
use lp_values::TextList;
use memory_outside::MemoryLogs;
use requests::{Request, RequestFault, read_request};
use std::alloc::{AllocError, Global};
use std::process::Abort;
use std::test::Fail;

fn put(logs: &mut MemoryLogs, alloc: Global) -> Result<(), Fail> {
    let name = name("pieces")?;
    let blanks = vec![in alloc; b' '; 10_000]?;
    logs.put(&name, blanks.as_slice())?;
    logs.put(&name, b"SELECT a FROM far.log")?;
    Ok(())
}

// How many logs the query of a request names, or that its file failed.
fn count(request: &Result<Request, RequestFault>) -> Result<Option<usize>, AllocError> {
    match request {
        Ok(request) => Ok(Some(request.query.names.len())),
        Err(RequestFault::Memory) => Err(AllocError),
        Err(RequestFault::Logs) => Ok(None),
        Err(_) => Ok(Some(0)),
    }
}

fn names_of(alloc: Global, logs: &mut MemoryLogs) -> Result<Option<usize>, AllocError> {
    let words = words_of(alloc, &["file:pieces"])?;
    count(&read_request(alloc, &words, logs))
}

fn check(rt: &impl Abort, alloc: Global, logs: &mut MemoryLogs, call: u64) -> Result<(), Fail> {
    put(logs, alloc)?;
    logs.fail(call)?;
    assert!(rt; names_of(alloc, logs)?.is_none(), "{call}");
    assert!(rt; names_of(alloc, logs)? == Some(1), "{call}");
    Ok(())
}

#[test]
fn a_file_that_fails_is_read_again(rt: HostRuntime) -> Result<(), Fail> {
    for call in 0..4 {
        check(&rt, rt.alloc(), &mut MemoryLogs::new(rt.alloc()), call)?;
    }
    Ok(())
}
