// The first bad line of a script, and what is said of it.
use hd_faults::{find_fault, push_fault};
use hd_model::Memory;
use hd_model::limits::MOST_BYTES;
use std::alloc::Global;

// What is said of the first fault of a script, or nothing.
fn said_of(alloc: Global, script: &[u8]) -> Result<Vec<u8>, Memory> {
    let mut text = Vec::new(alloc);
    if script.len() <= MOST_BYTES as usize {
        if let Some((number, fault)) = find_fault(script) {
            push_fault(alloc, &mut text, number, &fault)?;
        }
    }
    Ok(text)
}

#[test]
fn the_first_bad_line_is_found(rt: HostRuntime) -> Result<(), Memory> {
    let text = said_of(rt.alloc(), b"# comment\n\nnew r0 1\r\nreed r0\nread\n")?;
    let want = "line 4, column 1: no command \"reed\"; did you mean read?\n";
    assert!(rt; text.as_slice() == want.as_bytes());
    Ok(())
}
