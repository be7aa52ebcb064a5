//! Scripts that are too large for a file: of each line is told how often it stands.

use std::alloc::{AllocError, Global};

// Adds a line to a script so many times.
fn add_times(script: &mut Vec<u8>, times: usize, line: &str) -> Result<(), AllocError> {
    for _ in 0..times {
        script.extend_from_slice(line.as_bytes())?;
        script.push(b'\n')?;
    }
    Ok(())
}

/// The script that lines `TIMES LINE` tell: each LINE so many times. A line without a number is left out.
pub fn grown(alloc: Global, file: &[u8]) -> Result<Vec<u8>, AllocError> {
    let mut script = Vec::new(alloc);
    for told in str::from_utf8(file).unwrap_or("").lines() {
        if let Some((times, line)) = told.split_once(' ') {
            add_times(&mut script, times.parse().unwrap_or(0), line)?;
        }
    }
    Ok(script)
}
