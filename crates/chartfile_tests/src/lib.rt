// Chart files, good and bad.
#![tactic(auto)]

use chart::Chart;
use chartfile::{Fault, load, write};
use measure::by_length::Length;
use std::alloc::{AllocError, Global};

#[cfg(test)]
mod tests;

// What loading a text onto a blank chart brings: the marks and legs, or the fault.
pub fn tried(heap: Global, text: &[u8]) -> Result<Result<(u16, usize), Fault>, AllocError> {
    let mut chart = Chart::begin(heap, Length)?;
    let loaded = load(&mut chart, text);
    Ok(loaded.map(|()| (chart.marks(), chart.legs().len())))
}

// Whether a text is loaded and written back the same, or is refused and leaves the chart blank.
pub fn is_sound(heap: Global, text: &[u8]) -> Result<bool, AllocError> {
    let mut chart = Chart::begin(heap, Length)?;
    if load(&mut chart, text).is_err() {
        return Ok(chart.marks() == 0);
    }
    let mut buffer = vec![in heap; 0u8; text.len()]?;
    let written = write(&chart, buffer.as_mut_slice());
    Ok(written == Ok(text.len()) && buffer.as_slice() == text)
}
