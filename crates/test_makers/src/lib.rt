//! What the tests of several crates are made of: plans that stand in more than one, lists of numbers,
//! and how a value is printed. No crate but those of tests stands on it.
#![tactic(auto)]

use std::alloc::Global;
use std::fmt::Display;
use sync_text::{NoMemory, Rows};

/// Three elements in a row, each of which takes its timing from the one before it. There is no source.
pub const CHAIN: &[u8] =
    b"[[element]]\nname = \"A\"\n[[element]]\nname = \"B\"\n[[element]]\nname = \"C\"\n\
[[link]]\nname = \"L1\"\na = \"A\"\nb = \"B\"\npriority_b = 1\n\
[[link]]\nname = \"L2\"\na = \"B\"\nb = \"C\"\npriority_b = 1\n";

/// The same with ten milliseconds on each line, and a source at the first element.
pub const SOURCED_CHAIN: &[u8] = b"element = [{ name = 'A' }, { name = 'B' }, { name = 'C' }]\n\
link = [{ name = 'L1', a = 'A', b = 'B', priority_b = 1, delay_a = 10, delay_b = 10 },\n\
 { name = 'L2', a = 'B', b = 'C', priority_b = 1, delay_a = 10, delay_b = 10 }]\n\
source = [{ name = 'S', at = 'A', level = 'QL-PRC' }]\n";

/// Two elements on one link, each of which may take its timing from the other, with ten milliseconds on
/// each line.
pub const PAIR: &[u8] = b"element = [{ name = 'A' }, { name = 'B' }]\n\
link = [{ name = 'L1', a = 'A', b = 'B', priority_a = 1, priority_b = 1, delay_a = 10, delay_b = 10 }]\n";

/// A list of these numbers.
pub fn numbers(alloc: Global, numbers: &[u32]) -> Result<Rows<u32>, NoMemory> {
    let mut rows = Rows::new(alloc);
    for number in numbers {
        rows.push(*number)?;
    }
    Ok(rows)
}

/// Whether a value is printed as this text.
pub fn is_printed_as<D: Display + Drop>(
    alloc: Global,
    value: D,
    text: &str,
) -> Result<bool, NoMemory> {
    let printed = format!(in alloc; "{value}")?;
    Ok(printed.as_str() == text)
}
