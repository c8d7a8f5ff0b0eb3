//! The arguments of the program.
ghost use Rattle.std.specs.Prelude.{◌≡◌, drop};

use crate::WordsFault;
use std::alloc::Global;
use std::env::{self, Env};
use std::io::ErrorKind;

/// Returns the arguments of the program, without its name.
///
/// # Errors
/// `NotText` if one is not UTF-8, `Memory` when out of memory.
pub fn words_of(rt: &(impl Env + Alloc<A = Global>)) -> Result<Vec<String>, WordsFault> {
    let all = match env::args(rt) {
        Ok(all) => all,
        Err(error) if error.kind() == ErrorKind::InvalidData => return Err(WordsFault::NotText),
        Err(_) => return Err(WordsFault::Memory),
    };
    let mut words = all.collect::<Vec<String>>(rt.alloc())?;
    drop_first(&mut words);
    Ok(words)
}

/// Drops the first argument, which is the program's name.
fn drop_first(words: &mut Vec<String>)
    ensures { words.new.items ≡ drop 1 words.old.items }
{
    if !words.is_empty() {
        words.remove(0);
    }
}
