//! The whole program: reads the arguments and passes on the standard streams.
use crate::run::run_line;
use agv_app_line::{LineFault, line_of, words_of};
use agv_face::CountingIo;
use std::io;
use std::process::ExitCode;

/// Runs the program with its arguments, over the standard streams, and returns its exit code.
///
/// It is 0 on success; 1 after a line `fault: ..` on standard error; and 2 if the arguments are wrong, and for
/// `--help`, with the text on standard error.
pub fn run_program(rt: &HostRuntime) -> ExitCode {
    let status = match words_of(rt) {
        Ok(words) => run_words(rt, &words),
        Err(why) => {
            let _ = rt.eprint(&why);
            why.status()
        }
    };
    ExitCode::from(status)
}

/// Runs the program with these words, and returns the exit status.
fn run_words(rt: &HostRuntime, words: &[String]) -> u8 {
    match run_parsed(rt, words) {
        Ok(status) => status,
        Err(why) => {
            let _ = rt.eprint(&why);
            why.status()
        }
    }
}

/// Parses the words, carries out their line over the standard streams, and returns the exit status.
fn run_parsed(rt: &HostRuntime, words: &[String]) -> Result<u8, LineFault> {
    let texts = words
        .iter()
        .map(|word| word.as_str())
        .collect::<Vec<&str>>(rt.alloc())?;
    let line = line_of(rt.alloc(), &texts)?;
    let mut reader = CountingIo::new(rt.reader());
    let mut writer = CountingIo::new(io::writer(rt));
    let mut errors = CountingIo::new(rt.stderr());
    Ok(run_line(rt, rt.alloc(), &line, &mut reader, &mut writer, &mut errors))
}
