// The words of a command: the mode of a schedule, and the words of the command line.
use adp_main::words_behind_name;
use std::io;

// The words of the command. It is an error where one of them is no text.
pub(crate) fn words(rt: &HostRuntime) -> io::Result<Vec<String>> {
    let mut words = words_behind_name(rt)?;
    words.insert(0, String::from_str(rt.alloc(), "replay")?)?;
    Ok(words)
}
