// Calls of the system that failed, told on standard error.
#![tactic(auto)]

use std::fmt::Display;
use std::io::Write;

// Writes a line: what failed, as the caller names it, a colon and why. Nothing is told where standard error takes nothing.
pub fn fail<D: Display + Drop>(rt: &HostRuntime, what: &[u8], why: D) {
    let mut errors = rt.stderr();
    let _named = errors.write_all(what).is_ok();
    let _told = eprintln!(rt; ": {why}").is_ok();
}
