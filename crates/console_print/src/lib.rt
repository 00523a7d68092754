// Bytes as the programs print them, on standard output and standard error. Each function tells how many it handed over.
#![tactic(auto)]

ghost use Rattle.std.specs.Prelude.{◌≡◌, take, length as count};
ghost use Rattle.console_print.specs.Handed.{handed, Hands, usage_line};

use console_failures::fail;
use console_places::part::first;
use std::io::{Print, Write};

// Prints the first bytes of a buffer. The error, too, is how many bytes were handed over: the output did not take them, and standard error has the reason.
pub fn print(rt: &HostRuntime, text: &[u8], length: usize) -> Result<usize, usize>
    ensures { Hands (take length text.now) result }
{
    hand_over(rt, first(text, length))
}

// How many bytes were handed over, whether the output took them or not.
pub fn handed(printed: Result<usize, usize>) -> usize
    ensures { result ≡ handed printed }
{
    match printed {
        Ok(length) => length,
        Err(length) => length,
    }
}

// Prints the first bytes of a buffer on standard error.
pub fn say(rt: &HostRuntime, text: &[u8], length: usize) -> usize
    ensures { result ≡ count (take length text.now) }
{
    mention(rt, first(text, length))
}

// How a program is called, on standard error.
pub fn usage(rt: &HostRuntime, call: &[u8]) -> usize
    ensures { result ≡ count (usage_line call.now) }
{
    let front = mention(rt, b"usage: ");
    let middle = mention(rt, call);
    let back = mention(rt, b"\n");
    front + middle + back
}

fn hand_over(rt: &HostRuntime, text: &[u8]) -> Result<usize, usize>
    ensures { Hands text.now result }
{
    match rt.stdout().write_all(text) {
        Ok(()) => Ok(text.len()),
        Err(why) => {
            fail(rt, b"standard output", why);
            Err(text.len())
        }
    }
}

fn mention(rt: &HostRuntime, text: &[u8]) -> usize
    ensures { result ≡ count text.now }
{
    let _taken = rt.stderr().write_all(text).is_ok();
    text.len()
}
