// Prints a log from standard input in words: its settings, a line for each frame, and the end, or why the log is refused and at which byte.
#![tactic(auto)]

use console::arguments::Program;
use console::standard_input::NotRead;
use console::{arguments, standard_input};
use console_text::{STDERR_FILENO, STDOUT_FILENO};
use log_lines::printing;

// The bytes of the longest log: there is no heap, and the stack has 8 MiB.
const LONGEST: usize = 1048576;

const SHOW_LOG: Program = Program {
    name: b"show_log",
    purpose: b"Prints the settings of a log, a line for each frame (time, channel, class, length, bytes), and the end, or why it is refused and at which byte.\n  LOG  as `receive` writes it with the argument `log`, at most 1,048,576 bytes\n",
};

// What follows the program's name in a call.
const ARGUMENTS: &[u8] = b" < LOG";

fn zeros() -> [u8; LONGEST] {
    [0; LONGEST]
}

fn show(rt: &impl Input) {
    let mut area = zeros();
    let mut input = rt.reader();
    match standard_input::read_all(&mut input, &mut area) {
        Ok(log) => {
            if printing::print_log(log).is_err() {
                SHOW_LOG.say_not_written();
            }
        }
        Err(NotRead::TooLong) => SHOW_LOG.say(format_args!(
            "the log has more than {LONGEST} bytes"
        )),
        Err(NotRead::Failed(why)) => SHOW_LOG.say_failed(why),
    }
}

fn main(rt: HostRuntime) {
    if arguments::is_word(&rt, 1, b"--help") {
        SHOW_LOG.print_call(STDOUT_FILENO, ARGUMENTS);
        return;
    }
    if arguments::is_there(&rt, 1) {
        SHOW_LOG.say("it takes no arguments");
        SHOW_LOG.print_call(STDERR_FILENO, ARGUMENTS);
        return;
    }
    show(&rt);
}
