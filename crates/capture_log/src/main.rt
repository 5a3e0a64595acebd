// The log of a capture: reads standard input, and writes a line for each record to standard output. Its buffers are fixed, with what is held in them
// counted beside them: memory does not grow with the capture.
#![tactic(auto)]

use lines::Log;
use pipes::Failure;
use std::io::Print;

// The buffers' records, and room for them and for their lines.
const RECORDS: usize = 1024;

const INPUT_ROOM: usize = RECORDS * lines::RECORD_LENGTH;

const OUTPUT_ROOM: usize = RECORDS * text::LINE_ROOM;

// Writes bytes to standard output.
fn write(rt: &HostRuntime, bytes: &[u8]) -> Result<(), Failure> {
    rt.write_all(bytes).map_err(Failure::Write)
}

// Reads the records and writes their lines, then the end line, which counts what is left as a record cut short. A proved loop has to end, so its turns are
// counted, up to a number that no run uses up.
fn follow(
    rt: &HostRuntime,
    log: &mut Log,
    input: &mut [u8],
    output: &mut [u8],
) -> Result<(), Failure> {
    let mut held = 0;
    for _ in 0..u64::MAX {
        let came = pipes::read(rt, &mut input[held..])?;
        if came == 0 {
            break;
        }
        let taken = log.take_piece(held + came, input, output);
        write(rt, &output[..taken.filled])?;
        held = taken.held;
    }
    let mut last = [0; lines::ENDING_ROOM];
    let end = log.ending(&input[..held], &mut last);
    write(rt, &last[..end])
}

// The whole log.
fn run(rt: &HostRuntime) -> Result<(), Failure> {
    let mut head = [0; lines::SETTINGS_LENGTH];
    let n = pipes::read_full(rt, &mut head)?;
    let mut opening = [0; lines::OPENING_ROOM];
    let begun = lines::begin(&head[..n], &mut opening);
    write(rt, &opening[..begun.filled])?;
    if begun.started.reply.is_err() {
        return Ok(());
    }
    let mut log = Log {
        slave: begun.started.slave,
        number: 0,
    };
    follow(rt, &mut log, &mut [0; INPUT_ROOM], &mut [0; OUTPUT_ROOM])
}

// What failed and why is said on standard error.
fn main(rt: HostRuntime) {
    if let Err(failure) = run(&rt) {
        let _ = eprintln!(rt; "{failure}");
    }
}
