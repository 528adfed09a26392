// The functions of crate tapes_host as C calls them: a static library over it, since a crate is built as one or the other. Each says what its function says.
#![tactic(auto)]

ghost use Rattle.std.specs.Prelude.{◌≡◌};
ghost use Rattle.tapes_host.specs.Host.{written, write_tape, read_out_of, read_tape};
ghost use Rattle.tapes_host.specs.Recorder.{recorded, begin_tape, append_tape, end_tape};

use tapes_host::Reply;

// A schedule as a tape at the buffer's start, and how many bytes. 13: no variant has this name; then 11, 17, 16.
#[unsafe(no_mangle)]
pub extern "C" fn fern_tape_write(
    variant: u64,
    capacity: u64,
    workers: u64,
    schedule: &[u64],
    tape: &mut [u8],
) -> Reply
    ensures { written result tape.new ≡ write_tape variant capacity workers schedule.now tape.old }
{
    tapes_host::fern_tape_write(variant, capacity, workers, schedule, tape)
}

// A tape's schedule at the buffer's start, and how many words; what the tape is about. 6: there are not three words for that; then the first fault, 12 to 15, and 16.
#[unsafe(no_mangle)]
pub extern "C" fn fern_tape_read(tape: &[u8], about: &mut [u64], schedule: &mut [u64]) -> Reply
    ensures { read_out_of result about.new schedule.new ≡ read_tape tape.now about.old schedule.old }
{
    tapes_host::fern_tape_read(tape, about, schedule)
}

// A recorder over this buffer, with no entry yet: its words, and the tape of no entries. 6: there are not three words; then as `fern_tape_write`.
#[unsafe(no_mangle)]
pub extern "C" fn fern_recorder_begin(
    recorder: &mut [u64],
    variant: u64,
    capacity: u64,
    workers: u64,
    tape: &mut [u8],
) -> Reply
    ensures { recorded result recorder.new tape.new ≡ begin_tape variant capacity workers recorder.old tape.old }
{
    tapes_host::fern_recorder_begin(recorder, variant, capacity, workers, tape)
}

// One entry more, and how many bytes the tape then has. 6: the words are no recorder's of this buffer; then 17 and 16, as `fern_tape_write` of all entries so far and this one.
#[unsafe(no_mangle)]
pub extern "C" fn fern_recorder_append(
    recorder: &mut [u64],
    first: u64,
    second: u64,
    tape: &mut [u8],
) -> Reply
    ensures { recorded result recorder.new tape.new ≡ append_tape recorder.old first second tape.old }
{
    tapes_host::fern_recorder_append(recorder, first, second, tape)
}

// The last field, and how many bytes the tape has: what `fern_tape_write` makes of all entries so far. 6: the words are no recorder's of this buffer.
#[unsafe(no_mangle)]
pub extern "C" fn fern_recorder_end(recorder: &[u64], tape: &mut [u8]) -> Reply
    ensures { written result tape.new ≡ end_tape recorder.now tape.old }
{
    tapes_host::fern_recorder_end(recorder, tape)
}
