// The face of the one-slot queue that a host in C or Rust links (hosts/): the machine is words in its memory, lent for each call as two slices. `specs/Host.antt` says what each function
// answers; a refused call changes no word.
#![tactic(auto)]

ghost use Rattle.std.specs.Prelude.{◌≡◌};
ghost use Rattle.single_rows.specs.Rows.{words};
ghost use Rattle.single_host.specs.Host.{reply_of, broken_refusal, after, make_words, step_words_of, ended, run_words, listed, contents_words};

// The number of a refusal, 0 where there is none; and what the call is asked for: an entry's place or a count.
#[repr(C)]
#[derive(Clone, Copy)]
pub struct Reply {
    pub refusal: u64,
    pub number: u64,
}

// A fresh machine of so many workers, all idle; refusal 2, or 6 for slices of other lengths.
#[unsafe(no_mangle)]
pub extern "C" fn fern_slot_make(head: &mut [u64], records: &mut [u64], workers: u64) -> u64
    ensures { after result (words head.new records.new) ≡ make_words (words head.old records.old) workers }
{
    if !single_rows::shaped(head, records) {
        return 6;
    }
    let made = single::make(workers);
    if made.refusal != 0 {
        return made.refusal;
    }
    single_rows::put_machine(head, records, made.machine);
    0
}

// ---- entries

// The entry of two words: the number of its refusal, 0 where it was not refused.
#[unsafe(no_mangle)]
pub extern "C" fn fern_slot_step(
    head: &mut [u64],
    records: &mut [u64],
    first: u64,
    second: u64,
) -> u64
    ensures { after result (words head.new records.new) ≡ step_words_of (words head.old records.old) first second }
{
    if !single_rows::stands(head, records) {
        return 6;
    }
    let did = single::step(single_rows::machine_in(head, records), first, second);
    single_rows::put_machine(head, records, did.machine);
    did.refusal
}

// A schedule, entry by entry, to its end or to the first refusal.
#[unsafe(no_mangle)]
pub extern "C" fn fern_slot_run(head: &mut [u64], records: &mut [u64], schedule: &[u64]) -> Reply
    ensures { ended result (words head.new records.new) ≡ run_words (words head.old records.old) schedule.now }
{
    if !single_rows::stands(head, records) {
        return Reply {
            refusal: 6,
            number: 0,
        };
    }
    let ran = single::run(single_rows::machine_in(head, records), schedule);
    single_rows::put_machine(head, records, ran.machine);
    Reply {
        refusal: ran.refusal,
        number: ran.place,
    }
}

// ---- looking

// 6 where every call would be refused for what is lent, else 0.
#[unsafe(no_mangle)]
pub extern "C" fn fern_slot_broken(head: &[u64], records: &[u64]) -> u64
    ensures { result ≡ broken_refusal (words head.now records.now) }
{
    if !single_rows::stands(head, records) {
        return 6;
    }
    if single::broken(single_rows::machine_in(head, records)) {
        6
    } else {
        0
    }
}

fn reply_of(t: Result<u64, u64>) -> Reply
    ensures { result ≡ reply_of t }
{
    match t {
        Ok(n) => Reply {
            refusal: 0,
            number: n,
        },
        Err(k) => Reply {
            refusal: k,
            number: 0,
        },
    }
}

// The item as `Drop` would meet it, if there is one, written at the buffer's start; how many. Nothing is removed.
#[unsafe(no_mangle)]
pub extern "C" fn fern_slot_contents(head: &[u64], records: &[u64], buffer: &mut [u64]) -> Reply
    ensures { listed result buffer.new ≡ contents_words (words head.now records.now) buffer.old }
{
    if !single_rows::stands(head, records) {
        return Reply {
            refusal: 6,
            number: 0,
        };
    }
    reply_of(single::contents(single_rows::machine_in(head, records), buffer))
}
