// The face of the unbounded queue that a host in C or Rust links (hosts/): the machine is words in its memory, lent for each call as three slices. `specs/Host.antt` says what each function
// answers; a refused call changes no word.
#![tactic(auto)]

ghost use Rattle.std.specs.Prelude.{true, ◌≡◌, length};
ghost use Rattle.unbounded_words.specs.Words.{sizes};
ghost use Rattle.unbounded_machine.specs.Run.{run_of};
ghost use Rattle.unbounded.specs.Unbounded.{step_of};
ghost use Rattle.unbounded_rows.specs.Rows.{words, machine_in, shaped};
ghost use Rattle.unbounded_host.specs.Host.{reply_of, broken_refusal, after, after_of, make_words, step_words_of, ended, ended_of, run_words, listed, contents_words};

// The number of a refusal, 0 where there is none; and what the call is asked for: an entry's place or a count.
#[repr(C)]
#[derive(Clone, Copy)]
pub struct Reply {
    pub refusal: u64,
    pub number: u64,
}

// A fresh machine of so many workers, all idle; refusal 2, or 6 for slices of other lengths.
#[unsafe(no_mangle)]
pub extern "C" fn fern_unbounded_make(
    head: &mut [u64],
    pool: &mut [u64],
    records: &mut [u64],
    workers: u64,
) -> u64
    ensures { after result (words head.new pool.new records.new) ≡ make_words (words head.old pool.old records.old) workers }
{
    if !unbounded_rows::shaped(head, pool, records) {
        return 6;
    }
    let made = unbounded::make(workers);
    if made.refusal != 0 {
        return made.refusal;
    }
    unbounded_rows::put_machine(head, pool, records, made.machine);
    0
}

// ---- entries

// Of words that stand for a machine: the machine, stepped, and what that leaves as words.
fn step_on(head: &mut [u64], pool: &mut [u64], records: &mut [u64], first: u64, second: u64) -> u64
    requires head_len { length head.old ≡ 8 }
    requires pool_len { length pool.old ≡ 4096 }
    requires records_len { length records.old ≡ 80 }
    ensures { after result (words head.new pool.new records.new) ≡ after_of (step_of sizes (machine_in (words head.old pool.old records.old)) first second) }
{
    let did = unbounded::step(
        unbounded_rows::machine_in(head, pool, records),
        first,
        second,
    );
    unbounded_rows::put_machine(head, pool, records, did.machine);
    did.refusal
}

fn run_on(head: &mut [u64], pool: &mut [u64], records: &mut [u64], schedule: &[u64]) -> Reply
    requires { shaped (words head.old pool.old records.old) ≡ true }
    ensures { ended result (words head.new pool.new records.new) ≡ ended_of (run_of sizes (machine_in (words head.old pool.old records.old)) schedule.now) }
{
    let ran = unbounded::run(unbounded_rows::machine_in(head, pool, records), schedule);
    unbounded_rows::put_machine(head, pool, records, ran.machine);
    Reply {
        refusal: ran.refusal,
        number: ran.place,
    }
}

// The entry of two words: the number of its refusal, 0 where it was not refused.
#[unsafe(no_mangle)]
pub extern "C" fn fern_unbounded_step(
    head: &mut [u64],
    pool: &mut [u64],
    records: &mut [u64],
    first: u64,
    second: u64,
) -> u64
    ensures { after result (words head.new pool.new records.new) ≡ step_words_of (words head.old pool.old records.old) first second }
{
    if !unbounded_rows::stands(head, pool, records) {
        return 6;
    }
    step_on(head, pool, records, first, second)
}

// A schedule, entry by entry, to its end or to the first refusal.
#[unsafe(no_mangle)]
pub extern "C" fn fern_unbounded_run(
    head: &mut [u64],
    pool: &mut [u64],
    records: &mut [u64],
    schedule: &[u64],
) -> Reply
    ensures { ended result (words head.new pool.new records.new) ≡ run_words (words head.old pool.old records.old) schedule.now }
{
    if !unbounded_rows::stands(head, pool, records) {
        return Reply {
            refusal: 6,
            number: 0,
        };
    }
    run_on(head, pool, records, schedule)
}

// ---- looking

// 6 where every call would be refused for what is lent, else 0.
#[unsafe(no_mangle)]
pub extern "C" fn fern_unbounded_broken(head: &[u64], pool: &[u64], records: &[u64]) -> u64
    ensures { result ≡ broken_refusal (words head.now pool.now records.now) }
{
    if !unbounded_rows::stands(head, pool, records) {
        return 6;
    }
    // the slots are not asked for, and are most of the words
    let ends = unbounded_rows::ends_in(head);
    let blocks = unbounded_rows::blocks_in(pool);
    let workers = unbounded_rows::records_in(records);
    if unbounded_machine::broken_in(ends, blocks, workers, head[4]) {
        6
    } else {
        0
    }
}

fn reply_of(t: Result<u64, u64>) -> Reply
    ensures { result ≡ reply_of t }
{
    match t {
        Ok(n) => Reply {
            refusal: 0,
            number: n,
        },
        Err(k) => Reply {
            refusal: k,
            number: 0,
        },
    }
}

// The items as `Drop` would meet them, written at the buffer's start; how many. Nothing is removed.
#[unsafe(no_mangle)]
pub extern "C" fn fern_unbounded_contents(
    head: &[u64],
    pool: &[u64],
    records: &[u64],
    buffer: &mut [u64],
) -> Reply
    ensures { listed result buffer.new ≡ contents_words (words head.now pool.now records.now) buffer.old }
{
    if !unbounded_rows::stands(head, pool, records) {
        return Reply {
            refusal: 6,
            number: 0,
        };
    }
    reply_of(unbounded::contents(unbounded_rows::machine_in(head, pool, records), buffer))
}
