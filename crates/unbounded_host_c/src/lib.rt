// The functions of crate unbounded_host as C calls them: a static library over it, since a crate is built as one or the other. Each says what its function says.
#![tactic(auto)]

ghost use Rattle.std.specs.Prelude.{◌≡◌};
ghost use Rattle.unbounded_rows.specs.Rows.{words};
ghost use Rattle.unbounded_host.specs.Host.{broken_refusal, after, make_words, step_words_of, ended, run_words, listed, contents_words};

use unbounded_host::Reply;

// A fresh machine of so many workers, all idle; refusal 2, or 6 for slices of other lengths.
#[unsafe(no_mangle)]
pub extern "C" fn fern_unbounded_make(
    head: &mut [u64],
    pool: &mut [u64],
    records: &mut [u64],
    workers: u64,
) -> u64
    ensures { after result (words head.new pool.new records.new) ≡ make_words (words head.old pool.old records.old) workers }
{
    unbounded_host::fern_unbounded_make(head, pool, records, workers)
}

// The entry of two words: the number of its refusal, 0 where it was not refused.
#[unsafe(no_mangle)]
pub extern "C" fn fern_unbounded_step(
    head: &mut [u64],
    pool: &mut [u64],
    records: &mut [u64],
    first: u64,
    second: u64,
) -> u64
    ensures { after result (words head.new pool.new records.new) ≡ step_words_of (words head.old pool.old records.old) first second }
{
    unbounded_host::fern_unbounded_step(head, pool, records, first, second)
}

// A schedule, entry by entry, to its end or to the first refusal.
#[unsafe(no_mangle)]
pub extern "C" fn fern_unbounded_run(
    head: &mut [u64],
    pool: &mut [u64],
    records: &mut [u64],
    schedule: &[u64],
) -> Reply
    ensures { ended result (words head.new pool.new records.new) ≡ run_words (words head.old pool.old records.old) schedule.now }
{
    unbounded_host::fern_unbounded_run(head, pool, records, schedule)
}

// 6 where every call would be refused for what is lent, else 0.
#[unsafe(no_mangle)]
pub extern "C" fn fern_unbounded_broken(head: &[u64], pool: &[u64], records: &[u64]) -> u64
    ensures { result ≡ broken_refusal (words head.now pool.now records.now) }
{
    unbounded_host::fern_unbounded_broken(head, pool, records)
}

// The items as `Drop` would meet them, written at the buffer's start; how many. Nothing is removed.
#[unsafe(no_mangle)]
pub extern "C" fn fern_unbounded_contents(
    head: &[u64],
    pool: &[u64],
    records: &[u64],
    buffer: &mut [u64],
) -> Reply
    ensures { listed result buffer.new ≡ contents_words (words head.now pool.now records.now) buffer.old }
{
    unbounded_host::fern_unbounded_contents(head, pool, records, buffer)
}
