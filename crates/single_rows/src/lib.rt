// The machine as words in the host's memory: five words, and three for each of its sixteen records (specs/Rows.antt has the layout).
#![tactic(auto)]

ghost use Rattle.std.specs.Prelude.{◌≡◌, ◌+◌, ◌*◌, ◌<◌, length};
ghost use Rattle.single_rows.specs.Rows.{words, head_of, records_of, records_in, machine_in, shaped, placed, stand, record_at, placed_at, with_record};

use single_machine::Machine;
use single_places::{Answer, Place, Single, Worker};
use single_words::State;

// How many words there are but for the records, for a record and for all of them.
pub const HEAD: usize = 5;

pub const RECORD: usize = 3;

pub const RECORDS: usize = 48;

// The number of this layout, in the last word of the head; the ring's is 1.
pub const LAYOUT: u64 = 2;

pub fn shaped(head: &[u64], records: &[u64]) -> bool
    ensures { result ≡ shaped (words head.now records.now) }
{
    head.len() == HEAD && records.len() == RECORDS
}

fn record_at(records: &[u64], i: usize) -> Worker
    requires { i * 3 + 2 < length records.now }
    ensures { result ≡ record_at records.now i }
{
    let at = i * RECORD;
    Worker {
        place: single_codes::place_in(records[at], records[at + 1], records[at + 2]),
    }
}

fn placed_at(records: &[u64], i: usize) -> bool
    requires { i * 3 + 2 < length records.now }
    ensures { result ≡ placed_at records.now i }
{
    let at = i * RECORD;
    single_codes::stands(records[at], records[at + 1], records[at + 2])
}

fn put_record(records: &mut [u64], i: usize, r: Worker)
    requires { i * 3 + 2 < length records.old }
    ensures { records.new ≡ with_record records.old i r }
{
    let c = single_codes::code_of(r.place);
    let at = i * RECORD;
    records[at] = c.code;
    records[at + 1] = c.first;
    records[at + 2] = c.second;
}

fn all_placed(records: &[u64]) -> bool
    requires { length records.now ≡ 48 }
    ensures { result ≡ placed records.now }
{
    for i in 0..queue_entries::WORKERS {
        if !placed_at(records, i) {
            return false;
        }
    }
    true
}

// Whether the words stand for a machine.
pub fn stands(head: &[u64], records: &[u64]) -> bool
    ensures { result ≡ stand (words head.now records.now) }
{
    if !shaped(head, records) {
        return false;
    }
    head[4] == LAYOUT && all_placed(records)
}

fn records_in(records: &[u64]) -> [Worker; queue_entries::WORKERS]
    requires { length records.now ≡ 48 }
    ensures { result ≡ records_in records.now }
{
    let mut all = [Worker {
        place: Place::Idle(Answer::Nothing),
    }; queue_entries::WORKERS];
    for i in 0..queue_entries::WORKERS {
        all[i] = record_at(records, i);
    }
    all
}

pub fn machine_in(head: &[u64], records: &[u64]) -> Machine
    requires head_len { length head.now ≡ 5 }
    requires records_len { length records.now ≡ 48 }
    ensures { result ≡ machine_in (words head.now records.now) }
{
    Machine {
        single: Single {
            state: State(head[0]),
            value: head[1],
        },
        workers: records_in(records),
        count: head[2],
        meter: head[3],
    }
}

fn put_records(records: &mut [u64], all: [Worker; queue_entries::WORKERS])
    requires { length records.old ≡ 48 }
    ensures { records.new ≡ records_of all }
{
    for (i, worker) in all.iter().enumerate() {
        put_record(records, i, *worker);
    }
}

fn put_head(head: &mut [u64], m: Machine)
    requires { length head.old ≡ 5 }
    ensures { head.new ≡ head_of m }
{
    head[0] = m.single.state.0;
    head[1] = m.single.value;
    head[2] = m.count;
    head[3] = m.meter;
    head[4] = LAYOUT;
}

pub fn put_machine(head: &mut [u64], records: &mut [u64], m: Machine)
    requires head_len { length head.old ≡ 5 }
    requires records_len { length records.old ≡ 48 }
    ensures head_after { head.new ≡ head_of m }
    ensures records_after { records.new ≡ records_of m.workers }
{
    put_head(head, m);
    put_records(records, m.workers);
}
