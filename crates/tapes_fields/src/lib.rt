// The fields of a tape: what stands at the start of some bytes, and a field written at the start of a buffer.
#![tactic(auto)]

ghost use Rattle.std.specs.Prelude.{◌≡◌, [], ◌∷◌, ◌++◌, ◌≤◌, ◌<◌, ◌+◌, length};
ghost use Rattle.tapes_fields.specs.Fields.{opening_of, head_of, swapped, tag_for, item_long, size_of, entry_field_of, end_of, over};
ghost use Rattle.tapes_fields.specs.Judged.{opens, allowed, head_by, head_in, entry_by, field_in, carried};

use queue_entries::Entry;
use tapes_numbers::Variant;

// The first field of a tape: a refusal, or variant, capacity and workers. An enum of its own, since `head_in` of specs/Judged.antt answers it.
#[derive(Clone, Copy)]
pub enum Head {
    Fault(u64),
    Makes(Variant, u64, u64),
}

// A later field: a refusal, the end, or an entry's two words. `field_in` of specs/Judged.antt answers it.
#[derive(Clone, Copy)]
pub enum Field {
    Fault(u64),
    End,
    Entry(u64, u64),
}

fn opens(bytes: &[u8], v: Variant, tag: u8, long: u64) -> bool
    requires { (tag < 128) × (3 ≤ length bytes.now) }
    ensures { result ≡ opens v tag long bytes.now }
{
    bytes[0] == tapes_numbers::tag(v, tag) && tapes_numbers::number(&bytes[1..3], v) == long
}

fn head_by(bytes: &[u8], v: Variant) -> Head
    ensures { result ≡ head_by v bytes.now }
{
    if bytes.len() < 7 {
        return Head::Fault(12);
    }
    let capacity = tapes_numbers::number(&bytes[3..5], v);
    let workers = tapes_numbers::number(&bytes[5..7], v);
    Head::Makes(v, capacity, workers)
}

pub fn head_in(tape: &[u8]) -> Head
    ensures { result ≡ head_in tape.now }
{
    if tape.len() < 3 {
        return Head::Fault(12);
    }
    if opens(tape, Variant::BigEndian, 1, 4) {
        return head_by(tape, Variant::BigEndian);
    }
    if opens(tape, Variant::LittleEndian, 1, 4) {
        return head_by(tape, Variant::LittleEndian);
    }
    Head::Fault(13)
}

fn swapped(b: u64) -> u64
    ensures { result ≡ swapped b }
{
    16 * (b % 16) + b / 16
}

fn tag_for(code: u64) -> u8
    ensures { (result ≡ tag_for code) × (result < 128) }
{
    if code < 2 { 2 } else { 3 }
}

fn allowed(tag: u8, code: u64) -> bool
    ensures { result ≡ allowed tag code }
{
    code < 10 && tag == tag_for(code)
}

fn entry_by(bytes: &[u8], v: Variant, tag: u8, long: usize) -> Field
    requires { (0 < long) × (long ≤ 9) }
    ensures { result ≡ entry_by v tag long bytes.now }
{
    let end = 3 + long;
    if bytes.len() < end {
        return Field::Fault(12);
    }
    let b = u64::from(bytes[3]);
    if allowed(tag, b / 16) {
        Field::Entry(swapped(b), tapes_numbers::number(&bytes[4..end], v))
    } else {
        Field::Fault(14)
    }
}

#[tactic(auto, using(queue_entries::proofs::Pick::picks), unfolding(crate::specs::Judged::field_in))]
pub fn field_in(bytes: &[u8], v: Variant) -> Field
    ensures { result ≡ field_in v bytes.now }
{
    if bytes.len() < 3 {
        return Field::Fault(12);
    }
    if opens(bytes, v, 2, 9) {
        return entry_by(bytes, v, 2, 9);
    }
    if opens(bytes, v, 3, 1) {
        return entry_by(bytes, v, 3, 1);
    }
    if opens(bytes, v, 4, 0) {
        return Field::End;
    }
    Field::Fault(13)
}

pub fn carried(first: u64, item: u64) -> bool
    ensures { result ≡ carried first item }
{
    let Entry::Asks(worker, _) = queue_entries::entry_of(first, item) else {
        return false;
    };
    worker < 16
}

fn item_long(code: u64) -> usize
    ensures { (result ≡ item_long code) × (result ≤ 8) }
{
    if code < 2 { 8 } else { 0 }
}

// The length of an entry's field.
pub fn size(first: u64) -> usize
    ensures { (result ≡ size_of first) × (result ≤ 12) }
{
    4 + item_long(first % 16)
}

fn put_opening(buffer: &mut [u8], v: Variant, tag: u8, long: u64)
    requires { (tag < 128) × (3 ≤ length buffer.old) }
    ensures { buffer.new ≡ over (opening_of v tag long) buffer.old }
{
    buffer[0] = tapes_numbers::tag(v, tag);
    tapes_numbers::put_number(&mut buffer[1..3], long, v);
}

pub fn put_head(buffer: &mut [u8], v: Variant, capacity: u64, workers: u64)
    requires { 7 ≤ length buffer.old }
    ensures { buffer.new ≡ over (head_of v capacity workers) buffer.old }
{
    put_opening(buffer, v, 1, 4);
    tapes_numbers::put_number(&mut buffer[3..5], capacity, v);
    tapes_numbers::put_number(&mut buffer[5..7], workers, v);
}

pub fn put_entry(buffer: &mut [u8], v: Variant, first: u64, item: u64)
    requires { (first < 256) × (size_of first ≤ length buffer.old) }
    ensures { buffer.new ≡ over (entry_field_of v first item) buffer.old }
{
    let code = first % 16;
    let n = item_long(code);
    let end = 4 + n;
    put_opening(buffer, v, tag_for(code), (1 + n) as u64);
    buffer[3] = swapped(first) as u8;
    tapes_numbers::put_number(&mut buffer[4..end], item, v);
}

pub fn put_end(buffer: &mut [u8], v: Variant)
    requires { 3 ≤ length buffer.old }
    ensures { buffer.new ≡ over (end_of v) buffer.old }
{
    put_opening(buffer, v, 4, 0);
}
