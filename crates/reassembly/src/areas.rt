// The two lent areas of a partial: storing and comparing. Marks are asked for by runs of offsets, so that a run of which none or all are
// marked, or whose bytes are the same, is passed over, copied or compared whole; the others go offset by offset.
ghost use Rattle.std.specs.Prelude.{◌≡◌, ◌+◌, ◌-◌, ◌≤◌, ◌<◌, ◌^◌, length, get_or, eqb};
ghost use Rattle.reassembly.specs.Views.{data_view, overlaid, differs, only_if, clash, between, bytes_view};
ghost use Rattle.marks.specs.Offsets.{all_below, any_from};
ghost use Rattle.marks.specs.Marks.{in_use, marks_for};
ghost use Rattle.reassembly.specs.Areas.{marked_view};

use marks::{any_marked, choose, count_between, is_marked};
use wire_writer::store::put_run;

// The two areas of a partial that is only looked at.
#[derive(Clone, Copy)]
pub(crate) struct Areas<'a> {
    pub payload: &'a [u8],
    pub marks: &'a [u8],
}

// How many offsets a run has: 32 bytes of marks.
const RUN: usize = 256;

// Where the run from an offset on ends: so many offsets on, or at the end. Without a remainder the loops over a run are a thousand bytes of
// code less.
// The loops over runs are `while`s, since each goes on where its run ended.
fn run_end(i: usize, end: usize) -> usize
    requires { i < end }
    ensures { (i < result) × (result ≤ end) }
{
    if end - i <= RUN {
        return end;
    }
    i + RUN
}

// Stores a chunk's bytes at their offset.
pub(crate) fn store_data(payload: &mut [u8], offset: usize, bytes: &[u8])
    requires { offset + length bytes.now ≤ length payload.old }
    ensures { payload.new ≡ overlaid (data_view offset bytes.now) payload.old }
{
    put_run(payload, offset, bytes);
}

// Stores the bytes of another area from start up to end.
fn store_all(payload: &mut [u8], start: usize, end: usize, from: &[u8])
    requires { (start ≤ end) × (end ≤ length payload.old) × (end ≤ length «from».now) }
    ensures { payload.new ≡ overlaid (between start end (bytes_view «from».now)) payload.old }
{
    payload[start..end].copy_from_slice(&from[start..end]);
}

// Stores each covered byte of another partial from start up to end, offset by offset.
fn store_each(payload: &mut [u8], start: usize, end: usize, source: Areas)
    requires { (start ≤ end) × (end ≤ length payload.old) × (end ≤ length source.payload.now) }
    ensures { let view = marked_view in_use end source.entry.payload.now source.entry.marks.now in
        payload.new ≡ overlaid (between start end view) payload.old }
{
    for i in start..end {
        payload[i] = choose(is_marked(source.marks, i), source.payload[i], payload[i]);
    }
}

// The same, by how many of them are covered: none, all, or some.
#[tactic(auto, using(crate::proofs::Runs::run_bare))]
fn store_run(payload: &mut [u8], start: usize, end: usize, source: Areas)
    requires { (start ≤ end) × (end ≤ length payload.old) × (end ≤ length source.payload.now) }
    ensures { let view = marked_view in_use end source.entry.payload.now source.entry.marks.now in
        payload.new ≡ overlaid (between start end view) payload.old }
{
    let covered = count_between(source.marks, start, end);
    if covered == 0 {
        return;
    }
    if covered == end - start {
        store_all(payload, start, end, source.payload);
        return;
    }
    store_each(payload, start, end, source);
}

// Stores each covered byte of another partial.
pub(crate) fn store_covered(payload: &mut [u8], total: usize, source: Areas)
    requires { (total ≤ length payload.old) × (total ≤ length source.payload.now) × (marks_for in_use total ≤ length source.marks.now) }
    ensures { let view = marked_view in_use total source.entry.payload.now source.entry.marks.now in
        payload.new ≡ overlaid view payload.old }
{
    let mut i = 0;
    while i < total {
        let next = run_end(i, total);
        store_run(payload, i, next, source);
        i = next;
    }
}

// Whether so many bytes of two areas are the same.
fn same_bytes(a: &[u8], at: usize, b: &[u8], from: usize, count: usize) -> bool
    requires { (at + count ≤ length a.now) × («from» + count ≤ length b.now) }
    ensures { result ≡ all_below count (λ j. eqb (get_or a.now (at + j) 0) (get_or b.now («from» + j) 0)) }
{
    let mut other = 0u8;
    for j in 0..count {
        other |= a[at + j] ^ b[from + j];
    }
    other == 0
}

// Whether two places are both covered, and their bytes differ.
fn differ(mark: bool, held: u8, other_mark: bool, byte: u8) -> bool
    ensures { result ≡ differs (only_if mark held) (only_if other_mark byte) }
{
    mark & other_mark & (held != byte)
}

// Whether a covered byte from start up to end differs from a chunk's byte there, offset by offset.
fn clash_each(held: Areas, offset: usize, bytes: &[u8], start: usize, end: usize) -> bool
    requires { (offset ≤ start) × (start ≤ end) × (end ≤ offset + length bytes.now) × (end ≤ length held.payload.now) }
    ensures { let view = marked_view in_use end held.entry.payload.now held.entry.marks.now in
        result ≡ any_from start end (λ k. differs (view k) (data_view offset bytes.now k)) }
{
    let mut found = false;
    for i in start..end {
        let clash = differ(
            is_marked(held.marks, i),
            held.payload[i],
            true,
            bytes[i - offset],
        );
        found = clash | found;
    }
    found
}

// The same; where the bytes are the same or nothing is covered, no offset is looked at alone.
fn clash_run(held: Areas, offset: usize, bytes: &[u8], start: usize, end: usize) -> bool
    requires { (offset ≤ start) × (start ≤ end) × (end ≤ offset + length bytes.now) × (end ≤ length held.payload.now) }
    ensures { let view = marked_view in_use end held.entry.payload.now held.entry.marks.now in
        result ≡ any_from start end (λ k. differs (view k) (data_view offset bytes.now k)) }
{
    let same = same_bytes(held.payload, start, bytes, start - offset, end - start);
    if same {
        return false;
    }
    if !any_marked(held.marks, start, end) {
        return false;
    }
    clash_each(held, offset, bytes, start, end)
}

// Whether a covered byte differs from a chunk's byte there. Where nothing is covered yet, as in most chunks, only the marks are looked at.
pub(crate) fn clash_data(held: Areas, offset: usize, bytes: &[u8]) -> bool
    requires { let end = offset + length bytes.now in
        (end ≤ length held.payload.now) × (marks_for in_use end ≤ length held.marks.now) }
    ensures { let end = offset + length bytes.now in
        let view = marked_view in_use end held.entry.payload.now held.entry.marks.now in
        result ≡ clash end view (data_view offset bytes.now) }
{
    let end = offset + bytes.len();
    if !any_marked(held.marks, offset, end) {
        return false;
    }
    let mut i = offset;
    while i < end {
        let next = run_end(i, end);
        if clash_run(held, offset, bytes, i, next) {
            return true;
        }
        i = next;
    }
    false
}

// Whether a byte from start up to end that both cover differs, offset by offset.
fn both_each(held: Areas, source: Areas, start: usize, end: usize) -> bool
    requires { (start ≤ end) × (end ≤ length held.payload.now) × (end ≤ length source.payload.now) }
    ensures { let view = marked_view in_use end held.entry.payload.now held.entry.marks.now in
        let other = marked_view in_use end source.entry.payload.now source.entry.marks.now in
        result ≡ any_from start end (λ k. differs (view k) (other k)) }
{
    let mut found = false;
    for i in start..end {
        let clash = differ(
            is_marked(held.marks, i),
            held.payload[i],
            is_marked(source.marks, i),
            source.payload[i],
        );
        found = clash | found;
    }
    found
}

// The same; where the bytes are the same or one side covers nothing, no offset is looked at alone.
fn both_run(held: Areas, source: Areas, start: usize, end: usize) -> bool
    requires { (start ≤ end) × (end ≤ length held.payload.now) × (end ≤ length source.payload.now) }
    ensures { let view = marked_view in_use end held.entry.payload.now held.entry.marks.now in
        let other = marked_view in_use end source.entry.payload.now source.entry.marks.now in
        result ≡ any_from start end (λ k. differs (view k) (other k)) }
{
    if same_bytes(held.payload, start, source.payload, start, end - start) {
        return false;
    }
    if !any_marked(held.marks, start, end) {
        return false;
    }
    if !any_marked(source.marks, start, end) {
        return false;
    }
    both_each(held, source, start, end)
}

// Whether a byte that both cover differs.
pub(crate) fn clash_covered(held: Areas, total: usize, source: Areas) -> bool
    requires { (total ≤ length held.payload.now) × (marks_for in_use total ≤ length held.marks.now)
        × (total ≤ length source.payload.now) × (marks_for in_use total ≤ length source.marks.now) }
    ensures { let view = marked_view in_use total held.entry.payload.now held.entry.marks.now in
        let other = marked_view in_use total source.entry.payload.now source.entry.marks.now in
        result ≡ clash total view other }
{
    let mut i = 0;
    while i < total {
        let next = run_end(i, total);
        if both_run(held, source, i, next) {
            return true;
        }
        i = next;
    }
    false
}
