// Recorded answers of sage's unchanged Rust: numbers read from a file, least byte first, and columns compared with
// recorded ones by their bits, with all NaNs as one. Where a file ends early, zeros are read and its end is missing;
// `replayed` says so.
#![tactic(auto)]

ghost use Rattle.std.specs.Prelude.{◌≡◌, ◌==◌, ◌<◌, ◌≤◌, ◌*◌, ◌++◌, ◌↔◌, ℕ, List, drop, length, map, slice_index};
ghost use Rattle.std.specs.Prelude.{All, IsTrue, IfOk, OnOk, Ok};
ghost use Rattle.replay.specs.Numbers.{numbers};
ghost use Rattle.std.specs.Float.{binary32, binary64};
ghost use Rattle.std.specs.Float.Ieee.{of_bits, to_bits};
ghost use Rattle.std.specs.Int.{cast_signed, cast_unsigned, from_le_bytes, w32, w64};

use columns::Refusal;
use std::alloc::{AllocError, Global};
use std::io::Read;
use std::marker::Model;
use std::num::{
    f32_from_bits_with_nan, f32_to_bits_with_nan, f64_from_bits_with_nan, f64_to_bits_with_nan,
};
use std::rt::Files;
use std::{fs, io};

// A number as it is recorded. Each type has functions of its own for its bits, so each has an impl of its own; the two
// bodies of `read_bits`, by width, would need a trait for the width to be one.
pub trait Recorded: Copy {
    // how many bytes it has, and its bits and the number at the head of some bytes, with zeros past their end
    ghost width: { ℕ };

    ghost pattern: { List ℕ → ℕ };

    ghost number: { List ℕ → Self };

    // a number's bits, one pattern for every NaN
    ghost bits: { Self → ℕ };

    // The bits of the next number of a recording, as they are.
    fn read_bits(recording: &mut Recording<'_>) -> u64
        ensures bits { result ≡ pattern recording.old }
        ensures rest { recording.new ≡ drop width recording.old };

    // The next number of a recording.
    fn read(recording: &mut Recording<'_>) -> Self
        ensures number { result ≡ number recording.old }
        ensures rest { recording.new ≡ drop width recording.old };

    fn bits(self) -> u64
        ensures { result ≡ bits self };
}

impl Recorded for u32 {
    ghost width = { 4 };

    ghost pattern = { from_le_bytes w32 };

    ghost number = { from_le_bytes w32 };

    ghost bits = { λ x. x };

    fn read_bits(recording: &mut Recording<'_>) -> u64 {
        u64::from(recording.next_u32())
    }

    fn read(recording: &mut Recording<'_>) -> u32 {
        recording.next_u32()
    }

    fn bits(self) -> u64 {
        u64::from(self)
    }
}

impl Recorded for i32 {
    ghost width = { 4 };

    ghost pattern = { from_le_bytes w32 };

    ghost number = { λ bytes. cast_signed w32 (from_le_bytes w32 bytes) };

    ghost bits = { cast_unsigned w32 };

    fn read_bits(recording: &mut Recording<'_>) -> u64 {
        u64::from(recording.next_u32())
    }

    fn read(recording: &mut Recording<'_>) -> i32 {
        recording.next_u32().cast_signed()
    }

    fn bits(self) -> u64 {
        u64::from(self.cast_unsigned())
    }
}

impl Recorded for u64 {
    ghost width = { 8 };

    ghost pattern = { from_le_bytes w64 };

    ghost number = { from_le_bytes w64 };

    ghost bits = { λ x. x };

    fn read_bits(recording: &mut Recording<'_>) -> u64 {
        recording.next_u64()
    }

    fn read(recording: &mut Recording<'_>) -> u64 {
        recording.next_u64()
    }

    fn bits(self) -> u64 {
        self
    }
}

impl Recorded for f32 {
    ghost width = { 4 };

    ghost pattern = { from_le_bytes w32 };

    ghost number = { λ bytes. of_bits binary32 (from_le_bytes w32 bytes) };

    ghost bits = { to_bits binary32 };

    fn read_bits(recording: &mut Recording<'_>) -> u64 {
        u64::from(recording.next_u32())
    }

    fn read(recording: &mut Recording<'_>) -> f32 {
        f32_from_bits_with_nan(recording.next_u32())
    }

    fn bits(self) -> u64 {
        u64::from(f32_to_bits_with_nan(self))
    }
}

impl Recorded for f64 {
    ghost width = { 8 };

    ghost pattern = { from_le_bytes w64 };

    ghost number = { λ bytes. of_bits binary64 (from_le_bytes w64 bytes) };

    ghost bits = { to_bits binary64 };

    fn read_bits(recording: &mut Recording<'_>) -> u64 {
        recording.next_u64()
    }

    fn read(recording: &mut Recording<'_>) -> f64 {
        f64_from_bits_with_nan(recording.next_u64())
    }

    fn bits(self) -> u64 {
        f64_to_bits_with_nan(self)
    }
}

// Whether a column holds this number in every place.
pub fn holds_only<T: Recorded>(column: &[T], x: T) -> bool
    ensures { IsTrue result ↔ All (λ y. T.bits y ≡ T.bits x) column.now }
{
    column.iter().all(|y| y.bits() == x.bits())
}

// The bytes of a recording that are still to be read.
#[derive(Drop)]
pub struct Recording<'a> {
    unread: &'a [u8],
}

impl<'a> Model for Recording<'a> {
    ghost Value = { List ℕ };

    ghost view = { λ r. r.unread.now };
}

impl<'a> Recording<'a> {
    // The next bytes, with zeros past the end.
    fn next_bytes<const N: usize>(&mut self) -> [u8; N]
        ensures bytes { (i : ℕ) → i < N → slice_index result i ≡ slice_index self.old i }
        ensures rest { self.new ≡ drop N self.old }
    {
        let mut bytes = [0u8; N];
        let given = N.min(self.unread.len());
        let (next, rest) = self.unread.split_at(given);
        bytes[..given].copy_from_slice(next);
        self.unread = rest;
        bytes
    }

    // u32 and u64 have each a `from_le_bytes` of their own.
    fn next_u32(&mut self) -> u32
        ensures number { result ≡ from_le_bytes w32 self.old }
        ensures rest { self.new ≡ drop 4 self.old }
    {
        u32::from_le_bytes(self.next_bytes())
    }

    fn next_u64(&mut self) -> u64
        ensures number { result ≡ from_le_bytes w64 self.old }
        ensures rest { self.new ≡ drop 8 self.old }
    {
        u64::from_le_bytes(self.next_bytes())
    }

    // The next number.
    pub fn read<T: Recorded>(&mut self) -> T
        ensures number { result ≡ T.number self.old }
        ensures rest { self.new ≡ drop T.width self.old }
    {
        T::read(self)
    }

    // The next length.
    pub fn read_length(&mut self) -> usize
        ensures length { result ≡ from_le_bytes w32 self.old }
        ensures rest { self.new ≡ drop 4 self.old }
    {
        self.next_u32() as usize
    }

    // Fills a column with the next numbers.
    pub fn read_into<T: Recorded>(&mut self, column: &mut [T])
        ensures column { column.new ≡ numbers T.number T.width (length column.old) self.old }
        ensures rest { self.new ≡ drop (length column.old * T.width) self.old }
    {
        for place in column {
            *place = self.read();
        }
    }

    // Fills the first `n` places of a column with the next numbers; none where it has fewer.
    pub fn read_first<T: Recorded>(&mut self, n: usize, column: &mut [T])
        ensures within { n ≤ length column.old
            → (column.new ≡ numbers T.number T.width n self.old ++ drop n column.old)
            × (self.new ≡ drop (n * T.width) self.old) }
        ensures past { length column.old < n → (column.new ≡ column.old) × (self.new ≡ self.old) }
    {
        if n <= column.len() {
            self.read_into(&mut column[..n]);
        }
    }

    // A column of the next `n` numbers. Of a chain whose closure reads on, a proof would know only how many come.
    pub fn read_column<T: Recorded>(
        &mut self,
        alloc: Global,
        n: usize,
    ) -> Result<Vec<T>, AllocError>
        ensures column { IfOk result (λ column. column.items ≡ numbers T.number T.width n self.old) }
        ensures rest { OnOk result (self.new ≡ drop (n * T.width) self.old) }
    {
        let mut column = Vec::with_capacity(alloc, n)?;
        for i in 0..n {
            column.push(self.read())?;
        }
        Ok(column)
    }

    // Whether the next number has this one's bits; a NaN is recorded with those that `bits` gives.
    pub fn same<T: Recorded>(&mut self, x: T) -> bool
        ensures same { result ≡ (T.bits x == T.pattern self.old) }
        ensures rest { self.new ≡ drop T.width self.old }
    {
        x.bits() == T::read_bits(self)
    }

    // The same of a column's numbers. All of them are read.
    pub fn same_column<T: Recorded>(&mut self, column: &[T]) -> bool
        ensures same { let recorded = numbers T.pattern T.width (length column.now) self.old in
            IsTrue result ↔ (map T.bits column.now ≡ recorded) }
        ensures rest { self.new ≡ drop (length column.now * T.width) self.old }
    {
        let mut same = true;
        for x in column {
            same = same & self.same(*x);
        }
        same
    }

    // Whether a call accepted, and the next number is its count.
    pub fn same_count(&mut self, answer: Result<usize, Refusal>) -> bool
        ensures same { IsTrue result ↔ (answer ≡ Ok (from_le_bytes w32 self.old)) }
        ensures rest { self.new ≡ drop 4 self.old }
    {
        let recorded = self.read_length();
        answer == Ok(recorded)
    }

    // How many cases a recording has; none where it has more than any, as what is no recording does.
    fn read_cases(&mut self) -> Option<usize> {
        let cases = self.next_u64();
        if cases > MOST_CASES {
            return None;
        }
        Some(cases as usize)
    }

    // Whether the end of a recording comes next, and nothing after it.
    fn ends(&mut self) -> bool {
        let mark = self.next_u64();
        (mark == END) & self.unread.is_empty()
    }
}

// No recording has more cases.
const MOST_CASES: u64 = 1_000_000;

// Stands at the end of a recording.
const END: u64 = 0x4445_5941_4c50_4552;

// The bytes of a file. Where it is missing there are none, and a line says so.
fn bytes_of<R: Files + Print + AllocGlobal>(rt: &R, file: &str) -> io::Result<Vec<u8>> {
    let mut bytes = Vec::new(rt.alloc());
    match fs::open(rt, file) {
        Ok(mut opened) => {
            opened.read_to_end(&mut bytes)?;
        }
        Err(_) => println!(rt; "{file}: missing")?,
    }
    Ok(bytes)
}

// Replays the cases of a file, and prints how many there are and how many differ. Another line is printed where the
// file does not end after them. A step takes the runtime's allocator and the recording, which have nothing in common.
pub fn replayed<R, F>(rt: &R, file: &str, same_case: F) -> io::Result<()>
where
    R: Files + Print + AllocGlobal,
    F: Fn(Global, &mut Recording<'_>) -> Result<bool, AllocError> + Drop,
    requires { F.IsAlwaysCallable same_case }
{
    let bytes = bytes_of(rt, file)?;
    let mut recording = Recording { unread: &bytes };
    let cases = recording.read_cases().unwrap_or(0);
    let mut differing = 0usize;
    // `case` counts how often; the proof that `differing` stays small names it
    for case in 0..cases {
        if !same_case(rt.alloc(), &mut recording)? {
            differing += 1;
        }
    }
    println!(rt; "{file}: {cases} cases, {differing} mismatches")?;
    if !recording.ends() {
        println!(rt; "{file}: damaged, or of another length")?;
    }
    Ok(())
}

#[cfg(test)]
mod tests {
    use super::*;

    // Past the end come zeros.
    #[test]
    fn a_column_is_read(rt: HostRuntime) {
        let mut recording = Recording {
            unread: &[1, 0, 0, 0, 0xfe, 0xff, 0xff, 0xff, 3],
        };
        let column = recording.read_column::<i32>(rt.alloc(), 4);
        assert_eq!(rt;
            column.expect(&rt, "memory").as_slice(),
            [1, -2, 3, 0].as_slice()
        );
    }
}
