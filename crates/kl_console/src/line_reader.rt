//! Lines from a source, one at a time.

ghost use Rattle.std.specs.Prelude.{◌≡◌, ◌++◌, ◌+◌, [], List, ℕ, Err, ◌<◌, ◌≤◌, true, false, length, IfOk, OnErr, IfSome, IfNone};
ghost use Rattle.std.specs.Io.KnownBytes.{Consumes, IsAtEnd};
ghost use Rattle.kl_entry.specs.Lines.{HasNo};
ghost use Rattle.kl_console.specs.Calls.{FailsAtLast};
ghost use Rattle.kl_console.specs.Lines.{script_limit};
ghost use Rattle.kl_console.specs.Inner.Reading.{IsNewlineAt, Fits, IsOver, ReadsLine, held_bytes};

use kl_io::Source;
use memchr::memchr;
use std::alloc::{AllocError, Global};
use std::marker::Model;

/// The most bytes that a line may have, its newline not counted.
const LINE_LIMIT: usize = 16_777_216;

/// The most bytes that a script may have, all newlines counted.
const SCRIPT_LIMIT: u64 = 1_099_511_627_776;

/// How many bytes one turn asks the source for.
const TURN: usize = 65_536;

/// How many bytes a line may have whose memory is kept for the next.
const KEPT: usize = 1_048_576;

/// How many bytes a line has room for, which is more than it may have: memory that is not written to is not
/// taken, and the C library gives back so large a piece at once and keeps none of that size for later.
const ROOM: usize = 34_603_008;

/// A piece of so many bytes is taken and given back before any line is read: the C library then keeps up to twice as much of
/// what is given back, where at first it returns all but 128 KiB to the system at once, and each long text costs fresh pages.
const FIRST_PIECE: usize = 2_097_152;

/// What was found of the next line.
#[derive(Clone, Copy, Debug, PartialEq, Eq)]
pub enum Found {
    /// A line that was ended by its newline.
    Line,
    /// The last line, which lacks its newline.
    Last,
    /// The end of the script, behind a newline or with no line at all.
    End,
    /// More bytes than a line may have, or than the script may have.
    TooLong,
}

/// Why a line could not be read.
#[derive(Clone, Copy, Debug, PartialEq, Eq)]
pub enum ReadError {
    /// The source met a fault.
    Failed,
    /// Memory ran out.
    Memory,
}

impl From<AllocError> for ReadError {
    ghost use Rattle.std.specs.Prelude.{◌≡◌};
    ghost use Rattle.kl_console.specs.declared.line_reader.ReadError.TheVariants.{Memory};

    ghost from_gives = { λ _ e. e ≡ Memory };

    fn from(_e: AllocError) -> ReadError {
        ReadError::Memory
    }
}

/// Where the first newline stands.
fn newline_at(bytes: &[u8]) -> Option<usize>
    ensures found { IfSome result (IsNewlineAt bytes.now) }
    ensures none { IfNone result (HasNo 10 bytes.now) }
{
    memchr(b'\n', bytes)
}

/// An empty line with room for a long one, where there is memory for that.
fn with_room(alloc: Global) -> Vec<u8>
    ensures { result.items ≡ [] }
{
    match Vec::with_capacity(alloc, ROOM) {
        Ok(line) => line,
        Err(_) => Vec::new(alloc),
    }
}

/// Takes a first piece of memory, where there is one, and gives it back.
fn warm_up(alloc: Global) {
    let piece: Result<Vec<u8>, AllocError> = Vec::with_capacity(alloc, FIRST_PIECE);
    drop(piece);
}

/// Reads the lines of a script, in turns of bounded size. The line that was read last stays until the next is read.
#[derive(Drop)]
pub struct LineReader {
    line: Vec<u8>,
    chunk: Vec<u8>,
    start: usize,
    end: usize,
    /// How many bytes the lines take that were read to their newline.
    passed: u64,
}

impl Model for LineReader {
    ghost use Rattle.std.specs.Prelude.{◌≡◌, ◌≤◌, ◌-◌, take, drop, length, vec_len};
    ghost use Rattle.kl_console.specs.Lines.{script_limit};
    ghost use Rattle.kl_console.specs.Inner.Reading.{Reading};

    ghost Value = { Reading };

    ghost view = { λ r. record { line = r.line.items; ahead = take (r.end - r.start) (drop r.start r.chunk.items); passed = r.passed } };

    ghost invariant = { λ r. (r.start ≤ r.end) × (r.end ≤ vec_len r.chunk) × (vec_len r.chunk ≡ 65536) × (r.passed ≤ script_limit) };
}

impl LineReader {
    /// A reader that has read nothing.
    ///
    /// # Errors
    /// `AllocError` where there is no memory for one turn.
    pub fn new(alloc: Global) -> Result<LineReader, AllocError>
        ensures line { IfOk result (λ r. r.line ≡ []) }
        ensures ahead { IfOk result (λ r. r.ahead ≡ []) }
        ensures passed { IfOk result (λ r. r.passed ≡ 0) }
    {
        warm_up(alloc);
        Ok(LineReader {
            line: with_room(alloc),
            chunk: vec![in alloc; 0; TURN]?,
            start: 0,
            end: 0,
            passed: 0,
        })
    }

    /// The line, without its newline.
    pub fn line(&self) -> &[u8]
        ensures value { result.now ≡ self.now.line }
    {
        self.line.as_slice()
    }

    /// Lets the line go, and the memory that it took where that is much.
    pub fn let_go(&mut self, alloc: Global)
        ensures { self.new ≡ record { line = []; ahead = self.old.ahead; passed = self.old.passed } }
    {
        // The memory of few bytes is kept, so that such a line costs no allocation.
        if self.line.len() > KEPT {
            self.line = with_room(alloc);
        }
        self.line.clear();
    }

    /// Reads the next line. It stays until the next one is read.
    ///
    /// # Errors
    /// `Failed` where the source met a fault in this call, `Memory` where there is none for the line.
    pub fn next<S: Source>(&mut self, source: &mut S) -> Result<Found, ReadError>
        ensures reads { ReadsLine (S.told source.old) (S.told source.new) self.old self.new result }
        ensures failed { FailsAtLast (S.told source.old).calls (S.told source.new).calls (result ≡ Err ReadError.Failed) }
        ensures place { (S.told source.new).place ≡ (S.told source.old).place }
    {
        self.line.clear();
        if !self.prime(source)? {
            return Ok(Found::End);
        }
        self.gather(source)
    }

    /// Sees that bytes are ahead, unless the source is at its end. The answer is whether there are any.
    fn prime<S: Source>(&mut self, source: &mut S) -> Result<bool, ReadError>
        ensures bytes { (consumed : List ℕ) × Consumes (S.told source.old).left (S.told source.new).left consumed
            × (self.new.ahead ≡ self.old.ahead ++ consumed) }
        ensures once { (S.told source.new).calls.made ≤ (S.told source.old).calls.made + 1 }
        // Where there are bytes, one at least is new of each read.
        ensures reads { IfOk result (λ some. some ≡ true → (S.told source.new).calls.made + length self.old.ahead
            ≤ (S.told source.old).calls.made + length self.new.ahead) }
        ensures line { self.new.line ≡ self.old.line }
        ensures passed { self.new.passed ≡ self.old.passed }
        ensures some { IfOk result (λ some. some ≡ true → 0 < length self.new.ahead) }
        ensures end { IfOk result (λ some. some ≡ false → (self.new.ahead ≡ []) × IsAtEnd (S.told source.new).left) }
        ensures err { OnErr result (self.new.ahead ≡ []) }
        ensures failed { FailsAtLast (S.told source.old).calls (S.told source.new).calls (result ≡ Err ReadError.Failed) }
        ensures place { (S.told source.new).place ≡ (S.told source.old).place }
    {
        if self.start < self.end {
            return Ok(true);
        }
        self.fill(source)
    }

    /// Gathers a line from bytes ahead and from the source.
    fn gather<S: Source>(&mut self, source: &mut S) -> Result<Found, ReadError>
        requires ahead { 0 < length self.old.ahead }
        requires line { self.old.line ≡ [] }
        requires passed { self.old.passed ≤ script_limit }
        ensures reads { ReadsLine (S.told source.old) (S.told source.new) self.old self.new result }
        ensures failed { FailsAtLast (S.told source.old).calls (S.told source.new).calls (result ≡ Err ReadError.Failed) }
        ensures place { (S.told source.new).place ≡ (S.told source.old).place }
    {
        'turns: loop {
            let whole = self.take_piece()?;
            if self.is_over(whole) {
                return Ok(Found::TooLong);
            }
            if whole {
                self.pass();
                return Ok(Found::Line);
            }
            if !self.fill(source)? {
                return Ok(Found::Last);
            }
        }
    }

    /// Whether the line passes its limit, or the script does in it.
    fn is_over(&self, whole: bool) -> bool
        ensures over { result ≡ true → IsOver whole self.now }
        ensures fits { result ≡ false → Fits whole self.now }
    {
        let newline = if whole { 1 } else { 0 };
        self.line.len() > LINE_LIMIT
            || self.passed + self.line.len() as u64 + newline > SCRIPT_LIMIT
    }

    /// Counts the line, which was read to its newline.
    fn pass(&mut self)
        requires { self.old.passed + length self.old.line + 1 ≤ script_limit }
        ensures { self.new ≡ record { line = self.old.line; ahead = self.old.ahead; passed = self.old.passed + length self.old.line + 1 } }
    {
        self.passed += self.line.len() as u64 + 1;
    }

    /// Appends what the chunk has of the line, up to its newline. The answer is whether the newline was met.
    fn take_piece(&mut self) -> Result<bool, AllocError>
        ensures bytes { IfOk result (λ whole. held_bytes whole self.new ≡ self.old.line ++ self.old.ahead) }
        ensures no_newline { HasNo 10 self.old.line → HasNo 10 self.new.line }
        ensures rest { IfOk result (λ whole. whole ≡ false → self.new.ahead ≡ []) }
        ensures err { OnErr result (self.new ≡ self.old) }
        ensures passed { self.new.passed ≡ self.old.passed }
    {
        let ahead = &self.chunk[self.start..self.end];
        match newline_at(ahead) {
            Some(at) => {
                self.line.extend_from_slice(&ahead[..at])?;
                self.start += at + 1;
                Ok(true)
            }
            None => {
                self.line.extend_from_slice(ahead)?;
                self.start = self.end;
                Ok(false)
            }
        }
    }

    /// Asks the source for one turn of bytes, where none are ahead. The answer is whether there were any.
    fn fill<S: Source>(&mut self, source: &mut S) -> Result<bool, ReadError>
        requires { self.old.ahead ≡ [] }
        ensures bytes { Consumes (S.told source.old).left (S.told source.new).left self.new.ahead }
        ensures once { (S.told source.new).calls.made ≤ (S.told source.old).calls.made + 1 }
        ensures line { self.new.line ≡ self.old.line }
        ensures passed { self.new.passed ≡ self.old.passed }
        ensures some { IfOk result (λ some. some ≡ true → 0 < length self.new.ahead) }
        ensures end { IfOk result (λ some. some ≡ false → (self.new.ahead ≡ []) × IsAtEnd (S.told source.new).left) }
        ensures err { OnErr result (self.new.ahead ≡ []) }
        ensures failed { FailsAtLast (S.told source.old).calls (S.told source.new).calls (result ≡ Err ReadError.Failed) }
        ensures place { (S.told source.new).place ≡ (S.told source.old).place }
    {
        self.start = 0;
        self.end = 0;
        match source.read(self.chunk.as_mut_slice()) {
            Ok(count) => {
                self.end = count;
                Ok(count > 0)
            }
            Err(_) => Err(ReadError::Failed),
        }
    }
}
