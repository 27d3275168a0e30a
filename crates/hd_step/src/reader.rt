// Lines of a source, each as soon as it is there: nothing is read while a whole line is at hand.
ghost use Rattle.std.specs.Prelude.{◌≡◌, ◌+◌, ◌-◌, ◌≤◌, ◌<◌, [], ◌++◌, None, false, true, drop};
ghost use Rattle.std.specs.Prelude.{length, take, position, IfErr, IfOk, IfSome, IsErrOf};
ghost use Rattle.std.specs.Io.KnownBytes.{IsAtEnd};
ghost use Rattle.hd_io.specs.Source.{GaveCount, ReadBrokeOff, ReadFailed};
ghost use Rattle.hd_model.specs.declared.limits.TheConstants.{MOST_BYTES};
ghost use Rattle.hd_model.specs.Grammar.{is_line_end};
ghost use Rattle.hd_step.specs.Inside.{Filled, HasLine, IsFirst};

use hd_io::{ReadFault, Source};
use hd_model::limits::MOST_BYTES;
use std::alloc::Global;
use std::marker::Model;

// How many bytes one read asks for at most.
const CHUNK: usize = 4096;

/// The bytes that were read of a source and are in no line that was taken.
#[derive(Drop)]
pub(crate) struct Reader {
    bytes: Vec<u8>,
    // The first byte that was not taken.
    at: usize,
    // How many more bytes may be read.
    room: usize,
    is_at_end: bool,
}

impl Model for Reader {
    ghost use Rattle.std.specs.Prelude.{◌≤◌, drop, length};
    ghost use Rattle.hd_model.specs.declared.limits.TheConstants.{MOST_BYTES};
    ghost use Rattle.hd_step.specs.Hand.{Hand, hand_code};

    ghost Value = { Hand };

    ghost coded = { hand_code };

    ghost view = { λ r. record {
      bytes = drop r.at r.bytes.items;
      room = r.room;
      ended = r.is_at_end;
    } };

    ghost invariant = { λ r. (r.at ≤ length r.bytes.items) × (r.room ≤ MOST_BYTES) };
}

impl Reader {
    /// Nothing was read yet. As many bytes may be as a script may have.
    pub(crate) fn open(alloc: Global) -> Reader
        ensures { result ≡ record { bytes = []; room = MOST_BYTES; ended = false } }
    {
        Reader {
            bytes: Vec::new(alloc),
            at: 0,
            room: MOST_BYTES as usize,
            is_at_end: false,
        }
    }

    /// How many bytes the next line has with its end: none where no byte is left. It reads until
    /// the line is at hand, and so nothing where it is.
    pub(crate) fn find<S: Source>(&mut self, source: &mut S) -> Result<usize, ReadFault>
        ensures filled { IfOk result
            (λ _. Filled self.old self.new (S.seen source.old) (S.seen source.new)) }
        ensures first { IfOk result (IsFirst self.new) }
        ensures within { IfOk result (λ n. n ≤ length self.new.bytes) }
        ensures ended { self.old.ended ≡ true →
            (self.new ≡ self.old) × (S.seen source.new ≡ S.seen source.old) }
        ensures end { IfOk result (λ _. self.old.ended ≡ false → self.new.ended ≡ true
            → IsAtEnd (S.seen source.new).left) }
        ensures unread { HasLine self.old →
            (self.new ≡ self.old) × (S.seen source.new ≡ S.seen source.old) }
        ensures going { IfErr result (λ _. self.old.ended ≡ false) }
        ensures failed { IsErrOf result ReadFault.Failed →
            ReadBrokeOff (S.seen source.old) (S.seen source.new) self.old.room }
        ensures too_long { IsErrOf result ReadFault.TooLong →
            GaveCount (S.seen source.old) (S.seen source.new) (λ n. n ≡ self.old.room + 1) }
        ensures memory { IsErrOf result ReadFault.Memory →
            GaveCount (S.seen source.old) (S.seen source.new) (λ n. n ≤ self.old.room) }
    {
        match line_end(self.at_hand()) {
            Some(end) => Ok(end + 1),
            None => {
                if self.is_at_end {
                    Ok(self.len())
                } else {
                    self.read_on(source)
                }
            }
        }
    }

    /// The first bytes at hand.
    pub(crate) fn first(&self, count: usize) -> &[u8]
        requires { count ≤ length self.now.bytes }
        ensures { result.now ≡ take count self.now.bytes }
    {
        &self.at_hand()[..count]
    }

    /// Takes bytes from the front of those at hand.
    pub(crate) fn forget(&mut self, count: usize)
        requires { count ≤ length self.old.bytes }
        ensures { self.new ≡ record self.old { bytes = drop count self.old.bytes } }
    {
        self.at += count;
    }

    // The bytes at hand.
    fn at_hand(&self) -> &[u8]
        ensures { result.now ≡ self.now.bytes }
    {
        &self.bytes[self.at..]
    }

    // How many bytes are at hand.
    fn len(&self) -> usize
        ensures { result ≡ length self.now.bytes }
    {
        self.bytes.len() - self.at
    }

    // Reads until the end of the first line is at hand, or all that the source has.
    fn read_on<S: Source>(&mut self, source: &mut S) -> Result<usize, ReadFault>
        requires more { self.old.ended ≡ false }
        requires unended { position is_line_end self.old.bytes ≡ None }
        ensures filled { IfOk result
            (λ _. Filled self.old self.new (S.seen source.old) (S.seen source.new)) }
        ensures first { IfOk result (IsFirst self.new) }
        ensures within { IfOk result (λ n. n ≤ length self.new.bytes) }
        ensures end { IfOk result
            (λ _. self.new.ended ≡ true → IsAtEnd (S.seen source.new).left) }
        ensures failed { IsErrOf result ReadFault.Failed →
            ReadBrokeOff (S.seen source.old) (S.seen source.new) self.old.room }
        ensures too_long { IsErrOf result ReadFault.TooLong →
            GaveCount (S.seen source.old) (S.seen source.new) (λ n. n ≡ self.old.room + 1) }
        ensures memory { IsErrOf result ReadFault.Memory →
            GaveCount (S.seen source.old) (S.seen source.new) (λ n. n ≤ self.old.room) }
    {
        'reading: loop {
            let had = self.len();
            match self.read(source) {
                Err(fault) => return Err(fault),
                Ok(count) => {
                    if count == 0 {
                        return Ok(had);
                    }
                    if let Some(end) = line_end(&self.at_hand()[had..]) {
                        return Ok(had + end + 1);
                    }
                }
            }
        }
    }

    // Reads what one read gives, and returns how many bytes that is: none is the end.
    fn read<S: Source>(&mut self, source: &mut S) -> Result<usize, ReadFault>
        requires { self.old.ended ≡ false }
        ensures filled { IfOk result
            (λ _. Filled self.old self.new (S.seen source.old) (S.seen source.new)) }
        ensures count { IfOk result
            (λ n. length self.new.bytes ≡ length self.old.bytes + n) }
        ensures some { IfOk result (λ n. 0 < n → self.new.ended ≡ false) }
        ensures none { IfOk result (λ n. n ≡ 0 →
            (self.new ≡ record self.old { ended = true }) × IsAtEnd (S.seen source.new).left) }
        ensures failed { IsErrOf result ReadFault.Failed →
            ReadFailed (S.seen source.old) (S.seen source.new) }
        ensures too_long { IsErrOf result ReadFault.TooLong →
            GaveCount (S.seen source.old) (S.seen source.new) (λ n. n ≡ self.old.room + 1) }
        ensures memory { IsErrOf result ReadFault.Memory →
            GaveCount (S.seen source.old) (S.seen source.new) (λ n. n ≤ self.old.room) }
    {
        let mut chunk = [0; CHUNK];
        let asked = CHUNK.min(self.room + 1);
        match source.read(&mut chunk[..asked]) {
            Ok(count) => self.take_in(&chunk[..count]),
            Err(_) => Err(ReadFault::Failed),
        }
    }

    // Notes the end where nothing was read, or puts what was behind the bytes at hand.
    #[inline(always)]
    fn take_in(&mut self, read: &[u8]) -> Result<usize, ReadFault>
        requires more { self.old.ended ≡ false }
        requires few { length read.now ≤ self.old.room + 1 }
        ensures count { IfOk result (λ n. n ≡ length read.now) }
        ensures hand { IfOk result (λ _. self.new.bytes ≡ self.old.bytes ++ read.now) }
        ensures room { IfOk result (λ _. self.new.room + length read.now ≡ self.old.room) }
        ensures some { IfOk result (λ n. 0 < n → self.new.ended ≡ false) }
        ensures none { IfOk result (λ n. n ≡ 0 → self.new ≡ record self.old { ended = true }) }
        ensures unfailed { IsErrOf result ReadFault.Failed → ⊥ }
        ensures too_long { IsErrOf result ReadFault.TooLong → length read.now ≡ self.old.room + 1 }
        ensures memory { IsErrOf result ReadFault.Memory → length read.now ≤ self.old.room }
    {
        if read.is_empty() {
            self.is_at_end = true;
            return Ok(0);
        }
        if read.len() > self.room {
            return Err(ReadFault::TooLong);
        }
        self.keep(read)
    }

    // Puts bytes behind those at hand.
    #[inline(always)]
    fn keep(&mut self, read: &[u8]) -> Result<usize, ReadFault>
        requires { length read.now ≤ self.old.room }
        ensures count { IfOk result (λ n. n ≡ length read.now) }
        ensures kept { IfOk result (λ _. self.new ≡ record self.old
            { bytes = self.old.bytes ++ read.now; room = self.old.room - length read.now }) }
        ensures memory { IfErr result (λ fault. fault ≡ ReadFault.Memory) }
    {
        self.compact();
        if self.bytes.extend_from_slice(read).is_err() {
            return Err(ReadFault::Memory);
        }
        self.room -= read.len();
        Ok(read.len())
    }

    // Moves the bytes at hand to the front.
    fn compact(&mut self)
        ensures { self.new ≡ self.old }
    {
        if self.at > 0 {
            let left = self.bytes.len() - self.at;
            self.bytes.copy_within(self.at.., 0);
            self.bytes.truncate(left);
            self.at = 0;
        }
    }
}

// The index of the first byte that ends a line.
fn line_end(bytes: &[u8]) -> Option<usize>
    ensures first { result ≡ position is_line_end bytes.now }
    ensures within { IfSome result (λ end. end < length bytes.now) }
{
    bytes.iter().position(|b| *b == b'\n')
}
