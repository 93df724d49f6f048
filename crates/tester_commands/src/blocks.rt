//! A block of bytes through which a text goes to an output.
ghost use Rattle.std.specs.Prelude.{◌≡◌, ◌+◌, ◌^◌, ◌++◌, ◌∷◌, [], ℕ, ◌<◌, ◌≤◌, codes, false, length, map, OnOk, OnErr, IfOk};
ghost use Rattle.std.specs.List.{All, range_with_len};
ghost use Rattle.outside.specs.Held.{Appended};
ghost use Rattle.outside.specs.Puts.{Puts};
ghost use Rattle.vector_lines.specs.Numbers.{line_value};
ghost use Rattle.tester_commands.specs.DataText.{bits_word, pattern_line};
ghost use Rattle.tester_commands.specs.DataParts.{made_byte, made_bits, made_pattern, made_lines, part_value, part_text, parts_text, IsSmallPart};
ghost use Rattle.tester_commands.specs.Sending.{IsBlock, HasRoom, waiting, HasSent, HasFailed};

use crate::BLOCK;
use crate::bits::put_bits;
use crate::parts::Part;
use outside::{NoMemory, Sink, WriteFault, put_all};
use std::alloc::Global;
use test_data::Wanted;
use vector_lines::Line;

/// A block: its first bytes wait to be written.
#[derive(Drop)]
pub struct Block {
    bytes: Vec<u8>,
    used: usize,
}

impl Block {
    /// A block in which nothing waits.
    pub fn new(alloc: Global) -> Result<Block, NoMemory>
        ensures room { IfOk result HasRoom }
        ensures empty { IfOk result (λ b. waiting b ≡ []) }
    {
        Ok(Block {
            bytes: vec![in alloc; 0u8; BLOCK]?,
            used: 0,
        })
    }

    /// Writes what waits.
    pub fn flush<K: Sink>(&mut self, out: &mut K) -> Result<(), WriteFault>
        requires { IsBlock self.old }
        ensures faults { K.faults out.old ≤ K.faults out.new }
        ensures room { OnOk result (HasRoom self.new) }
        ensures empty { OnOk result (waiting self.new ≡ []) }
        ensures sent { OnOk result
            (HasSent K.is_put K.written out.old out.new (waiting self.old) [] (waiting self.new)) }
        ensures failed { OnErr result
            (HasFailed K.is_put K.written K.faults out.old out.new (waiting self.old)) }
    {
        match put_all(out, &self.bytes[..self.used]) {
            Ok(()) => {
                self.used = 0;
                Ok(())
            }
            Err(fault) => Err(fault),
        }
    }

    /// Writes what waits where there is no room left.
    fn settle<K: Sink>(&mut self, out: &mut K) -> Result<(), WriteFault>
        requires { IsBlock self.old }
        ensures faults { K.faults out.old ≤ K.faults out.new }
        ensures room { OnOk result (HasRoom self.new) }
        ensures sent { OnOk result
            (HasSent K.is_put K.written out.old out.new (waiting self.old) [] (waiting self.new)) }
        ensures failed { OnErr result
            (HasFailed K.is_put K.written K.faults out.old out.new (waiting self.old)) }
    {
        if self.used == BLOCK {
            return self.flush(out);
        }
        Ok(())
    }

    /// Puts a byte behind what waits.
    fn put(&mut self, byte: u8)
        requires { HasRoom self.old }
        ensures block { IsBlock self.new }
        ensures put { waiting self.new ≡ waiting self.old ++ byte ∷ [] }
    {
        self.bytes[self.used] = byte;
        self.used += 1;
    }

    /// Sends a byte.
    fn byte<K: Sink>(&mut self, byte: u8, out: &mut K) -> Result<(), WriteFault>
        requires { HasRoom self.old }
        ensures faults { K.faults out.old ≤ K.faults out.new }
        ensures room { OnOk result (HasRoom self.new) }
        ensures sent { OnOk result (HasSent K.is_put K.written out.old out.new (waiting self.old)
            (byte ∷ []) (waiting self.new)) }
        ensures failed { OnErr result (HasFailed K.is_put K.written K.faults out.old out.new
            (waiting self.old ++ byte ∷ [])) }
    {
        self.put(byte);
        self.settle(out)
    }

    /// Sends a text.
    pub fn text<K: Sink>(&mut self, text: &[u8], out: &mut K) -> Result<(), WriteFault>
        requires { HasRoom self.old }
        ensures faults { K.faults out.old ≤ K.faults out.new }
        ensures room { OnOk result (HasRoom self.new) }
        ensures sent { OnOk result (HasSent K.is_put K.written out.old out.new (waiting self.old)
            text.now (waiting self.new)) }
        ensures failed { OnErr result
            (HasFailed K.is_put K.written K.faults out.old out.new (waiting self.old ++ text.now)) }
    {
        for b in text {
            match self.byte(*b, out) {
                Ok(()) => {}
                Err(fault) => return Err(fault),
            }
        }
        Ok(())
    }

    /// Puts some bits of `left` ones behind what waits, as many as there is room for; the first is made from a value. It answers how
    /// many these are, and what the bit behind them is made from.
    fn some_bits(&mut self, line: Line, first: u64, left: u128) -> (usize, u64)
        requires room { HasRoom self.old }
        requires step { line.step < 997 }
        requires first { first < 997 }
        requires left { 0 < left }
        ensures block { IsBlock self.new }
        ensures some { 1 ≤ result.0 }
        ensures within { result.0 ≤ left }
        ensures small { result.1 < 997 }
        ensures put { (n : ℕ) → first ≡ line_value line n → waiting self.new
            ≡ waiting self.old ++ map (made_byte line) (range_with_len n result.0) }
        ensures next { (n : ℕ) → first ≡ line_value line n →
            result.1 ≡ line_value line (n + result.0) }
    {
        let count = u128::from((BLOCK - self.used) as u64).min(left) as usize;
        let next = put_bits(&mut self.bytes, self.used, count, line, first);
        self.used += count;
        (count, next)
    }

    /// Sends the bytes of the first bits of a line.
    fn bits<K: Sink>(&mut self, line: Line, count: u128, out: &mut K) -> Result<(), WriteFault>
        requires room { HasRoom self.old }
        requires first { line.first < 997 }
        requires step { line.step < 997 }
        ensures faults { K.faults out.old ≤ K.faults out.new }
        ensures room { OnOk result (HasRoom self.new) }
        ensures sent { OnOk result (HasSent K.is_put K.written out.old out.new (waiting self.old)
            (map (made_byte line) (range_with_len 0 count)) (waiting self.new)) }
        ensures failed { OnErr result (HasFailed K.is_put K.written K.faults out.old out.new
            (waiting self.old ++ map (made_byte line) (range_with_len 0 count))) }
    {
        let mut done = 0u128;
        let mut value = line.first;
        while done < count {
            let (more, next) = self.some_bits(line, value, count - done);
            match self.settle(out) {
                Ok(()) => {}
                Err(fault) => return Err(fault),
            }
            value = next;
            done += more as u128;
        }
        Ok(())
    }

    /// Sends the word of some bits of a pattern: those of the stimulus where `side` is 0, of the response where it is 1.
    fn word<K: Sink>(
        &mut self,
        base: u64,
        pattern: u64,
        side: u64,
        count: u128,
        out: &mut K,
    ) -> Result<(), WriteFault>
        requires room { HasRoom self.old }
        requires base { base < 997 }
        requires side { side ≤ 1 }
        ensures faults { K.faults out.old ≤ K.faults out.new }
        ensures room { OnOk result (HasRoom self.new) }
        ensures sent { OnOk result (HasSent K.is_put K.written out.old out.new (waiting self.old)
            (bits_word (made_bits base pattern side count)) (waiting self.new)) }
        ensures failed { OnErr result (HasFailed K.is_put K.written K.faults out.old out.new
            (waiting self.old ++ bits_word (made_bits base pattern side count))) }
    {
        if count == 0 {
            return self.byte(b'-', out);
        }
        self.bits(Line::of(base, pattern, side), count, out)
    }

    /// Sends the line of a pattern.
    fn pattern<K: Sink>(
        &mut self,
        base: u64,
        wanted: Wanted,
        pattern: u64,
        out: &mut K,
    ) -> Result<(), WriteFault>
        requires room { HasRoom self.old }
        requires base { base < 997 }
        ensures faults { K.faults out.old ≤ K.faults out.new }
        ensures room { OnOk result (HasRoom self.new) }
        ensures sent { OnOk result (HasSent K.is_put K.written out.old out.new (waiting self.old)
            (pattern_line (made_pattern base wanted pattern)) (waiting self.new)) }
        ensures failed { OnErr result (HasFailed K.is_put K.written K.faults out.old out.new
            (waiting self.old ++ pattern_line (made_pattern base wanted pattern))) }
    {
        match self.word(base, pattern, 0, wanted.load, out) {
            Ok(()) => {}
            Err(fault) => return Err(fault),
        }
        match self.byte(b' ', out) {
            Ok(()) => {}
            Err(fault) => return Err(fault),
        }
        match self.word(base, pattern, 1, wanted.unload, out) {
            Ok(()) => {}
            Err(fault) => return Err(fault),
        }
        self.byte(b'\n', out)
    }

    /// Sends the lines of all patterns of a test.
    fn patterns<K: Sink>(
        &mut self,
        base: u64,
        wanted: Wanted,
        out: &mut K,
    ) -> Result<(), WriteFault>
        requires room { HasRoom self.old }
        requires base { base < 997 }
        requires few { wanted.patterns < 2 ^ 63 }
        ensures faults { K.faults out.old ≤ K.faults out.new }
        ensures room { OnOk result (HasRoom self.new) }
        ensures sent { OnOk result (HasSent K.is_put K.written out.old out.new (waiting self.old)
            (made_lines base wanted 1 wanted.patterns) (waiting self.new)) }
        ensures failed { OnErr result (HasFailed K.is_put K.written K.faults out.old out.new
            (waiting self.old ++ made_lines base wanted 1 wanted.patterns)) }
    {
        for done in 0..wanted.patterns {
            match self.pattern(base, wanted, done + 1, out) {
                Ok(()) => {}
                Err(fault) => return Err(fault),
            }
        }
        Ok(())
    }

    /// Sends what is written of a test.
    fn part<K: Sink>(&mut self, part: &Part, out: &mut K) -> Result<(), WriteFault>
        requires room { HasRoom self.old }
        requires small { IsSmallPart (part_value part.now) }
        ensures faults { K.faults out.old ≤ K.faults out.new }
        ensures room { OnOk result (HasRoom self.new) }
        ensures sent { OnOk result (HasSent K.is_put K.written out.old out.new (waiting self.old)
            (part_text (part_value part.now)) (waiting self.new)) }
        ensures failed { OnErr result (HasFailed K.is_put K.written K.faults out.old out.new
            (waiting self.old ++ part_text (part_value part.now))) }
    {
        match self.text(&part.head, out) {
            Ok(()) => {}
            Err(fault) => return Err(fault),
        }
        self.patterns(part.base, part.wanted, out)
    }

    /// Sends what is written of some tests.
    fn parts<K: Sink>(&mut self, parts: &[Part], out: &mut K) -> Result<(), WriteFault>
        requires room { HasRoom self.old }
        requires small { All (λ p. IsSmallPart (part_value p)) parts.now }
        ensures faults { K.faults out.old ≤ K.faults out.new }
        ensures room { OnOk result (HasRoom self.new) }
        ensures sent { OnOk result (HasSent K.is_put K.written out.old out.new (waiting self.old)
            (parts_text (map part_value parts.now)) (waiting self.new)) }
        ensures failed { OnErr result (HasFailed K.is_put K.written K.faults out.old out.new
            (waiting self.old ++ parts_text (map part_value parts.now))) }
    {
        for part in parts {
            match self.part(part, out) {
                Ok(()) => {}
                Err(fault) => return Err(fault),
            }
        }
        Ok(())
    }

    /// Writes the whole text, of which some tests are the parts.
    pub fn write<K: Sink>(&mut self, parts: &[Part], out: &mut K) -> Result<(), WriteFault>
        requires room { HasRoom self.old }
        requires empty { waiting self.old ≡ [] }
        requires small { All (λ p. IsSmallPart (part_value p)) parts.now }
        ensures faults { K.faults out.old ≤ K.faults out.new }
        ensures written { OnOk result (Appended (K.written out.old)
            (codes "Data 1\n" ++ parts_text (map part_value parts.now)) (K.written out.new)) }
        ensures none_failed { OnOk result (Puts K.is_put out.old false out.new) }
        ensures failed { OnErr result (HasFailed K.is_put K.written K.faults out.old out.new
            (codes "Data 1\n" ++ parts_text (map part_value parts.now))) }
    {
        match self.text(b"Data 1\n", out) {
            Ok(()) => {}
            Err(fault) => return Err(fault),
        }
        match self.parts(parts, out) {
            Ok(()) => {}
            Err(fault) => return Err(fault),
        }
        match self.flush(out) {
            Ok(()) => Ok(()),
            Err(fault) => Err(fault),
        }
    }
}
